//! The clock arrivals of single instances.
ghost use Rattle.std.specs.Prelude.{◌≡◌, IfOk};
ghost use Rattle.toml.specs.View.{view, table_view};
ghost use Rattle.hold_cli.specs.JobFormClocks.{clock_of, clock_in, clocks_at};

use crate::job_form::doubles::{Named, differ};
use crate::job_form::each::{FromValue, each_at};
use crate::job_form::key::JobTable;
use crate::job_form::names::name_at;
use crate::job_form::times::span_at;
use hold_base::{List, Memory, Name};
use hold_plain::Clock;
use std::alloc::Global;
use toml::{Table, Value};

impl FromValue for Clock {
    ghost given_by = { clock_of };

    fn from_value(alloc: Global, value: &Value) -> Result<Option<Clock>, Memory> {
        match value.as_table() {
            Some(table) if JobTable::Clock.has_all_keys(table) => clock_in(alloc, table),
            _ => Ok(None),
        }
    }
}

impl Named for Clock {
    ghost name_in = { λ clock. clock.inst };

    fn name(&self) -> &[u8] {
        self.inst.bytes()
    }
}

/// The arrival that the keys of a table give.
#[tactic(auto, unfolding(crate::specs::JobFormClocks::clock_in))]
fn clock_in(alloc: Global, table: &Table) -> Result<Option<Clock>, Memory>
    ensures { IfOk result (λ found. found ≡ clock_in (table_view table.now)) }
{
    let Some(inst) = name_at(table, "inst") else {
        return Ok(None);
    };
    let Some(arrival) = span_at(table, "arrivals") else {
        return Ok(None);
    };
    Ok(Some(Clock {
        inst: Name::from_bytes(alloc, inst)?,
        arrival,
    }))
}

/// The arrivals that a job lists, if all have their form and no instance has two.
pub fn clocks_at(alloc: Global, table: &Table) -> Result<Option<List<Clock>>, Memory>
    ensures { IfOk result (λ found. found ≡ clocks_at (table_view table.now)) }
{
    match each_at(alloc, table, "clock")? {
        Some(clocks) => {
            if differ::<Clock>(alloc, clocks.as_slice())? {
                Ok(Some(clocks))
            } else {
                Ok(None)
            }
        }
        None => Ok(None),
    }
}
