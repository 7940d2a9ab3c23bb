//! The checks of a register's cell type.
ghost use Rattle.std.specs.Prelude.{◌≡◌, IfOk};
ghost use Rattle.std.specs.List.{list_all};
ghost use Rattle.toml.specs.View.{view, table_view};
ghost use Rattle.hold_netlist.specs.Names.{is_among};
ghost use Rattle.hold_cli.specs.JobFormCells.{check_of, check_in};

use crate::job_form::doubles::Named;
use crate::job_form::each::FromValue;
use crate::job_form::key::JobTable;
use crate::job_form::name_set::NameSet;
use crate::job_form::names::name_at;
use crate::job_form::times::time_at;
use hold_base::{Memory, Name};
use hold_plain::{CellCheck, Check};
use std::alloc::Global;
use toml::{Table, Value};

impl FromValue for CellCheck {
    ghost given_by = { check_of };

    fn from_value(alloc: Global, value: &Value) -> Result<Option<CellCheck>, Memory> {
        match value.as_table() {
            Some(table) if JobTable::Check.has_all_keys(table) => check_in(alloc, table),
            _ => Ok(None),
        }
    }
}

impl Named for CellCheck {
    ghost name_in = { λ entry. entry.pin };

    fn name(&self) -> &[u8] {
        self.pin.bytes()
    }
}

/// The check that the keys of a table give.
#[tactic(auto, unfolding(crate::specs::JobFormCells::check_in))]
fn check_in(alloc: Global, table: &Table) -> Result<Option<CellCheck>, Memory>
    ensures { IfOk result (λ found. found ≡ check_in (table_view table.now)) }
{
    let Some(pin) = name_at(table, "pin") else {
        return Ok(None);
    };
    let Some(setup) = time_at(table, "setup") else {
        return Ok(None);
    };
    let Some(hold) = time_at(table, "hold") else {
        return Ok(None);
    };
    Ok(Some(CellCheck {
        pin: Name::from_bytes(alloc, pin)?,
        check: Check { setup, hold },
    }))
}

/// Whether each check is of one of these pins.
pub fn all_of(checks: &[CellCheck], pins: &NameSet) -> bool
    ensures { result ≡ list_all (λ entry. is_among entry.pin pins.now) checks.now }
{
    for entry in checks {
        if !pins.has(entry.pin.bytes()) {
            return false;
        }
    }
    true
}
