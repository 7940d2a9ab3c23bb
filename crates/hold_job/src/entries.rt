//! Clock arrivals and kept pins of a job.
ghost use Rattle.std.specs.Prelude.{◌≡◌};
ghost use Rattle.hold_job.specs.Entries.{clock_of, keep_of};

use crate::fault::JobFault;
use crate::form::{Form, not_its_kind, required};
use crate::inst_times::{Clock, Keep};
use crate::keys::test_keys;
use crate::number::spans;
use crate::text::TextRule;
use hold_base::{Stop, limits};
use std::alloc::Global;
use toml::Value;

/// A clock arrival of a job with so many corners.
#[derive(Drop)]
pub struct ClockForm {
    pub corners: usize,
}

impl Form for ClockForm {
    type Given = Clock;

    ghost form = { λ f. clock_of f.corners };

    #[tactic(auto, unfolding(crate::specs::Entries::clock_of, crate::specs::Keys::table_of))]
    fn read(&self, alloc: Global, value: &Value) -> Result<Clock, Stop<JobFault>> {
        let Some(table) = value.as_table() else {
            return Err(not_its_kind(alloc));
        };
        test_keys(alloc, table, &["inst", "arrivals"])?;
        let inst = required(alloc, &TextRule::Name, table, "inst")?;
        let form = spans(-limits::TIME, self.corners);
        let arrivals = required(alloc, &form, table, "arrivals")?;
        Ok(Clock { inst, arrivals })
    }
}

/// A kept pin.
#[derive(Drop)]
pub struct KeepForm;

impl Form for KeepForm {
    type Given = Keep;

    ghost form = { λ f. keep_of };

    #[tactic(auto, unfolding(crate::specs::Entries::keep_of, crate::specs::Keys::table_of))]
    fn read(&self, alloc: Global, value: &Value) -> Result<Keep, Stop<JobFault>> {
        let Some(table) = value.as_table() else {
            return Err(not_its_kind(alloc));
        };
        test_keys(alloc, table, &["inst", "pin"])?;
        let inst = required(alloc, &TextRule::Name, table, "inst")?;
        let pin = required(alloc, &TextRule::Name, table, "pin")?;
        Ok(Keep { inst, pin })
    }
}
