//! When the clock arrives, by the job.

ghost use Rattle.std.specs.Prelude.{◌<◌, length};
ghost use Rattle.hold_job.specs.Rules.{KeepsRules};
ghost use Rattle.hold_values.specs.Defaults.{IsArrival, IsSharedArrival};
ghost use Rattle.hold_values.specs.Given.{IfAny, IsGivenClock};
ghost use Rattle.hold_values.specs.inner.Found.{AreDefaults};

use crate::defaults::Defaults;
use crate::pin::pin_of;
use hold_base::{CornerNo, Interval, Name, PinNo};
use hold_job::Job;
use hold_roles::Bound;

/// When the clock arrives at a register of which the job doesn't say it, in fs.
fn shared_arrival(job: &Job, corner: CornerNo) -> Option<Interval>
    requires rules { KeepsRules job.now }
    requires corner { corner.0 < length job.now.corners }
    ensures { IfAny (IsSharedArrival job.now corner.0) result }
{
    match &job.arrival {
        Some(spans) => Some(spans.as_slice()[corner.0 as usize]),
        None => None,
    }
}

/// When the clock arrives at the instance of that name, in fs.
fn arrival(defaults: &Defaults, job: &Job, corner: CornerNo, inst: &Name) -> Option<Interval>
    requires rules { KeepsRules job.now }
    requires corner { corner.0 < length job.now.corners }
    requires defaults { AreDefaults job.now defaults.now }
    ensures { IfAny (IsArrival job.now corner.0 inst.now) result }
{
    match defaults.clock(job, inst.bytes()) {
        Some(place) => {
            let clock = &job.clocks.as_slice()[place as usize];
            Some(clock.arrivals.as_slice()[corner.0 as usize])
        }
        None => shared_arrival(job, corner),
    }
}

/// When the clock arrives at the register of a pin, in fs.
pub(crate) fn clock_at(
    defaults: &Defaults,
    bound: &Bound,
    job: &Job,
    corner: CornerNo,
    pin: PinNo,
) -> Option<Interval>
    requires rules { KeepsRules job.now }
    requires corner { corner.0 < length job.now.corners }
    requires defaults { AreDefaults job.now defaults.now }
    ensures { IfAny (IsGivenClock bound.now job.now corner.0 pin) result }
{
    let Some((inst, _, _)) = pin_of(bound, pin) else {
        return None;
    };
    let name = &bound.netlist().insts()[inst.0 as usize].name;
    arrival(defaults, job, corner, name)
}
