//! What a job says of the cells of a type.

ghost use Rattle.std.specs.Prelude.{◌<◌, IfOk, length};
ghost use Rattle.hold_job.specs.Rules.{KeepsRules};
ghost use Rattle.hold_values.specs.Defaults.{IsDefaultDelay, IsDefaultSpan, IsDefaultTime, IsSpanOfType};
ghost use Rattle.hold_values.specs.Given.{IfAny};
ghost use Rattle.hold_values.specs.inner.Found.{AreDefaults, IsCheckAt};

use crate::defaults::Defaults;
use crate::pin::pin_of;
use hold_base::{CornerNo, Interval, Memory, PinNo};
use hold_graph::Arc;
use hold_job::Job;
use hold_roles::Bound;

/// The delay of a type between two of its pins, in fs.
fn type_span(
    defaults: &Defaults,
    key: &mut Vec<u8>,
    job: &Job,
    corner: CornerNo,
    kind: &[u8],
    from: &[u8],
    to: &[u8],
) -> Result<Option<Interval>, Memory>
    requires rules { KeepsRules job.now }
    requires corner { corner.0 < length job.now.corners }
    requires defaults { AreDefaults job.now defaults.now }
    ensures { IfOk result (λ span. IfAny (IsSpanOfType job.now corner.0 kind.now from.now to.now) span) }
{
    match defaults.arc(key, job, kind, from, to)? {
        Some(place) => {
            let arc = &job.arcs.as_slice()[place as usize];
            Ok(Some(arc.spans.as_slice()[corner.0 as usize]))
        }
        None => Ok(None),
    }
}

/// The span of an arc by the type of its cell, in fs; none of a wire.
pub(crate) fn default_span(
    defaults: &Defaults,
    key: &mut Vec<u8>,
    bound: &Bound,
    job: &Job,
    corner: CornerNo,
    arc: &Arc,
) -> Result<Option<Interval>, Memory>
    requires rules { KeepsRules job.now }
    requires corner { corner.0 < length job.now.corners }
    requires defaults { AreDefaults job.now defaults.now }
    ensures { IfOk result (λ span. IfAny (IsDefaultSpan bound.now job.now corner.0 arc.now) span) }
{
    if arc.wire {
        return Ok(None);
    }
    let Some((inst, cell, input)) = pin_of(bound, arc.from) else {
        return Ok(None);
    };
    let Some((other, _, output)) = pin_of(bound, arc.to) else {
        return Ok(None);
    };
    if inst != other {
        return Ok(None);
    }
    type_span(
        defaults,
        key,
        job,
        corner,
        cell.name.bytes(),
        input.name.bytes(),
        output.name.bytes(),
    )
}

/// The delay from the clock to an output of a register by its type, in fs.
pub(crate) fn default_delay(
    defaults: &Defaults,
    key: &mut Vec<u8>,
    bound: &Bound,
    job: &Job,
    corner: CornerNo,
    pin: PinNo,
) -> Result<Option<Interval>, Memory>
    requires rules { KeepsRules job.now }
    requires corner { corner.0 < length job.now.corners }
    requires defaults { AreDefaults job.now defaults.now }
    ensures { IfOk result (λ span. IfAny (IsDefaultDelay bound.now job.now corner.0 pin) span) }
{
    let Some((_, cell, output)) = pin_of(bound, pin) else {
        return Ok(None);
    };
    match &cell.clock {
        Some(clock) => type_span(
            defaults,
            key,
            job,
            corner,
            cell.name.bytes(),
            clock.bytes(),
            output.name.bytes(),
        ),
        None => Ok(None),
    }
}

/// The place of the check of a pin by the type of its instance.
fn check_of(
    defaults: &Defaults,
    key: &mut Vec<u8>,
    bound: &Bound,
    job: &Job,
    pin: PinNo,
) -> Result<Option<u32>, Memory>
    requires { AreDefaults job.now defaults.now }
    ensures { IfOk result (λ place. IfAny (IsCheckAt bound.now job.now pin) place) }
{
    let Some((_, cell, data)) = pin_of(bound, pin) else {
        return Ok(None);
    };
    defaults.check(key, job, cell.name.bytes(), data.name.bytes())
}

/// The setup of a pin by the type of its instance, in fs.
pub(crate) fn default_setup(
    defaults: &Defaults,
    key: &mut Vec<u8>,
    bound: &Bound,
    job: &Job,
    corner: CornerNo,
    pin: PinNo,
) -> Result<Option<i64>, Memory>
    requires rules { KeepsRules job.now }
    requires corner { corner.0 < length job.now.corners }
    requires defaults { AreDefaults job.now defaults.now }
    ensures { IfOk result (λ time. IfAny (IsDefaultTime (λ check. check.setup) bound.now job.now corner.0 pin) time) }
{
    match check_of(defaults, key, bound, job, pin)? {
        Some(place) => {
            let check = &job.checks.as_slice()[place as usize];
            Ok(Some(check.setup.as_slice()[corner.0 as usize]))
        }
        None => Ok(None),
    }
}

/// The hold of a pin by the type of its instance, in fs.
pub(crate) fn default_hold(
    defaults: &Defaults,
    key: &mut Vec<u8>,
    bound: &Bound,
    job: &Job,
    corner: CornerNo,
    pin: PinNo,
) -> Result<Option<i64>, Memory>
    requires rules { KeepsRules job.now }
    requires corner { corner.0 < length job.now.corners }
    requires defaults { AreDefaults job.now defaults.now }
    ensures { IfOk result (λ time. IfAny (IsDefaultTime (λ check. check.hold) bound.now job.now corner.0 pin) time) }
{
    match check_of(defaults, key, bound, job, pin)? {
        Some(place) => {
            let check = &job.checks.as_slice()[place as usize];
            Ok(Some(check.hold.as_slice()[corner.0 as usize]))
        }
        None => Ok(None),
    }
}
