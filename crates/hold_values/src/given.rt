//! The value of an arc or a pin: as told, else the default of its type.

ghost use Rattle.std.specs.Prelude.{◌<◌, List as Items, IfOk, length};
ghost use Rattle.hold_job.specs.Rules.{KeepsRules};
ghost use Rattle.hold_sdf.specs.declared.entry.Entry.{Entry as Said};
ghost use Rattle.hold_told.specs.Entries.{IsOfArc, IsOfCheck, IsOfDelay, Says, hold_of, setup_of, span_of};
ghost use Rattle.hold_told.specs.Values.{GreatestIfAny, HullIfAny};
ghost use Rattle.hold_values.specs.Given.{IfAny, IsGivenDelay, IsGivenHold, IsGivenSetup, IsGivenSpan};
ghost use Rattle.hold_values.specs.inner.Found.{AreDefaults};

use crate::defaults::Defaults;
use crate::types::{default_delay, default_hold, default_setup, default_span};
use hold_base::{CornerNo, Interval, Memory, PinNo};
use hold_graph::Arc;
use hold_job::Job;
use hold_roles::Bound;

/// The span of an arc, in fs.
pub(crate) fn given_span(
    defaults: &Defaults,
    key: &mut Vec<u8>,
    bound: &Bound,
    job: &Job,
    corner: CornerNo,
    arc: &Arc,
    told: Option<Interval>,
) -> Result<Option<Interval>, Memory>
    requires rules { KeepsRules job.now }
    requires corner { corner.0 < length job.now.corners }
    requires defaults { AreDefaults job.now defaults.now }
    ensures { (entries : Items Said) → HullIfAny (Says (λ e. IsOfArc bound.now e arc.now) span_of entries) told
        → IfOk result (λ span. IfAny (IsGivenSpan bound.now job.now corner.0 entries arc.now) span) }
{
    match told {
        Some(span) => Ok(Some(span)),
        None => default_span(defaults, key, bound, job, corner, arc),
    }
}

/// The delay from the clock to a pin, in fs.
pub(crate) fn given_delay(
    defaults: &Defaults,
    key: &mut Vec<u8>,
    bound: &Bound,
    job: &Job,
    corner: CornerNo,
    pin: PinNo,
    told: Option<Interval>,
) -> Result<Option<Interval>, Memory>
    requires rules { KeepsRules job.now }
    requires corner { corner.0 < length job.now.corners }
    requires defaults { AreDefaults job.now defaults.now }
    ensures { (entries : Items Said) → HullIfAny (Says (λ e. IsOfDelay bound.now e pin) span_of entries) told
        → IfOk result (λ span. IfAny (IsGivenDelay bound.now job.now corner.0 entries pin) span) }
{
    match told {
        Some(delay) => Ok(Some(delay)),
        None => default_delay(defaults, key, bound, job, corner, pin),
    }
}

/// The setup of a pin, in fs.
pub(crate) fn given_setup(
    defaults: &Defaults,
    key: &mut Vec<u8>,
    bound: &Bound,
    job: &Job,
    corner: CornerNo,
    pin: PinNo,
    told: Option<i64>,
) -> Result<Option<i64>, Memory>
    requires rules { KeepsRules job.now }
    requires corner { corner.0 < length job.now.corners }
    requires defaults { AreDefaults job.now defaults.now }
    ensures { (entries : Items Said) → GreatestIfAny (Says (λ e. IsOfCheck bound.now e pin) setup_of entries) told
        → IfOk result (λ time. IfAny (IsGivenSetup bound.now job.now corner.0 entries pin) time) }
{
    match told {
        Some(setup) => Ok(Some(setup)),
        None => default_setup(defaults, key, bound, job, corner, pin),
    }
}

/// The hold of a pin, in fs.
pub(crate) fn given_hold(
    defaults: &Defaults,
    key: &mut Vec<u8>,
    bound: &Bound,
    job: &Job,
    corner: CornerNo,
    pin: PinNo,
    told: Option<i64>,
) -> Result<Option<i64>, Memory>
    requires rules { KeepsRules job.now }
    requires corner { corner.0 < length job.now.corners }
    requires defaults { AreDefaults job.now defaults.now }
    ensures { (entries : Items Said) → GreatestIfAny (Says (λ e. IsOfCheck bound.now e pin) hold_of entries) told
        → IfOk result (λ time. IfAny (IsGivenHold bound.now job.now corner.0 entries pin) time) }
{
    match told {
        Some(hold) => Ok(Some(hold)),
        None => default_hold(defaults, key, bound, job, corner, pin),
    }
}
