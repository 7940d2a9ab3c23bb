//! The values of a corner, arc by arc and pin by pin.

ghost use Rattle.std.specs.Prelude.{◌<◌, List as Items, IfOk, length};
ghost use Rattle.std.specs.List.{AllZip};
ghost use Rattle.hold_job.specs.Rules.{KeepsRules};
ghost use Rattle.hold_sdf.specs.declared.entry.Entry.{Entry as Said};
ghost use Rattle.hold_told.specs.Told.{AreTold, HasRoom};
ghost use Rattle.hold_values.specs.Given.{IfAny, IsGivenClock, IsGivenDelay, IsGivenHold, IsGivenSetup, IsGivenSpan};
ghost use Rattle.hold_values.specs.inner.Found.{AreDefaults};

use crate::clock::clock_at;
use crate::defaults::Defaults;
use crate::given::{given_delay, given_hold, given_setup, given_span};
use hold_base::{CornerNo, Interval, Memory, PinNo};
use hold_graph::Graph;
use hold_job::Job;
use hold_roles::Bound;
use hold_told::Told;
use std::alloc::Global;

/// By arc, its span, in fs.
pub(crate) fn spans(
    alloc: Global,
    defaults: &Defaults,
    bound: &Bound,
    graph: &Graph,
    job: &Job,
    corner: CornerNo,
    told: &Told,
) -> Result<Vec<Option<Interval>>, Memory>
    requires rules { KeepsRules job.now }
    requires corner { corner.0 < length job.now.corners }
    requires defaults { AreDefaults job.now defaults.now }
    requires room { HasRoom graph.now told.now }
    ensures { (entries : Items Said) → AreTold bound.now graph.now entries told.now
        → IfOk result (λ spans. AllZip (λ arc span. IfAny (IsGivenSpan bound.now job.now corner.0 entries arc) span) graph.now.arcs spans.items) }
{
    let arcs = graph.parts().arcs.as_slice();
    let mut spans = Vec::with_capacity(alloc, arcs.len())?;
    let mut key = Vec::new(alloc);
    for (place, arc) in arcs.iter().enumerate() {
        let told = told.spans[place];
        spans.push(given_span(defaults, &mut key, bound, job, corner, arc, told)?)?;
    }
    Ok(spans)
}

/// By launch, the delay from the clock to it, in fs.
pub(crate) fn delays(
    alloc: Global,
    defaults: &Defaults,
    bound: &Bound,
    graph: &Graph,
    job: &Job,
    corner: CornerNo,
    told: &Told,
) -> Result<Vec<Option<Interval>>, Memory>
    requires rules { KeepsRules job.now }
    requires corner { corner.0 < length job.now.corners }
    requires defaults { AreDefaults job.now defaults.now }
    requires room { HasRoom graph.now told.now }
    ensures { (entries : Items Said) → AreTold bound.now graph.now entries told.now
        → IfOk result (λ delays. AllZip (λ pin value. IfAny (IsGivenDelay bound.now job.now corner.0 entries pin) value) graph.now.launches delays.items) }
{
    let pins = graph.parts().launches.as_slice();
    let mut delays = Vec::with_capacity(alloc, pins.len())?;
    let mut key = Vec::new(alloc);
    for pin in pins {
        let told = told.delays[pin.0 as usize];
        delays.push(given_delay(defaults, &mut key, bound, job, corner, *pin, told)?)?;
    }
    Ok(delays)
}

/// By capture, its setup, in fs.
pub(crate) fn setups(
    alloc: Global,
    defaults: &Defaults,
    bound: &Bound,
    graph: &Graph,
    job: &Job,
    corner: CornerNo,
    told: &Told,
) -> Result<Vec<Option<i64>>, Memory>
    requires rules { KeepsRules job.now }
    requires corner { corner.0 < length job.now.corners }
    requires defaults { AreDefaults job.now defaults.now }
    requires room { HasRoom graph.now told.now }
    ensures { (entries : Items Said) → AreTold bound.now graph.now entries told.now
        → IfOk result (λ setups. AllZip (λ pin value. IfAny (IsGivenSetup bound.now job.now corner.0 entries pin) value) graph.now.captures setups.items) }
{
    let pins = graph.parts().captures.as_slice();
    let mut setups = Vec::with_capacity(alloc, pins.len())?;
    let mut key = Vec::new(alloc);
    for pin in pins {
        let told = told.setups[pin.0 as usize];
        setups.push(given_setup(defaults, &mut key, bound, job, corner, *pin, told)?)?;
    }
    Ok(setups)
}

/// By capture, its hold, in fs.
pub(crate) fn holds(
    alloc: Global,
    defaults: &Defaults,
    bound: &Bound,
    graph: &Graph,
    job: &Job,
    corner: CornerNo,
    told: &Told,
) -> Result<Vec<Option<i64>>, Memory>
    requires rules { KeepsRules job.now }
    requires corner { corner.0 < length job.now.corners }
    requires defaults { AreDefaults job.now defaults.now }
    requires room { HasRoom graph.now told.now }
    ensures { (entries : Items Said) → AreTold bound.now graph.now entries told.now
        → IfOk result (λ holds. AllZip (λ pin value. IfAny (IsGivenHold bound.now job.now corner.0 entries pin) value) graph.now.captures holds.items) }
{
    let pins = graph.parts().captures.as_slice();
    let mut holds = Vec::with_capacity(alloc, pins.len())?;
    let mut key = Vec::new(alloc);
    for pin in pins {
        let told = told.holds[pin.0 as usize];
        holds.push(given_hold(defaults, &mut key, bound, job, corner, *pin, told)?)?;
    }
    Ok(holds)
}

/// By pin of these, when the clock arrives at its register, in fs.
pub(crate) fn clocks(
    alloc: Global,
    defaults: &Defaults,
    bound: &Bound,
    job: &Job,
    corner: CornerNo,
    pins: &[PinNo],
) -> Result<Vec<Option<Interval>>, Memory>
    requires rules { KeepsRules job.now }
    requires corner { corner.0 < length job.now.corners }
    requires defaults { AreDefaults job.now defaults.now }
    ensures { IfOk result (λ clocks. AllZip (λ pin span. IfAny (IsGivenClock bound.now job.now corner.0 pin) span) pins.now clocks.items) }
{
    let mut clocks = Vec::with_capacity(alloc, pins.len())?;
    for pin in pins {
        clocks.push(clock_at(defaults, bound, job, corner, *pin))?;
    }
    Ok(clocks)
}
