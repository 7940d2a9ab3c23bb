ghost use Rattle.std.specs.Prelude.{◌≡◌, ◌<◌, ℕ, List as Items, IfOk, OnOk, Err, length};
ghost use Rattle.std.specs.List.{AllByRecursion};
ghost use Rattle.hold_base.specs.Answers.{Answers, IfFault};
ghost use Rattle.hold_build.specs.NetlistGraph.{IsGraphOf};
ghost use Rattle.hold_job.specs.Rules.{KeepsRules, KeepsTypesOf};
ghost use Rattle.hold_sdf.specs.declared.entry.Entry.{Entry as Said};
ghost use Rattle.hold_sdf.specs.Range.{IsInRange};
ghost use Rattle.hold_told.specs.Entries.{IsPlaced};
ghost use Rattle.hold_told.specs.Told.{AreTold, HasRoom, IsFirstStray};
ghost use Rattle.hold_values.specs.Values.{AreValuesOf, AreInRange};

use crate::defaults::Defaults;
use crate::lists::{clocks, delays, holds, setups, spans};
use crate::value::Values;
use hold_base::{CornerNo, Memory, Stop};
use hold_graph::Graph;
use hold_job::Job;
use hold_roles::Bound;
use hold_sdf::Entry;
use hold_told::{Stray, Told, tell};
use std::alloc::Global;

/// The values of a corner: what the entries of its SDF text say, else what the job says, in fs; or the first entry that is stray.
pub fn values(
    alloc: Global,
    bound: &Bound,
    graph: &Graph,
    job: &Job,
    corner: CornerNo,
    entries: &[Entry],
) -> Result<Values, Stop<Stray>>
    requires rules { KeepsRules job.now }
    requires types { KeepsTypesOf job.now bound.now.types }
    requires graph { IsGraphOf bound.now job.now graph.now }
    requires corner { corner.0 < length job.now.corners }
    requires in_range { AllByRecursion IsInRange entries.now }
    ensures values { IfOk result (AreValuesOf bound.now job.now graph.now corner.0 entries.now) }
    ensures in_range { IfOk result AreInRange }
    ensures placed { OnOk result (AllByRecursion (IsPlaced bound.now) entries.now) }
    ensures stray { IfFault result (λ stray. IsFirstStray bound.now entries.now stray.at) }
    ensures accepted { AllByRecursion (IsPlaced bound.now) entries.now → IfFault result (λ stray. ⊥) }
    ensures refused { (at : ℕ) → IsFirstStray bound.now entries.now at → Answers result (Err (record { at = at })) }
{
    match tell(alloc, bound, graph, entries) {
        Ok(told) => match values_of(alloc, bound, graph, job, corner, &told) {
            Ok(values) => Ok(values),
            Err(Memory) => Err(Stop::Memory),
        },
        Err(stop) => Err(stop),
    }
}

/// The values of a corner of which this is told.
fn values_of(
    alloc: Global,
    bound: &Bound,
    graph: &Graph,
    job: &Job,
    corner: CornerNo,
    told: &Told,
) -> Result<Values, Memory>
    requires rules { KeepsRules job.now }
    requires corner { corner.0 < length job.now.corners }
    requires room { HasRoom graph.now told.now }
    ensures { (entries : Items Said) → AreTold bound.now graph.now entries told.now
        → IfOk result (AreValuesOf bound.now job.now graph.now corner.0 entries) }
{
    let defaults = Defaults::of(alloc, job)?;
    let launches = graph.parts().launches.as_slice();
    let captures = graph.parts().captures.as_slice();
    Ok(Values {
        spans: spans(alloc, &defaults, bound, graph, job, corner, told)?,
        delays: delays(alloc, &defaults, bound, graph, job, corner, told)?,
        launch_clocks: clocks(alloc, &defaults, bound, job, corner, launches)?,
        capture_clocks: clocks(alloc, &defaults, bound, job, corner, captures)?,
        setups: setups(alloc, &defaults, bound, graph, job, corner, told)?,
        holds: holds(alloc, &defaults, bound, graph, job, corner, told)?,
    })
}
