ghost use Rattle.std.specs.Prelude.{◌≡◌, ◌<◌, ◌≤◌, length, map, All, IfOk, Some, List};
ghost use Rattle.hold_base.specs.Limits.{chain_limit};
ghost use Rattle.hold_base.specs.declared.number.PinNo.{PinNo as Pin};
ghost use Rattle.hold_graph.specs.Met.{excess};
ghost use Rattle.hold_graph.specs.Path.{IsCheckedPath, end_pin};
ghost use Rattle.hold_graph.specs.Problem.{IsValid, IsValidCorner};
ghost use Rattle.hold_graph.specs.SitePins.{AreSites};
ghost use Rattle.hold_graph.specs.Sites.{buffers_of, AreCountsOf};
ghost use Rattle.hold_timing.specs.Arrivals.{AreTimesOf};
ghost use Rattle.hold_timing.specs.Ends.{EndsAt, IsWorstEnd};
ghost use Rattle.hold_timing.specs.Worst.{required_at, IsSlackAt};

use crate::back::path_back;
use crate::end::End;
use crate::pass::settle;
use crate::required::required_times;
use crate::spread::no_times;
use crate::worst::worst_end;
use hold_base::{Memory, PinNo, Side};
use hold_graph::{Problem, Spans};
use std::alloc::Global;
use std::marker::Model;

/// The arrivals of one side of a corner, by pin, and by the place of a capture the times that the check asks. A contract sees
/// both lists.
#[derive(Drop)]
pub(crate) struct SideTimes {
    arrivals: Vec<Option<i64>>,
    required: Vec<i64>,
}

impl Model for SideTimes {
    ghost use Rattle.std.specs.Prelude.{All};
    ghost use Rattle.hold_graph.specs.Problem.{IsWithin};
    ghost use Rattle.hold_timing.specs.Arrivals.{Times};
    ghost use Rattle.hold_timing.specs.inner.Pass.{required_limit, sum_limit, AreWithin};
    ghost use Rattle.hold_timing.specs.inner.Search.{times_of};

    ghost Value = { Times };

    ghost view = { λ t. times_of t.arrivals.items t.required.items };

    ghost invariant = { λ t. AreWithin sum_limit t.arrivals.items × All (IsWithin required_limit) t.required.items };
}

impl SideTimes {
    /// The times for these counts.
    pub(crate) fn make(
        alloc: Global,
        problem: &Problem,
        spans: &Spans,
        side: Side,
        counts: &[u8],
    ) -> Result<SideTimes, Memory>
        requires valid { IsValid problem.now }
        requires corner { IsValidCorner problem.now spans.now }
        requires counts { AreCountsOf problem.now counts.now }
        requires most { All (λ count. count ≤ chain_limit) counts.now }
        ensures { IfOk result (λ times. (sites : List Pin) → AreSites problem.now.graph sites →
            AreTimesOf side problem.now spans.now (buffers_of (length problem.now.costs) sites counts.now) times) }
    {
        let required = required_times(alloc, problem, spans, side)?;
        let mut arrivals = no_times(alloc, problem.graph.parts().pins)?;
        settle(&mut arrivals, problem, spans, side, counts);
        Ok(SideTimes { arrivals, required })
    }

    /// Puts the arrivals for other counts in the place of these.
    pub(crate) fn refresh(&mut self, problem: &Problem, spans: &Spans, side: Side, counts: &[u8])
        requires valid { IsValid problem.now }
        requires corner { IsValidCorner problem.now spans.now }
        requires counts { AreCountsOf problem.now counts.now }
        requires most { All (λ count. count ≤ chain_limit) counts.now }
        requires each { length self.old.arrivals ≡ problem.now.graph.pins }
        requires asked { self.old.required ≡ map (required_at side problem.now spans.now) problem.now.graph.captures }
        ensures { (sites : List Pin) → AreSites problem.now.graph sites →
            AreTimesOf side problem.now spans.now (buffers_of (length problem.now.costs) sites counts.now) self.new }
    {
        settle(&mut self.arrivals, problem, spans, side, counts);
    }

    /// The worst end of the checked paths.
    pub(crate) fn worst(
        &self,
        problem: &Problem,
        spans: &Spans,
        side: Side,
        counts: &[u8],
    ) -> Option<End>
        requires valid { IsValid problem.now }
        requires corner { IsValidCorner problem.now spans.now }
        requires counts { AreCountsOf problem.now counts.now }
        requires most { All (λ count. count ≤ chain_limit) counts.now }
        requires right { (sites : List Pin) → AreSites problem.now.graph sites →
            AreTimesOf side problem.now spans.now (buffers_of (length problem.now.costs) sites counts.now) self.now }
        ensures { (sites : List Pin) → AreSites problem.now.graph sites →
            IsWorstEnd side problem.now spans.now (buffers_of (length problem.now.costs) sites counts.now) result }
    {
        // by the list of sites a proof learns that these are the times of this side
        let _sites = problem.graph.sites();
        worst_end(
            problem,
            spans,
            side,
            counts,
            self.arrivals.as_slice(),
            self.required.as_slice(),
        )
    }

    /// A checked path to the capture with the least slack of those that end there.
    pub(crate) fn path_to(
        &self,
        alloc: Global,
        problem: &Problem,
        spans: &Spans,
        side: Side,
        counts: &[u8],
        capture: PinNo,
    ) -> Result<Vec<PinNo>, Memory>
        requires valid { IsValid problem.now }
        requires corner { IsValidCorner problem.now spans.now }
        requires counts { AreCountsOf problem.now counts.now }
        requires most { All (λ count. count ≤ chain_limit) counts.now }
        requires right { (sites : List Pin) → AreSites problem.now.graph sites →
            AreTimesOf side problem.now spans.now (buffers_of (length problem.now.costs) sites counts.now) self.now }
        requires ends { EndsAt problem.now.graph capture }
        ensures checked { IfOk result (λ path. IsCheckedPath problem.now.graph path.items) }
        ensures ends { IfOk result (λ path. end_pin path.items ≡ capture) }
        ensures least { IfOk result (λ path. (sites : List Pin) → AreSites problem.now.graph sites →
            IsSlackAt side problem.now spans.now (buffers_of (length problem.now.costs) sites counts.now) capture
            (Some (excess side problem.now spans.now (buffers_of (length problem.now.costs) sites counts.now) path.items))) }
    {
        // by the list of sites a proof learns that these are the times of this side
        let _sites = problem.graph.sites();
        let arrivals = self.arrivals.as_slice();
        path_back(alloc, problem, spans, side, counts, arrivals, capture)
    }
}
