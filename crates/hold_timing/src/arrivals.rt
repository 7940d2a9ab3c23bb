ghost use Rattle.std.specs.Prelude.{◌≡◌, ◌↔◌, ◌<◌, false, length, IfOk, IsTrue, Some, option_map, List as Items};
ghost use Rattle.hold_base.specs.declared.number.PinNo.{PinNo as Pin};
ghost use Rattle.hold_base.specs.declared.time.Side.TheVariants.{Early};
ghost use Rattle.hold_graph.specs.Met.{excess, IsMet};
ghost use Rattle.hold_graph.specs.Path.{IsCheckedPath, end_pin};
ghost use Rattle.hold_graph.specs.Problem.{IsValid};
ghost use Rattle.hold_graph.specs.SitePins.{AreSites};
ghost use Rattle.hold_graph.specs.Sites.{buffers_of, AreCountsOf};
ghost use Rattle.hold_timing.specs.Arrivals.{times_at, AtCorner, AreArrivals};
ghost use Rattle.hold_timing.specs.Ends.{EndsAt, IsWorstEnd, SomeMisses};
ghost use Rattle.hold_timing.specs.Worst.{IsSlackAt, IsWorstOf};
ghost use Rattle.hold_timing.specs.inner.Search.{IsMetAt, IsMissedAt};

use crate::corners::{put_counts, refresh_side, side_times};
use crate::end::End;
use crate::times::SideTimes;
use hold_base::{CornerNo, Memory, PinNo, Side};
use hold_graph::{Counts, Problem};
use std::alloc::Global;
use std::marker::Model;

/// The arrivals at all pins of a problem for some counts, early and late, in each corner. A contract sees the counts and, by
/// corner, the times of either side.
#[derive(Drop)]
pub struct Arrivals {
    counts: Vec<u8>,
    early: Vec<SideTimes>,
    late: Vec<SideTimes>,
}

impl Model for Arrivals {
    ghost use Rattle.std.specs.Prelude.{◌≤◌, All};
    ghost use Rattle.hold_base.specs.Limits.{chain_limit};
    ghost use Rattle.hold_timing.specs.Arrivals.{Table};
    ghost use Rattle.hold_timing.specs.inner.Search.{table_of};

    ghost Value = { Table };

    ghost view = { λ a. table_of a.counts.items a.early.items a.late.items };

    ghost invariant = { λ a. All (λ count. count ≤ chain_limit) a.counts.items };
}

impl Arrivals {
    /// The arrivals for these counts, found by one pass over the graph for each corner and side.
    pub fn make(alloc: Global, problem: &Problem, counts: &Counts) -> Result<Arrivals, Memory>
        requires valid { IsValid problem.now }
        requires counts { AreCountsOf problem.now counts.now }
        ensures counts { IfOk result (λ arrivals. arrivals.counts ≡ counts.now) }
        ensures right { IfOk result (AreArrivals problem.now) }
    {
        let counts = counts.as_slice();
        let early = side_times(alloc, problem, Side::Early, counts)?;
        let late = side_times(alloc, problem, Side::Late, counts)?;
        let counts = Vec::from_slice(alloc, counts)?;
        Ok(Arrivals {
            counts,
            early,
            late,
        })
    }

    /// Puts the arrivals for other counts of the same problem in the place of these. Takes no memory.
    pub fn refresh(&mut self, problem: &Problem, counts: &Counts)
        requires valid { IsValid problem.now }
        requires counts { AreCountsOf problem.now counts.now }
        requires arrivals { AreArrivals problem.now self.old }
        ensures counts { self.new.counts ≡ counts.now }
        ensures right { AreArrivals problem.now self.new }
    {
        // by the list of sites a proof learns that there is room for the new counts and times
        let _sites = problem.graph.sites();
        let counts = counts.as_slice();
        refresh_side(&mut self.early, problem, Side::Early, counts);
        refresh_side(&mut self.late, problem, Side::Late, counts);
        put_counts(&mut self.counts, counts);
    }

    /// Lends the times of a side, by corner.
    fn times(&self, side: Side) -> &[SideTimes]
        ensures { result.now ≡ times_at side self.now }
    {
        match side {
            Side::Early => self.early.as_slice(),
            Side::Late => self.late.as_slice(),
        }
    }

    /// The least slack, in fs, of all checked paths of that side of a corner, at the least capture at which a path with that slack
    /// ends. None where no path is checked. Takes no memory.
    pub fn worst(&self, problem: &Problem, corner: CornerNo, side: Side) -> Option<End>
        requires valid { IsValid problem.now }
        requires arrivals { AreArrivals problem.now self.now }
        requires corner { corner.0 < length problem.now.corners }
        ensures worst { AtCorner problem.now self.now.counts corner.0 (λ spans buffers. IsWorstEnd side problem.now spans buffers result) }
        ensures slack { AtCorner problem.now self.now.counts corner.0 (λ spans buffers.
            IsWorstOf Early (IsCheckedPath problem.now.graph) (excess side problem.now spans buffers) (option_map (λ end. end.slack) result)) }
    {
        let at = corner.0 as usize;
        let spans = &problem.corners.as_slice()[at];
        let times = &self.times(side)[at];
        times.worst(problem, spans, side, self.counts.as_slice())
    }

    /// Whether every checked path meets the side's check in a corner.
    fn meets_at(&self, problem: &Problem, corner: CornerNo, side: Side) -> bool
        requires valid { IsValid problem.now }
        requires arrivals { AreArrivals problem.now self.now }
        requires corner { corner.0 < length problem.now.corners }
        ensures met { IsTrue result → AtCorner problem.now self.now.counts corner.0 (IsMetAt side problem.now) }
        ensures missed { result ≡ false → AtCorner problem.now self.now.counts corner.0 (IsMissedAt side problem.now) }
    {
        match self.worst(problem, corner, side) {
            Some(end) => end.slack >= 0,
            None => true,
        }
    }

    /// Whether every checked path meets both checks in every corner. Where one doesn't, `worst` tells of some side of some corner a
    /// slack below 0. Takes no memory.
    pub fn meets(&self, problem: &Problem) -> bool
        requires valid { IsValid problem.now }
        requires arrivals { AreArrivals problem.now self.now }
        ensures met { (sites : Items Pin) → AreSites problem.now.graph sites →
            (IsTrue result ↔ IsMet problem.now (buffers_of (length problem.now.costs) sites self.now.counts)) }
        ensures missed { (sites : Items Pin) → AreSites problem.now.graph sites → result ≡ false →
            SomeMisses problem.now (buffers_of (length problem.now.costs) sites self.now.counts) }
    {
        let corners = problem.corners.as_slice().len();
        for at in 0..corners {
            let corner = CornerNo(at as u8);
            if !self.meets_at(problem, corner, Side::Early) {
                return false;
            }
            if !self.meets_at(problem, corner, Side::Late) {
                return false;
            }
        }
        true
    }

    /// A checked path to the capture that has the least slack of those that end there, in that side of the corner.
    pub fn path_to(
        &self,
        alloc: Global,
        problem: &Problem,
        corner: CornerNo,
        side: Side,
        capture: PinNo,
    ) -> Result<Vec<PinNo>, Memory>
        requires valid { IsValid problem.now }
        requires arrivals { AreArrivals problem.now self.now }
        requires corner { corner.0 < length problem.now.corners }
        requires ends { EndsAt problem.now.graph capture }
        ensures checked { IfOk result (λ path. IsCheckedPath problem.now.graph path.items) }
        ensures ends { IfOk result (λ path. end_pin path.items ≡ capture) }
        ensures least { IfOk result (λ path. AtCorner problem.now self.now.counts corner.0 (λ spans buffers.
            IsSlackAt side problem.now spans buffers capture (Some (excess side problem.now spans buffers path.items)))) }
    {
        let at = corner.0 as usize;
        let spans = &problem.corners.as_slice()[at];
        let times = &self.times(side)[at];
        let counts = self.counts.as_slice();
        times.path_to(alloc, problem, spans, side, counts, capture)
    }
}
