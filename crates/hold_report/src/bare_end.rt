//! The worst end of one side of a corner, where there is no buffer.

ghost use Rattle.std.specs.Prelude.{◌≡◌, ◌*◌, ◌<◌, List, Some, length, replicate, slice_get};
ghost use Rattle.hold_base.specs.declared.number.PinNo.{PinNo as Pin};
ghost use Rattle.hold_graph.specs.Problem.{IsValid};
ghost use Rattle.hold_graph.specs.Sites.{AreSites};
ghost use Rattle.hold_graph.specs.Sums.{no_buffers};
ghost use Rattle.hold_graph.specs.declared.problem.Spans.{Spans};
ghost use Rattle.hold_timing.specs.Arrivals.{AreArrivals};
ghost use Rattle.hold_timing.specs.Ends.{IsWorstEnd};

use hold_base::{CornerNo, Side};
use hold_graph::Problem;
use hold_timing::{Arrivals, End};

/// The worst end of that side of a corner, where the arrivals are those for counts of 0.
pub(crate) fn bare_end(
    problem: &Problem,
    arrivals: &Arrivals,
    corner: CornerNo,
    side: Side,
) -> Option<End>
    requires valid { IsValid problem.now }
    requires arrivals { AreArrivals problem.now arrivals.now }
    requires zeros { (sites : List Pin) → AreSites problem.now.graph sites → arrivals.now.counts ≡ replicate (length sites * length problem.now.costs) 0 }
    requires corner { corner.0 < length problem.now.corners }
    ensures { (spans : Spans) → slice_get problem.now.corners corner.0 ≡ Some spans → IsWorstEnd side problem.now spans no_buffers result }
{
    // by the list of sites a proof learns that counts of 0 are no buffers
    let _sites = problem.graph.sites();
    arrivals.worst(problem, corner, side)
}
