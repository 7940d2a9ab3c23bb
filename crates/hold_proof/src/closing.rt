ghost use Rattle.std.specs.Prelude.{◌≡◌, ◌*◌, ◌≤◌, ◌↔◌, length, replicate, pos, IsTrue, List as Items};
ghost use Rattle.hold_base.specs.declared.number.PinNo.{PinNo as Pin};
ghost use Rattle.hold_graph.specs.Boxes.{IsBox};
ghost use Rattle.hold_graph.specs.Problem.{IsValid};
ghost use Rattle.hold_graph.specs.Sites.{AreSites, cost_of};
ghost use Rattle.hold_proof.specs.Closing.{weight_limit, Closes, IsAbove, IsFit};
ghost use Rattle.hold_proof.specs.Room.{room_of};
ghost use Rattle.hold_proof.specs.Values.{IsBeta};
ghost use Rattle.hold_proof.specs.inner.Basis.{IsBasis};
ghost use Rattle.hold_proof.specs.inner.Over.{IsOver};
ghost use Rattle.hold_proof.specs.inner.Walk.{box_at};

use crate::basis::Basis;
use crate::cost::cost_of;
use crate::node::Leaf;
use crate::paths::Over;
use crate::scratch::Scratch;
use crate::settling::settle_leaf;
use crate::weighing::add_leaf;
use crate::wide;
use hold_graph::{Boxed, Listed, Problem};

/// Whether beta is above what the bound asks for at this scale.
fn is_above(scale: u64, below: Option<u64>, beta: i128) -> bool
    requires { scale ≤ weight_limit }
    ensures { IsTrue result ↔ IsAbove scale below beta }
{
    match below {
        Some(bound) => wide::times(i128::from(bound) - 1, scale) < beta,
        None => scale == 0 && beta > 0,
    }
}

/// The least value of a leaf over a box whose lows have this cost. The factors are 0 before and after.
fn beta(factors: &mut Vec<i128>, basis: &Basis<'_>, over: &Over<'_>, cost: u64, leaf: &Leaf) -> i128
    requires basis { IsBasis basis.now }
    requires clear { factors.old.items ≡ replicate (length basis.now.sites.now * length basis.now.problem.now.costs) (pos 0) }
    requires over { IsOver (length factors.old.items) over.now }
    requires costs { over.now.costs.now ≡ basis.now.problem.now.costs }
    requires scale { over.now.scale ≡ leaf.now.scale }
    requires fit { IsFit basis.now.problem.now basis.now.sites.now basis.now.paths.now leaf.now }
    requires cost { cost ≡ cost_of over.now.costs.now over.now.low.now }
    ensures beta { IsBeta basis.now.problem.now basis.now.sites.now basis.now.paths.now leaf.now (box_at over.now.low.now over.now.high.now) result }
    ensures clear { factors.new.items ≡ factors.old.items }
{
    let free = add_leaf(factors, basis, leaf);
    let gaps = settle_leaf(factors, basis, over, leaf);
    wide::times(i128::from(cost), over.scale) + gaps - free
}

/// Whether a leaf closes a box whose lows have this cost.
pub(crate) fn closes_over(
    scratch: &mut Scratch,
    problem: &Problem,
    paths: &[Listed],
    over: &Over<'_>,
    cost: u64,
    below: Option<u64>,
    leaf: &Leaf,
) -> bool
    requires valid { IsValid problem.now }
    requires room { (sites : Items Pin) → AreSites problem.now.graph sites → scratch.old ≡ room_of problem.now sites }
    requires within { (sites : Items Pin) → AreSites problem.now.graph sites → IsBox problem.now sites (box_at over.now.low.now over.now.high.now) }
    requires costs { over.now.costs.now ≡ problem.now.costs }
    requires scale { over.now.scale ≡ leaf.now.scale }
    requires cost { cost ≡ cost_of over.now.costs.now over.now.low.now }
    requires fit { (sites : Items Pin) → AreSites problem.now.graph sites → IsFit problem.now sites paths.now leaf.now }
    ensures closes { (sites : Items Pin) → AreSites problem.now.graph sites →
        IsTrue result ↔ Closes problem.now sites paths.now (record { within = box_at over.now.low.now over.now.high.now; below = below }) leaf.now }
    ensures room { scratch.new ≡ scratch.old }
{
    let _parts = problem.graph.parts();
    let basis = Basis {
        problem,
        sites: problem.graph.sites(),
        launches: &scratch.launches,
        captures: &scratch.captures,
        paths,
    };
    let least = beta(&mut scratch.factors, &basis, over, cost, leaf);
    is_above(leaf.scale, below, least)
}

/// Whether a leaf closes a box: whether its least value there is above what the bound asks for. The scratch's room is that of the
/// problem's leaves. Takes no memory; its work is that of the pins of the leaf's paths, and once that of the variables.
pub fn closes(
    scratch: &mut Scratch,
    problem: &Problem,
    paths: &[Listed],
    within: &Boxed,
    below: Option<u64>,
    leaf: &Leaf,
) -> bool
    requires valid { IsValid problem.now }
    requires room { (sites : Items Pin) → AreSites problem.now.graph sites → scratch.old ≡ room_of problem.now sites }
    requires within { (sites : Items Pin) → AreSites problem.now.graph sites → IsBox problem.now sites within.now }
    requires fit { (sites : Items Pin) → AreSites problem.now.graph sites → IsFit problem.now sites paths.now leaf.now }
    ensures closes { (sites : Items Pin) → AreSites problem.now.graph sites →
        IsTrue result ↔ Closes problem.now sites paths.now (record { within = within.now; below = below }) leaf.now }
    ensures room { scratch.new ≡ scratch.old }
{
    let _parts = problem.graph.parts();
    let _sites = problem.graph.sites();
    let low = within.low.as_slice();
    let costs = problem.costs.as_slice();
    let over = Over {
        costs,
        scale: leaf.scale,
        low,
        high: within.high.as_slice(),
    };
    closes_over(
        scratch,
        problem,
        paths,
        &over,
        cost_of(costs, low),
        below,
        leaf,
    )
}
