ghost use Rattle.std.specs.Prelude.{◌≡◌, ◌<◌, ◌↔◌, ℕ, false, length, reverse, IsTrue, IsNone, Some, IfOk, IfSome, IfNone, List as Items, All};
ghost use Rattle.hold_base.specs.declared.number.PinNo.{PinNo as Pin};
ghost use Rattle.hold_graph.specs.Boxes.{IsBox, IsPoint};
ghost use Rattle.hold_graph.specs.declared.problem.Listed.{Listed as Path};
ghost use Rattle.hold_graph.specs.Problem.{IsValid};
ghost use Rattle.hold_graph.specs.Sites.{AreSites, Meets, cost_of};
ghost use Rattle.hold_proof.specs.Closing.{Closes, IsOfProblem};
ghost use Rattle.hold_proof.specs.Flaws.{IsFineNode, IsFirstFlaw, IsFirstNot, IsProof};
ghost use Rattle.hold_proof.specs.InForce.{IsShown};
ghost use Rattle.hold_proof.specs.Room.{room_of};
ghost use Rattle.hold_proof.specs.Tree.{ProofTree, preorder};
ghost use Rattle.hold_proof.specs.declared.flaw.TreeFlaw.{TreeFlaw as Flaw};
ghost use Rattle.hold_proof.specs.inner.Judging.{boxes_past, flaw_of, forced};
ghost use Rattle.hold_proof.specs.inner.Walk.{box_at, boxes_of, waiting, IsWalk};

use crate::closing::closes_over;
use crate::fitness::is_fit;
use crate::flaw::TreeFlaw;
use crate::node::{Leaf, Node};
use crate::paths::Over;
use crate::scratch::Scratch;
use crate::shape::Shape;
use crate::walk::{Walk, is_place, walk_from};
use hold_base::Memory;
use hold_graph::{Boxed, Listed, Problem};
use std::alloc::Global;

/// What the leaves of a tree are to show: of which problem, by which listed paths, and for which bound.
#[derive(Clone, Copy)]
struct Asked<'a> {
    problem: &'a Problem,
    paths: &'a [Listed],
    below: Option<u64>,
}

/// Whether the listed path is a checked path, and the problem has its corner.
fn is_of_problem(problem: &Problem, path: &Listed) -> bool
    ensures { IsTrue result ↔ IsOfProblem problem.now path.now }
{
    (path.corner.0 as usize) < problem.corners.as_slice().len()
        && problem.graph.is_checked(path.pins.as_slice())
}

/// The number of the first listed path that isn't of the problem.
fn first_stranger(problem: &Problem, paths: &[Listed]) -> Option<u64>
    ensures some { IfSome result (λ number. (path : Path) × IsFirstNot (IsOfProblem problem.now) paths.now number path) }
    ensures none { IfNone result (All (IsOfProblem problem.now) paths.now) }
{
    for (number, path) in paths.iter().enumerate() {
        if !is_of_problem(problem, path) {
            return Some(number as u64);
        }
    }
    None
}

/// What a node that isn't fine is called.
fn flaw_at(node: &Node, number: u64) -> TreeFlaw
    ensures { result ≡ flaw_of node.now number }
{
    match node {
        Node::Leaf(_) => TreeFlaw::OpenLeaf(number),
        Node::Split { .. } => TreeFlaw::BadSplit(number),
    }
}

/// Whether a leaf closes the box where one stands.
fn is_closed(scratch: &mut Scratch, asked: &Asked<'_>, walk: &Walk, leaf: &Leaf) -> bool
    requires valid { IsValid asked.now.problem.now }
    requires room { (sites : Items Pin) → AreSites asked.now.problem.now.graph sites → scratch.old ≡ room_of asked.now.problem.now sites }
    requires paths { All (IsOfProblem asked.now.problem.now) asked.now.paths.now }
    requires within { (sites : Items Pin) → AreSites asked.now.problem.now.graph sites → IsBox asked.now.problem.now sites (box_at walk.now.low.items walk.now.high.items) }
    requires cost { walk.now.cost ≡ cost_of asked.now.problem.now.costs walk.now.low.items }
    ensures closes { (sites : Items Pin) → AreSites asked.now.problem.now.graph sites →
        IsTrue result ↔ Closes asked.now.problem.now sites asked.now.paths.now (forced asked.now.below (box_at walk.now.low.items walk.now.high.items)) leaf.now }
    ensures room { scratch.new ≡ scratch.old }
{
    if !is_fit(asked.problem, asked.paths, leaf) {
        return false;
    }
    let over = Over {
        costs: asked.problem.costs.as_slice(),
        scale: leaf.scale,
        low: walk.low.as_slice(),
        high: walk.high.as_slice(),
    };
    closes_over(
        scratch,
        asked.problem,
        asked.paths,
        &over,
        walk.cost,
        asked.below,
        leaf,
    )
}

/// Goes past a node that is fine where one stands, and answers whether it is.
fn passes(
    walk: &mut Walk,
    scratch: &mut Scratch,
    asked: &Asked<'_>,
    node: &Node,
) -> Result<bool, Memory>
    requires valid { IsValid asked.now.problem.now }
    requires room { (sites : Items Pin) → AreSites asked.now.problem.now.graph sites → scratch.old ≡ room_of asked.now.problem.now sites }
    requires paths { All (IsOfProblem asked.now.problem.now) asked.now.paths.now }
    requires walk { IsWalk asked.now.problem.now.costs (length walk.old.low.items) walk.old }
    requires left { walk.old.ended ≡ false }
    requires within { (sites : Items Pin) → AreSites asked.now.problem.now.graph sites → IsBox asked.now.problem.now sites (box_at walk.old.low.items walk.old.high.items) }
    ensures fine { IfOk result (λ fine. (sites : Items Pin) → AreSites asked.now.problem.now.graph sites →
        IsTrue fine ↔ IsFineNode asked.now.problem.now sites asked.now.paths.now node.now (forced asked.now.below (box_at walk.old.low.items walk.old.high.items))) }
    ensures walk { IfOk result (λ fine. IsTrue fine → IsWalk asked.now.problem.now.costs (length walk.old.low.items) walk.new) }
    ensures boxes { IfOk result (λ fine. IsTrue fine →
        boxes_of walk.new ≡ boxes_past node.now (box_at walk.old.low.items walk.old.high.items) (waiting walk.old.low.items walk.old.high.items (reverse walk.old.turns.items))) }
    ensures room { scratch.new ≡ scratch.old }
{
    let _parts = asked.problem.graph.parts();
    let _sites = asked.problem.graph.sites();
    let costs = asked.problem.costs.as_slice();
    match node {
        Node::Leaf(leaf) => {
            if !is_closed(scratch, asked, walk, leaf) {
                return Ok(false);
            }
            walk.leave(costs)?;
        }
        Node::Split { var, at } => {
            if !is_place(walk.low.as_slice(), walk.high.as_slice(), *var, *at) {
                return Ok(false);
            }
            walk.enter(costs, *var, *at)?;
        }
    }
    Ok(true)
}

/// The flaw of the first node that isn't fine, if the listed paths are of the problem.
fn first_bad_node(
    alloc: Global,
    asked: &Asked<'_>,
    within: &Boxed,
    tree: &Shape,
) -> Result<Option<TreeFlaw>, Memory>
    requires valid { IsValid asked.now.problem.now }
    requires within { (sites : Items Pin) → AreSites asked.now.problem.now.graph sites → IsBox asked.now.problem.now sites within.now }
    requires paths { All (IsOfProblem asked.now.problem.now) asked.now.paths.now }
    ensures none { IfOk result (λ found. IfNone found ((sites : Items Pin) → AreSites asked.now.problem.now.graph sites →
        IsProof asked.now.problem.now sites asked.now.paths.now (forced asked.now.below within.now) tree.now)) }
    ensures some { IfOk result (λ found. IfSome found (λ flaw. (sites : Items Pin) → AreSites asked.now.problem.now.graph sites →
        IsFirstFlaw asked.now.problem.now sites asked.now.paths.now (forced asked.now.below within.now) tree.now flaw)) }
{
    let _parts = asked.problem.graph.parts();
    let _sites = asked.problem.graph.sites();
    let costs = asked.problem.costs.as_slice();
    let low = within.low.as_slice();
    let high = within.high.as_slice();
    let mut scratch = Scratch::make(alloc, asked.problem)?;
    let mut walk = walk_from(alloc, costs, low, high)?;
    for (number, node) in tree.nodes().iter().enumerate() {
        if !passes(&mut walk, &mut scratch, asked, node)? {
            return Ok(Some(flaw_at(node, number as u64)));
        }
    }
    Ok(None)
}

/// Judges a tree over a box of counts: the first flaw of the listed paths and the tree, None where they are a proof that each buffering
/// in the box that meets costs at least the bound, and without a bound that none meets. A leaf names listed paths, and sites by their
/// places among those of the problem. Its work is that of the nodes, of the pins of their leaves' paths, and once that of the variables.
pub fn judge(
    alloc: Global,
    problem: &Problem,
    within: &Boxed,
    below: Option<u64>,
    paths: &[Listed],
    tree: &Shape,
) -> Result<Option<TreeFlaw>, Memory>
    requires valid { IsValid problem.now }
    requires within { (sites : Items Pin) → AreSites problem.now.graph sites → IsBox problem.now sites within.now }
    ensures none { IfOk result (λ found. (sites : Items Pin) → AreSites problem.now.graph sites →
        IsNone found ↔ IsProof problem.now sites paths.now (record { within = within.now; below = below }) tree.now) }
    ensures flaw { IfOk result (λ found. (sites : Items Pin) (flaw : Flaw) → AreSites problem.now.graph sites →
        (found ≡ Some flaw) ↔ IsFirstFlaw problem.now sites paths.now (record { within = within.now; below = below }) tree.now flaw) }
    ensures sound { IfOk result (λ found. IsNone found → (sites : Items Pin) (counts : Items ℕ) → Meets problem.now sites counts →
        IsPoint within.now counts → IsShown below (cost_of problem.now.costs counts)) }
{
    if let Some(number) = first_stranger(problem, paths) {
        return Ok(Some(TreeFlaw::NotPath(number)));
    }
    let asked = Asked {
        problem,
        paths,
        below,
    };
    first_bad_node(alloc, &asked, within, tree)
}
