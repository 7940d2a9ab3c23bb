ghost use Rattle.std.specs.Prelude.{◌≡◌, ◌+◌, ◌<◌, ◌≤◌, ◌↔◌, [], ◌∷◌, false, length, reverse, slice_set, IsTrue, OnOk, IfOk, All};
ghost use Rattle.hold_base.specs.Limits.{cost_limit};
ghost use Rattle.hold_graph.specs.Sites.{cost_of};
ghost use Rattle.hold_graph.specs.Boxes.{IsPlace, lower_half, upper_half};
ghost use Rattle.hold_proof.specs.inner.Changes.{vars_limit};
ghost use Rattle.hold_proof.specs.inner.Walk.{box_at, waiting, boxes_of, IsWalk};

use crate::cost::{changed_cost, cost_of};
use hold_base::{Memory, VarNo};
use std::alloc::Global;

/// What becomes of the box once a tree below it is judged.
#[derive(Clone, Copy, Debug)]
pub(crate) enum Turn {
    /// The lower tree of a split: for the upper one the variable goes from this low to this high.
    Lower { var: VarNo, low: u8, high: u8 },
    /// The upper tree of a split: behind it the variable has this low again.
    Upper { var: VarNo, low: u8 },
}

/// Where one stands in a tree: the box there, and what is to be done on the way back.
#[derive(Drop)]
pub(crate) struct Walk {
    pub low: Vec<u8>,
    pub high: Vec<u8>,
    /// The cost of the lows.
    pub cost: u64,
    /// The splits above, the last one last.
    pub turns: Vec<Turn>,
    /// Whether no tree is left.
    pub ended: bool,
}

/// A walk that stands at the root of a tree, over the box of these lows and highs.
pub(crate) fn walk_from(
    alloc: Global,
    costs: &[u64],
    low: &[u8],
    high: &[u8],
) -> Result<Walk, Memory>
    requires kinds { 0 < length low.now → 0 < length costs.now }
    requires costs { All (λ cost. cost ≤ cost_limit) costs.now }
    requires few { length low.now ≤ vars_limit }
    requires each { length low.now ≡ length high.now }
    ensures walk { IfOk result (IsWalk costs.now (length low.now)) }
    ensures boxes { IfOk result (λ walk. boxes_of walk ≡ box_at low.now high.now ∷ []) }
{
    Ok(Walk {
        low: Vec::from_slice(alloc, low)?,
        high: Vec::from_slice(alloc, high)?,
        cost: cost_of(costs, low),
        turns: Vec::new(alloc),
        ended: false,
    })
}

/// Whether the box can be split there.
pub(crate) fn is_place(low: &[u8], high: &[u8], var: VarNo, at: u8) -> bool
    requires { length low.now ≡ length high.now }
    ensures { IsTrue result ↔ IsPlace var at (box_at low.now high.now) }
{
    let var = var.0 as usize;
    var < low.len() && low[var] <= at && at < high[var]
}

impl Walk {
    /// Goes down to the lower tree of a split.
    pub(crate) fn enter(&mut self, costs: &[u64], var: VarNo, at: u8) -> Result<(), Memory>
        requires walk { IsWalk costs.now (length self.old.low.items) self.old }
        requires left { self.old.ended ≡ false }
        requires place { IsPlace var at (box_at self.old.low.items self.old.high.items) }
        ensures walk { OnOk result (IsWalk costs.now (length self.old.low.items) self.new) }
        ensures boxes { OnOk result (boxes_of self.new ≡ lower_half var at (box_at self.old.low.items self.old.high.items)
            ∷ upper_half var at (box_at self.old.low.items self.old.high.items)
            ∷ waiting self.old.low.items self.old.high.items (reverse self.old.turns.items)) }
    {
        let place = var.0 as usize;
        let high = self.high[place];
        let low = at + 1;
        self.turns.push(Turn::Lower { var, low, high })?;
        self.high[place] = at;
        Ok(())
    }

    /// Changes the low of a variable.
    fn set_low(&mut self, costs: &[u64], var: VarNo, low: u8)
        requires some { 0 < length costs.now }
        requires costs { All (λ cost. cost ≤ cost_limit) costs.now }
        requires few { length self.old.low.items ≤ vars_limit }
        requires there { var.0 < length self.old.low.items }
        requires cost { self.old.cost ≡ cost_of costs.now self.old.low.items }
        ensures cost { self.new.cost ≡ cost_of costs.now self.new.low.items }
        ensures low { self.new.low.items ≡ slice_set self.old.low.items var.0 low }
        ensures high { self.new.high.items ≡ self.old.high.items }
        ensures turns { self.new.turns.items ≡ self.old.turns.items }
        ensures ended { self.new.ended ≡ self.old.ended }
    {
        let place = var.0 as usize;
        self.cost = changed_cost(costs, self.low.as_slice(), self.cost, place, low);
        self.low[place] = low;
    }

    /// Goes from a leaf to the next box, or to the end where none is left.
    pub(crate) fn leave(&mut self, costs: &[u64]) -> Result<(), Memory>
        requires kinds { 0 < length self.old.low.items → 0 < length costs.now }
        requires costs { All (λ cost. cost ≤ cost_limit) costs.now }
        requires few { length self.old.low.items ≤ vars_limit }
        requires walk { IsWalk costs.now (length self.old.low.items) self.old }
        requires left { self.old.ended ≡ false }
        ensures walk { OnOk result (IsWalk costs.now (length self.old.low.items) self.new) }
        ensures boxes { OnOk result (boxes_of self.new ≡ waiting self.old.low.items self.old.high.items (reverse self.old.turns.items)) }
    {
        while let Some(turn) = self.turns.pop() {
            match turn {
                Turn::Lower { var, low, high } => {
                    let old = self.low[var.0 as usize];
                    self.turns.push(Turn::Upper { var, low: old })?;
                    self.high[var.0 as usize] = high;
                    self.set_low(costs, var, low);
                    return Ok(());
                }
                Turn::Upper { var, low } => self.set_low(costs, var, low),
            }
        }
        self.ended = true;
        Ok(())
    }
}
