ghost use Rattle.std.specs.Prelude.{◌≡◌, ℕ, ◌*◌, ◌<◌, ◌≤◌, ◌^◌, IfOk, All, List as Items, length, replicate, slice_index, slice_set};
ghost use Rattle.hold_base.specs.Limits.{chain_limit};
ghost use Rattle.hold_base.specs.declared.number.PinNo.{PinNo as Pin};
ghost use Rattle.hold_graph.specs.Problem.{IsValid};
ghost use Rattle.hold_graph.specs.Sites.{AreSites, AreCountsOf};

use crate::problem::Problem;
use hold_base::{Memory, VarNo};
use std::alloc::Global;
use std::marker::Model;

/// A count from 0 to 16 for each variable. A contract sees the list of the counts.
#[derive(Drop)]
pub struct Counts {
    counts: Vec<u8>,
}

impl Model for Counts {
    ghost use Rattle.std.specs.Prelude.{ℕ, List, ◌≤◌, All};
    ghost use Rattle.hold_base.specs.Limits.{chain_limit};

    ghost Value = { List ℕ };

    ghost view = { λ c. c.counts.items };

    ghost invariant = { λ c. All (λ count. count ≤ chain_limit) c.counts.items };
}

impl Counts {
    /// No buffer anywhere.
    pub fn empty(alloc: Global, problem: &Problem) -> Result<Counts, Memory>
        requires { IsValid problem.now }
        ensures { IfOk result (λ counts. (sites : Items Pin) → AreSites problem.now.graph sites →
            counts ≡ replicate (length sites * length problem.now.costs) 0) }
    {
        let counts = vec![in alloc; 0u8; variable_count(problem)]?;
        Ok(Counts { counts })
    }

    /// The count of the variable.
    pub fn get(&self, var: VarNo) -> u8
        requires { var.0 < length self.now }
        ensures { result ≡ slice_index self.now var.0 }
    {
        self.counts[var.0 as usize]
    }

    /// Sets the count of the variable.
    pub fn set(&mut self, var: VarNo, n: u8)
        requires there { var.0 < length self.old }
        requires most { n ≤ chain_limit }
        ensures { self.new ≡ slice_set self.old var.0 n }
    {
        self.counts[var.0 as usize] = n;
    }

    /// Lends the counts in the order of variables.
    pub fn as_slice(&self) -> &[u8]
        ensures same { result.now ≡ self.now }
        ensures most { All (λ count. count ≤ chain_limit) self.now }
    {
        self.counts.as_slice()
    }
}

/// How many variables the problem has, one for each site and kind.
pub(crate) fn variable_count(problem: &Problem) -> usize
    requires { IsValid problem.now }
    ensures sites { (sites : Items Pin) → AreSites problem.now.graph sites → result ≡ length sites * length problem.now.costs }
    ensures counts { (counts : Items ℕ) → AreCountsOf problem.now counts → length counts ≡ result }
    ensures few { result ≤ 2 ^ 23 }
    ensures kinds { 0 < result → 0 < length problem.now.costs }
{
    problem.graph.site_count() * problem.costs.as_slice().len()
}
