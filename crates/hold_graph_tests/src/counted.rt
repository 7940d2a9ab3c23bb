ghost use Rattle.std.specs.Prelude.{◌≡◌, IfOk, length};
ghost use Rattle.hold_graph.specs.Problem.{IsValid};
ghost use Rattle.hold_graph.specs.Sites.{AreCountsOf};

use hold_base::{Memory, VarNo};
use hold_graph::{Counts, Problem};
use std::alloc::Global;

/// Sets a count, where the variable is there and the count isn't above 16.
fn set(counts: &mut Counts, var: u32, n: u8)
    ensures { length counts.new ≡ length counts.old }
{
    if n <= 16 && (var as usize) < counts.as_slice().len() {
        counts.set(VarNo(var), n);
    }
}

/// The empty counts of a problem, with these set one after another, by their variables.
#[tactic(auto, using(crate::proofs::CountLemmas::empty_counts, crate::proofs::CountLemmas::as_many_counts))]
pub fn counts_with(alloc: Global, problem: &Problem, sets: &[(u32, u8)]) -> Result<Counts, Memory>
    requires { IsValid problem.now }
    ensures { IfOk result (AreCountsOf problem.now) }
{
    let mut counts = Counts::empty(alloc, problem)?;
    for (var, n) in sets {
        set(&mut counts, *var, *n);
    }
    Ok(counts)
}

/// A count, where the variable is there.
pub fn count_of(counts: &Counts, var: u32) -> Option<u8> {
    if (var as usize) < counts.as_slice().len() {
        Some(counts.get(VarNo(var)))
    } else {
        None
    }
}
