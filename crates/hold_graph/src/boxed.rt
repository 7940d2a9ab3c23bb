ghost use Rattle.std.specs.Prelude.{◌≡◌, IfOk, List as Items};
ghost use Rattle.hold_base.specs.declared.number.PinNo.{PinNo as Pin};
ghost use Rattle.hold_graph.specs.Problem.{IsValid};
ghost use Rattle.hold_graph.specs.Sites.{AreSites};
ghost use Rattle.hold_graph.specs.Boxes.{root_box};

use crate::counts::variable_count;
use crate::problem::Problem;
use hold_base::{List, Memory};
use std::alloc::Global;

/// A box of counts: the least and the greatest count of each variable.
#[derive(Clone, Debug, Drop, PartialEq, Eq)]
pub struct Boxed {
    pub low: List<u8>,
    pub high: List<u8>,
}

impl Boxed {
    /// The box of all counts, from 0 to the chain limit for each variable.
    pub fn root(alloc: Global, problem: &Problem) -> Result<Boxed, Memory>
        requires { IsValid problem.now }
        ensures { IfOk result (λ whole. (sites : Items Pin) → AreSites problem.now.graph sites → whole ≡ root_box problem.now sites) }
    {
        let variables = variable_count(problem);
        let low = vec![in alloc; 0u8; variables]?;
        let high = vec![in alloc; problem.max_chain; variables]?;
        Ok(Boxed {
            low: List::from_vec(low),
            high: List::from_vec(high),
        })
    }
}
