ghost use Rattle.std.specs.Prelude.{◌≡◌, IfOk, List as Items};
ghost use Rattle.hold_base.specs.declared.number.PinNo.{PinNo as Pin};
ghost use Rattle.hold_graph.specs.Problem.{IsValid};
ghost use Rattle.hold_graph.specs.Sites.{AreSites};
ghost use Rattle.hold_proof.specs.Room.{room_of};

use crate::places::{Places, places_of};
use hold_base::Memory;
use hold_graph::Problem;
use std::alloc::Global;
use std::marker::Model;

/// Room for what `closes` works on, so that it takes no memory. A contract sees what there is room for.
#[derive(Drop)]
pub struct Scratch {
    /// By variable, 0 between calls.
    pub(crate) factors: Vec<i128>,
    pub(crate) launches: Places,
    pub(crate) captures: Places,
}

impl Model for Scratch {
    ghost use Rattle.std.specs.Prelude.{◌≡◌, length, replicate, pos};
    ghost use Rattle.hold_proof.specs.Room.{Room};
    ghost use Rattle.hold_proof.specs.inner.Places.{ArePlaces};

    ghost Value = { Room };

    ghost view = { λ s. record {
      vars = length s.factors.items;
      pins = length s.launches.first.items;
      launches = s.launches.listed.items;
      captures = s.captures.listed.items;
    } };

    ghost invariant = { λ s. (s.factors.items ≡ replicate (length s.factors.items) (pos 0))
        × ArePlaces s.launches
        × ArePlaces s.captures
        × (length s.captures.first.items ≡ length s.launches.first.items) };
}

impl Scratch {
    /// Room for the leaves of this problem.
    pub fn make(alloc: Global, problem: &Problem) -> Result<Scratch, Memory>
        requires { IsValid problem.now }
        ensures { IfOk result (λ scratch. (sites : Items Pin) → AreSites problem.now.graph sites → scratch ≡ room_of problem.now sites) }
    {
        let parts = problem.graph.parts();
        let variables = problem.graph.sites().len() * problem.costs.as_slice().len();
        let factors = vec![in alloc; 0i128; variables]?;
        let launches = places_of(alloc, parts.pins, parts.launches.as_slice())?;
        let captures = places_of(alloc, parts.pins, parts.captures.as_slice())?;
        Ok(Scratch {
            factors,
            launches,
            captures,
        })
    }
}
