//! The ends of arcs, by which they are found.
ghost use Rattle.std.specs.Prelude.{◌≡◌, IfOk};

use crate::cell_times::TypeArc;
use hold_base::{Memory, Name};
use hold_netlist::Seed;
use std::hash::{Hash, Hasher};

/// The two pins of an arc.
#[derive(Debug, Drop, PartialEq, Eq)]
pub struct Ends {
    pub from: Name,
    pub to: Name,
}

impl Hash for Ends {
    ghost use Rattle.std.specs.Prelude.{[], ◌∷◌, bytes_eq};
    ghost use Rattle.std.proofs.lemmas.Bool.{and_parts};
    ghost use Rattle.hold_base.proofs.Bytes.{bytes_eq-same};

    // no name has the space between the two
    ghost hash_input = { λ e. e.from ∷ (32 ∷ []) ∷ e.to ∷ [] };

    ghost respects_eq = { λ x y same. let parts = and_parts (bytes_eq x.from y.from) (bytes_eq x.to y.to) same in (λ i. bytes_eq-same x.from y.from parts.0 i ∷ (32 ∷ []) ∷ bytes_eq-same x.to y.to parts.1 i ∷ []) };

    fn hash<H: Hasher>(&self, state: &mut H) {
        state.write(self.from.bytes());
        state.write(b" ");
        state.write(self.to.bytes());
    }
}

/// The ends of an arc, which share its names.
pub fn ends_of(arc: &TypeArc) -> Result<Ends, Memory>
    ensures { IfOk result (λ ends. ends ≡ record { from = arc.now.from; to = arc.now.to }) }
{
    Ok(Ends {
        from: arc.from.clone()?,
        to: arc.to.clone()?,
    })
}

/// The seed of the ends of all arcs.
pub fn ends_seed(arcs: &[TypeArc]) -> Seed {
    let mut seed = Seed::new();
    for arc in arcs {
        seed.add(arc.from.bytes());
        seed.add(arc.to.bytes());
    }
    seed
}
