ghost use Rattle.std.specs.Prelude.{◌≡◌, ◌++◌, ◌∷◌, [], List, ℕ, not, IfOk, if◌then◌else◌};
ghost use Rattle.hold_netlist.specs.Names.{is_among};

use hold_base::{Memory, Name};
use hold_netlist::{NameTable, Seed};
use std::alloc::Global;
use std::marker::Model;

/// A set of names, which contracts see in the order in which they were added. Looking up and adding take
/// the same time, however many there are.
#[derive(Drop)]
pub struct NameSet {
    /// Its numbers mean nothing.
    table: NameTable,
}

impl Model for NameSet {
    ghost use Rattle.std.specs.Prelude.{List, ℕ};
    ghost use Rattle.hold_netlist.specs.inner.NameTable.{names_of};

    ghost Value = { List (List ℕ) };

    ghost view = { λ s. names_of s.table };
}

impl NameSet {
    /// A set without names, whose hashes go on from this seed. Takes no memory.
    pub fn new(alloc: Global, seed: Seed) -> NameSet
        ensures { result ≡ [] }
    {
        NameSet {
            table: NameTable::new(alloc, seed),
        }
    }

    /// Whether the name is in the set.
    #[tactic(auto, using(hold_netlist::proofs::NameTableLemmas::is_some_number))]
    pub fn has(&self, name: &[u8]) -> bool
        ensures { result ≡ is_among name.now self.now }
    {
        self.table.find(name).is_some()
    }

    /// Puts a name into the set, where it isn't there yet, and answers whether that was so.
    #[tactic(auto, using(hold_netlist::proofs::NameTableLemmas::is_none_number))]
    pub fn add(&mut self, alloc: Global, name: &[u8]) -> Result<bool, Memory>
        ensures new { IfOk result (λ is_new. is_new ≡ not (is_among name.now self.old)) }
        ensures added { IfOk result (λ is_new. self.new ≡ (if is_new then self.old ++ name.now ∷ [] else self.old)) }
    {
        self.table.add(alloc, name, 0)
    }
}

/// Writes these names behind what the seed is of.
pub fn add_to_seed(seed: &mut Seed, names: &[Name]) {
    for name in names {
        seed.add(name.bytes());
    }
}

/// The seed of these names.
pub fn seed_of(names: &[Name]) -> Seed {
    let mut seed = Seed::new();
    add_to_seed(&mut seed, names);
    seed
}

/// A set of exactly these names, whose hashes go on from this seed.
pub fn set_of(alloc: Global, seed: Seed, names: &[Name]) -> Result<NameSet, Memory>
    ensures { IfOk result (λ set. (name : List ℕ) → is_among name set ≡ is_among name names.now) }
{
    let mut set = NameSet::new(alloc, seed);
    for name in names {
        set.add(alloc, name.bytes())?;
    }
    Ok(set)
}
