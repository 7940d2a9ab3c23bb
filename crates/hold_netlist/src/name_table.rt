ghost use Rattle.std.specs.Prelude.{◌≡◌, ◌++◌, ◌∷◌, [], is_none, None, IfOk, OnErr, if◌then◌else◌};
ghost use Rattle.hold_netlist.specs.NameTable.{number_of};

use crate::seed::Seed;
use hold_base::Memory;
use indexmap::IndexMap;
use std::alloc::Global;
use std::marker::Model;

/// A table from names to numbers. Looking up and adding take the same time, however many there are.
#[derive(Drop)]
pub struct NameTable {
    numbers: IndexMap<Vec<u8>, u32, Seed>,
}

impl Model for NameTable {
    ghost use Rattle.std.specs.Prelude.{List, ℕ};
    ghost use Rattle.hold_netlist.specs.inner.NameTable.{pairs_of};

    ghost Value = { List (List ℕ × ℕ) };

    ghost view = { λ t. pairs_of t.numbers.entries };
}

impl NameTable {
    /// A table without names, whose hashes go on from this seed. Takes no memory.
    pub fn new(alloc: Global, seed: Seed) -> NameTable
        ensures { result ≡ [] }
    {
        NameTable {
            numbers: IndexMap::with_hasher(alloc, seed),
        }
    }

    /// The number of a name, where it has one.
    pub fn find(&self, name: &[u8]) -> Option<u32>
        ensures { result ≡ number_of name.now self.now }
    {
        self.numbers.get(name).copied()
    }

    /// Gives a name its number, where it has none yet, and answers whether that was so. A name that has one
    /// takes no memory.
    pub fn add(&mut self, alloc: Global, name: &[u8], number: u32) -> Result<bool, Memory>
        ensures new { IfOk result (λ is_new. is_new ≡ is_none (number_of name.now self.old)) }
        ensures added { IfOk result (λ is_new. self.new ≡ (if is_new then self.old ++ (name.now, number) ∷ [] else self.old)) }
        ensures refused { OnErr result (self.new ≡ self.old) }
        ensures known { OnErr result (number_of name.now self.old ≡ None) }
    {
        if self.numbers.contains_key(name) {
            return Ok(false);
        }
        let key = Vec::from_slice(alloc, name)?;
        self.numbers.insert(key, number)?;
        Ok(true)
    }
}
