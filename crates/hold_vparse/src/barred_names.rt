ghost use Rattle.std.specs.Prelude.{◌≡◌, bytes_eq, if◌then◌else◌, OnOk, List, ℕ};
ghost use Rattle.hold_vparse.specs.inner.Barred.{none_barred, barred_in};

use crate::barred::Barred;
use hold_base::{Memory, Name};
use hold_netlist::Seed;
use indexmap::IndexMap;
use std::alloc::Global;

/// The roles that are barred to each name. Looking up and putting take the same time, however many names there are.
#[derive(Drop)]
pub(crate) struct BarredNames {
    roles: IndexMap<Vec<u8>, Barred, Seed>,
}

impl BarredNames {
    /// No role is barred to any name. Takes no memory.
    pub(crate) fn new(alloc: Global, seed: Seed) -> BarredNames
        ensures { (name : List ℕ) → barred_in result name ≡ none_barred }
    {
        BarredNames {
            roles: IndexMap::with_hasher(alloc, seed),
        }
    }

    /// The roles that are barred to a name.
    pub(crate) fn find(&self, name: &Name) -> Barred
        ensures { result ≡ barred_in self.now name.now }
    {
        match self.roles.get(name.bytes()) {
            Some(barred) => *barred,
            None => Barred::none(),
        }
    }

    /// Bars these roles to a name, and no others.
    pub(crate) fn put(&mut self, alloc: Global, name: &Name, barred: Barred) -> Result<(), Memory>
        ensures { OnOk result ((other : List ℕ) → barred_in self.new other ≡ (if bytes_eq other name.now then barred else barred_in self.old other)) }
    {
        let key = Vec::from_slice(alloc, name.bytes())?;
        self.roles.insert(key, barred)?;
        Ok(())
    }
}
