ghost use Rattle.std.specs.Prelude.{◌≡◌, IfOk};
ghost use Rattle.hold_netlist.specs.Names.{is_among};
ghost use Rattle.hold_vparse.specs.inner.Flat.{targets};
ghost use Rattle.hold_vparse.specs.inner.Index.{place_of, IsIndex};
ghost use Rattle.hold_vparse.specs.Nets.{names};

use hold_base::{Memory, Name};
use hold_netlist::{NameTable, Seed};
use hold_vsyntax::tree::Ident;
use std::alloc::Global;
use std::marker::Model;

/// A list of identifiers with the first place of each name in it.
#[derive(Drop)]
pub(crate) struct Index<'a> {
    idents: Vec<&'a Ident>,
    places: NameTable,
}

impl<'a> Model for Index<'a> {
    ghost use Rattle.std.specs.Prelude.{List};
    ghost use Rattle.hold_vsyntax.specs.declared.tree.Ident.{Ident as Item};
    ghost use Rattle.hold_vparse.specs.inner.Flat.{targets};
    ghost use Rattle.hold_vparse.specs.inner.Index.{IsIndex};
    ghost use Rattle.hold_vparse.specs.Nets.{names};

    ghost Value = { List Item };

    ghost view = { λ i. targets i.idents.items };

    ghost invariant = { λ i. IsIndex i.places (names (targets i.idents.items)) };
}

/// The first place of each name. More of them than a table can number are want of memory.
fn places_of(alloc: Global, seed: Seed, idents: &[&Ident]) -> Result<NameTable, Memory>
    ensures { IfOk result (λ table. IsIndex table (names (targets idents.now))) }
{
    let mut table = NameTable::new(alloc, seed);
    let mut place = 0u32;
    for ident in idents {
        table.add(alloc, ident.name.bytes(), place)?;
        let Some(next) = place.checked_add(1) else {
            return Err(Memory);
        };
        place = next;
    }
    Ok(table)
}

impl<'a> Index<'a> {
    /// The index of these identifiers, which are taken over.
    pub(crate) fn of(alloc: Global, seed: Seed, idents: Vec<&'a Ident>) -> Result<Index<'a>, Memory>
        ensures { IfOk result (λ index. index ≡ targets idents.entry.items) }
    {
        let places = places_of(alloc, seed, &idents)?;
        Ok(Index { idents, places })
    }

    /// The place of the first identifier of this name.
    pub(crate) fn place(&self, name: &Name) -> Option<u32>
        ensures { result ≡ place_of name.now (names self.now) }
    {
        self.places.find(name.bytes())
    }

    /// Whether an identifier has this name.
    pub(crate) fn has(&self, name: &Name) -> bool
        ensures { result ≡ is_among name.now (names self.now) }
    {
        self.places.find(name.bytes()).is_some()
    }
}
