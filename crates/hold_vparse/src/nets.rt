ghost use Rattle.std.specs.Prelude.{◌≡◌, IfOk};
ghost use Rattle.hold_netlist.specs.Names.{wire_names};
ghost use Rattle.hold_vparse.specs.inner.Flat.{targets, net_wires, named_idents};
ghost use Rattle.hold_vparse.specs.inner.Index.{place_of};

use crate::index::Index;
use crate::lines::NamedWire;
use hold_base::{Memory, Name};
use hold_netlist::Seed;
use hold_vsyntax::tree::Ident;
use std::alloc::Global;
use std::marker::Model;

/// All nets, with the first of each name. A contract sees the wires.
#[derive(Drop)]
pub(crate) struct Nets<'a> {
    wires: Vec<NamedWire<'a>>,
    index: Index<'a>,
}

impl<'a> Model for Nets<'a> {
    ghost use Rattle.std.specs.Prelude.{◌≡◌, List, map};
    ghost use Rattle.hold_netlist.specs.declared.wire.Wire.{Wire};
    ghost use Rattle.hold_vparse.specs.inner.Flat.{net_wires, named_idents};

    ghost Value = { List Wire };

    ghost view = { λ n. net_wires n.wires.items };

    ghost invariant = { λ n. n.index ≡ named_idents n.wires.items };
}

/// The identifiers of these wires.
fn wire_idents<'a>(alloc: Global, wires: &[NamedWire<'a>]) -> Result<Vec<&'a Ident>, Memory>
    ensures { IfOk result (λ list. targets list.items ≡ named_idents wires.now) }
{
    let mut list = Vec::new(alloc);
    for wire in wires {
        list.push(wire.name)?;
    }
    Ok(list)
}

impl<'a> Nets<'a> {
    /// Takes these wires over.
    pub(crate) fn of(
        alloc: Global,
        seed: Seed,
        wires: Vec<NamedWire<'a>>,
    ) -> Result<Nets<'a>, Memory>
        ensures { IfOk result (λ nets. nets ≡ net_wires wires.entry.items) }
    {
        let idents = wire_idents(alloc, &wires)?;
        let index = Index::of(alloc, seed, idents)?;
        Ok(Nets { wires, index })
    }

    /// Lends the wires.
    pub(crate) fn wires(&self) -> &[NamedWire<'a>]
        ensures { net_wires result.now ≡ self.now }
    {
        self.wires.as_slice()
    }

    /// The place of the first wire of this name.
    pub(crate) fn place(&self, name: &Name) -> Option<u32>
        ensures { result ≡ place_of name.now (wire_names self.now) }
    {
        self.index.place(name)
    }
}
