ghost use Rattle.std.specs.Prelude.{◌≡◌, [], map, flat_map, IfOk};
ghost use Rattle.hold_vsyntax.specs.declared.tree.Connection.{Connection as Connected};
ghost use Rattle.hold_vparse.specs.BitFaults.{misfit_tied, misfit_instance, misfit_named};
ghost use Rattle.hold_vparse.specs.Declares.{source, pin, inst, constant};
ghost use Rattle.hold_vparse.specs.inner.Flat.{seen_instances};

use crate::layout::Layout;
use hold_base::{List, Memory, NetNo};
use hold_netlist::{Inst, Pin, Source};
use hold_vsyntax::tree::{Connection, Ident, Instance, Tied};
use std::alloc::Global;

/// The source of a constant.
pub(crate) fn constant_source(value: bool) -> Source
    ensures { result ≡ constant value }
{
    if value { Source::One } else { Source::Zero }
}

/// What a pin is tied to.
fn source_of(layout: &Layout<'_>, tied: &Tied) -> Source
    requires { misfit_tied layout.now.wires.now tied.now ≡ [] }
    ensures { result ≡ source layout.now.wires.now tied.now }
{
    match tied {
        Tied::Open => Source::Empty,
        Tied::Net(name) => Source::Net(NetNo(layout.first_bit(&name.name))),
        Tied::Bit(name, index) => Source::Net(NetNo(layout.bit(&name.name, index))),
        Tied::Constant(value) => constant_source(*value),
    }
}

/// A connection of a netlist.
fn pin_of(layout: &Layout<'_>, connection: &Connection) -> Result<Pin, Memory>
    requires { misfit_tied layout.now.wires.now connection.now.tied ≡ [] }
    ensures { IfOk result (λ made. made ≡ pin layout.now.wires.now connection.now) }
{
    let source = source_of(layout, &connection.tied);
    let name = connection.pin.name.clone()?;
    Ok(Pin { name, source })
}

/// The connections of an instance.
fn pins_of(
    alloc: Global,
    layout: &Layout<'_>,
    connections: &[Connection],
) -> Result<Vec<Pin>, Memory>
    requires { flat_map (λ (c : Connected). misfit_tied layout.now.wires.now c.tied) connections.now ≡ [] }
    ensures { IfOk result (λ list. list.items ≡ map (pin layout.now.wires.now) connections.now) }
{
    let mut list = Vec::new(alloc);
    for connection in connections {
        list.push(pin_of(layout, connection)?)?;
    }
    Ok(list)
}

/// An instance of a netlist. It shares the bytes of its type's name with the others of its statement.
fn inst_of(
    alloc: Global,
    layout: &Layout<'_>,
    kind: &Ident,
    instance: &Instance,
) -> Result<Inst, Memory>
    requires { misfit_instance layout.now.wires.now instance.now ≡ [] }
    ensures { IfOk result (λ made. made ≡ inst layout.now.wires.now (kind.now, instance.now)) }
{
    let name = instance.name.name.clone()?;
    let kind = kind.name.clone()?;
    let pins = pins_of(alloc, layout, instance.connections.as_slice())?;
    Ok(Inst {
        name,
        kind,
        pins: List::from_vec(pins),
    })
}

/// The instances of a netlist.
pub(crate) fn inst_list(
    alloc: Global,
    layout: &Layout<'_>,
    instances: &[(&Ident, &Instance)],
) -> Result<Vec<Inst>, Memory>
    requires { flat_map (misfit_named layout.now.wires.now) (seen_instances instances.now) ≡ [] }
    ensures { IfOk result (λ list. list.items ≡ map (inst layout.now.wires.now) (seen_instances instances.now)) }
{
    let mut list = Vec::new(alloc);
    for named in instances {
        list.push(inst_of(alloc, layout, named.0, named.1)?)?;
    }
    Ok(list)
}
