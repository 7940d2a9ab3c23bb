//! A small netlist, and its parts.

ghost use Rattle.std.specs.Prelude.{◌≡◌, None, IfOk};
ghost use Rattle.hold_base.specs.NameBytes.{IsName};

use hold_base::{List, Name, NetNo, Stop};
use hold_netlist::{Assign, Direction, Inst, NetFault, Netlist, Pin, Port, Source, Wire};
use std::alloc::Global;

pub(crate) fn name(alloc: Global, text: &[u8]) -> Result<Name, Stop<NetFault>>
    requires { IsName text.now }
    ensures { IfOk result (λ name. name ≡ text.now) }
{
    Ok(Name::from_bytes(alloc, text)?)
}

pub(crate) fn port(alloc: Global, text: &[u8], direction: Direction) -> Result<Port, Stop<NetFault>>
    requires { IsName text.now }
    ensures { IfOk result (λ port. port ≡ record { name = text.now; direction = direction }) }
{
    Ok(Port {
        name: name(alloc, text)?,
        direction,
    })
}

pub(crate) fn wire(
    alloc: Global,
    text: &[u8],
    range: Option<(u32, u32)>,
) -> Result<Wire, Stop<NetFault>>
    requires { IsName text.now }
    ensures { IfOk result (λ wire. wire ≡ record { name = text.now; range = range }) }
{
    Ok(Wire {
        name: name(alloc, text)?,
        range,
    })
}

/// A connection of the pin of this name to a net.
pub(crate) fn pin(alloc: Global, text: &[u8], net: u32) -> Result<Pin, Stop<NetFault>>
    requires { IsName text.now }
    ensures { IfOk result (λ pin. pin ≡ record { name = text.now; source = Source.Net (record { 0 = net }) }) }
{
    Ok(Pin {
        name: name(alloc, text)?,
        source: Source::Net(NetNo(net)),
    })
}

/// A scalar input `a`, an output `b` of the bits 3 and 2, a wire that has a keyword for its name, an inverter `u` from
/// `a` to `b[3]`, and that wire assigned to `b[2]`.
pub(crate) fn small(alloc: Global) -> Result<Netlist, Stop<NetFault>> {
    let ports = Vec::from_array(
        alloc,
        [
            port(alloc, b"a", Direction::Input)?,
            port(alloc, b"b", Direction::Output)?,
        ],
    )?;
    let wires = Vec::from_array(
        alloc,
        [
            wire(alloc, b"a", None)?,
            wire(alloc, b"b", Some((3, 2)))?,
            wire(alloc, b"and", None)?,
        ],
    )?;
    let pins = Vec::from_array(alloc, [pin(alloc, b"A", 0)?, pin(alloc, b"Y", 1)?])?;
    let insts = Vec::from_array(
        alloc,
        [Inst {
            name: name(alloc, b"u")?,
            kind: name(alloc, b"INV")?,
            pins: List::from_vec(pins),
        }],
    )?;
    let assigns = Vec::from_array(
        alloc,
        [Assign {
            left: NetNo(2),
            right: Source::Net(NetNo(3)),
        }],
    )?;
    Netlist::make(alloc, name(alloc, b"u+1")?, ports, wires, insts, assigns)
}
