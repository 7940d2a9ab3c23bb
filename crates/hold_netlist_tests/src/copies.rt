//! Copies of netlists and of their parts.

use crate::parts::{name, pin, port, small, wire};
use hold_base::{List, PinNo, Stop};
use hold_netlist::{Direction, Inst, Kind, NetFault};

#[test]
fn a_copy_of_a_netlist_has_the_same_parts(rt: HostRuntime) -> Result<(), Stop<NetFault>> {
    let netlist = small(rt.alloc())?;
    let copy = netlist.clone()?;
    assert!(rt; netlist.same(&copy));
    assert_eq!(rt; copy.pin(PinNo(2)), None);
    Ok(())
}

#[test]
fn copies_of_a_port_and_a_wire_are_equal(rt: HostRuntime) -> Result<(), Stop<NetFault>> {
    let alloc = rt.alloc();
    let port = port(alloc, b"a", Direction::Input)?;
    let wire = wire(alloc, b"a", Some((0, 1)))?;
    assert!(rt; port.clone()? == port);
    assert!(rt; wire.clone()? == wire);
    Ok(())
}

#[test]
fn a_copy_of_an_instance_has_its_pins(rt: HostRuntime) -> Result<(), Stop<NetFault>> {
    let alloc = rt.alloc();
    let inst = Inst {
        name: name(alloc, b"u")?,
        kind: name(alloc, b"INV")?,
        pins: List::from_vec(Vec::from_array(alloc, [pin(alloc, b"A", 0)?])?),
    };
    assert!(rt; inst.clone()?.pins == inst.pins);
    Ok(())
}

#[test]
fn a_copy_of_a_kind_has_its_cell(rt: HostRuntime) -> Result<(), Stop<NetFault>> {
    let alloc = rt.alloc();
    let kind = Kind {
        cell: name(alloc, b"BUF")?,
        input: name(alloc, b"A")?,
        output: name(alloc, b"Y")?,
        cost: 3,
        spans: List::from_vec(Vec::new(alloc)),
    };
    assert!(rt; kind.clone()?.cell == kind.cell);
    Ok(())
}
