//! Names that stand twice, and the parts of what is made where none does.

ghost use Rattle.hold_base.specs.NameBytes.{IsName};

use crate::parts::{name, small, wire};
use hold_base::{Name, Stop};
use hold_netlist::{NetFault, Netlist, is_keyword};
use std::alloc::Global;

/// `module m();` with two wires of these names.
fn two_wires(alloc: Global, first: &[u8], second: &[u8]) -> Result<Netlist, Stop<NetFault>>
    requires first { IsName first.now }
    requires second { IsName second.now }
{
    let wires = Vec::from_array(
        alloc,
        [wire(alloc, first, None)?, wire(alloc, second, None)?],
    )?;
    Netlist::make(
        alloc,
        name(alloc, b"m")?,
        Vec::new(alloc),
        wires,
        Vec::new(alloc),
        Vec::new(alloc),
    )
}

/// The name that stands twice, if that is why there is no netlist.
fn double_name(made: Result<Netlist, Stop<NetFault>>) -> Option<Name> {
    match made {
        Err(Stop::Fault(NetFault::DoubleName(name))) => Some(name),
        _ => None,
    }
}

#[test]
fn a_netlist_has_the_parts_that_it_was_made_of(rt: HostRuntime) -> Result<(), Stop<NetFault>> {
    let netlist = small(rt.alloc())?;
    assert_eq!(rt; netlist.name().bytes(), b"u+1".as_slice());
    assert_eq!(rt; netlist.ports().len(), 2);
    assert_eq!(rt; netlist.wires().len(), 3);
    assert_eq!(rt; netlist.insts().len(), 1);
    assert_eq!(rt; netlist.assigns().len(), 1);
    Ok(())
}

#[test]
fn a_name_that_stands_twice_is_named(rt: HostRuntime) -> Result<(), Stop<NetFault>> {
    let alloc = rt.alloc();
    let _apart = two_wires(alloc, b"a", b"b")?;
    let double = double_name(two_wires(alloc, b"a", b"a"));
    assert!(rt; double == Some(name(alloc, b"a")?));
    Ok(())
}

#[test]
fn keywords_are_told_by_their_bytes(rt: HostRuntime) {
    assert!(rt; is_keyword(b"always"));
    assert!(rt; is_keyword(b"xor"));
    assert!(rt; !is_keyword(b"Always"));
    assert!(rt; !is_keyword(b""));
}
