//! Pins and net bits, by their numbers and as they are said.

use crate::parts::small;
use hold_base::{InstNo, Memory, NetNo, PinNo, Stop};
use hold_netlist::{NetFault, Netlist, put_index};
use std::alloc::Global;

fn said_pin(alloc: Global, netlist: &Netlist, pin: u32) -> Result<Vec<u8>, Memory> {
    let mut out = Vec::new(alloc);
    netlist.put_pin(&mut out, PinNo(pin))?;
    Ok(out)
}

fn said_bit(alloc: Global, netlist: &Netlist, net: u32) -> Result<Vec<u8>, Memory> {
    let mut out = Vec::new(alloc);
    netlist.put_net_bit(&mut out, NetNo(net))?;
    Ok(out)
}

#[test]
fn pins_are_numbered_connections_first(rt: HostRuntime) -> Result<(), Stop<NetFault>> {
    let netlist = small(rt.alloc())?;
    assert_eq!(rt; netlist.pin(PinNo(0)), Some((InstNo(0), 0)));
    assert_eq!(rt; netlist.pin(PinNo(1)), Some((InstNo(0), 1)));
    assert_eq!(rt; netlist.pin(PinNo(2)), None);
    Ok(())
}

#[test]
fn pins_are_said_by_their_names(rt: HostRuntime) -> Result<(), Stop<NetFault>> {
    let alloc = rt.alloc();
    let netlist = small(alloc)?;
    assert_eq!(rt; said_pin(alloc, &netlist, 1)?.as_slice(), b"u/Y".as_slice());
    assert_eq!(rt; said_pin(alloc, &netlist, 2)?.as_slice(), b"a".as_slice());
    assert_eq!(rt;
        said_pin(alloc, &netlist, 3)?.as_slice(),
        b"b[3]".as_slice()
    );
    assert_eq!(rt;
        said_pin(alloc, &netlist, 4)?.as_slice(),
        b"b[2]".as_slice()
    );
    assert_eq!(rt; said_pin(alloc, &netlist, 5)?.as_slice(), b"".as_slice());
    Ok(())
}

#[test]
fn net_bits_are_numbered_from_the_left_bound(rt: HostRuntime) -> Result<(), Stop<NetFault>> {
    let netlist = small(rt.alloc())?;
    assert_eq!(rt; netlist.net_bit(NetNo(0)), Some((0, 0)));
    assert_eq!(rt; netlist.net_bit(NetNo(2)), Some((1, 1)));
    assert_eq!(rt; netlist.net_bit(NetNo(3)), Some((2, 0)));
    assert_eq!(rt; netlist.net_bit(NetNo(4)), None);
    Ok(())
}

#[test]
fn net_bits_are_said_with_nothing_escaped(rt: HostRuntime) -> Result<(), Stop<NetFault>> {
    let alloc = rt.alloc();
    let netlist = small(alloc)?;
    assert_eq!(rt;
        said_bit(alloc, &netlist, 2)?.as_slice(),
        b"b[2]".as_slice()
    );
    assert_eq!(rt; said_bit(alloc, &netlist, 3)?.as_slice(), b"and".as_slice());
    assert_eq!(rt; said_bit(alloc, &netlist, 4)?.as_slice(), b"".as_slice());
    Ok(())
}

#[test]
fn an_index_counts_up_where_the_bounds_do(rt: HostRuntime) -> Result<(), Memory> {
    let mut out = Vec::new(rt.alloc());
    put_index(&mut out, Some((2, 5)), 1)?;
    put_index(&mut out, Some((5, 2)), 1)?;
    put_index(&mut out, None, 0)?;
    assert_eq!(rt; out.as_slice(), b"[3][4]".as_slice());
    Ok(())
}
