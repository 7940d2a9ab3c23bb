ghost use Rattle.std.specs.Prelude.{◌≡◌, ◌≤◌};
ghost use Rattle.hold_base.specs.Limits.{pins_limit};
ghost use Rattle.hold_netlist.specs.Bits.{bits_of, width_of};
ghost use Rattle.hold_netlist.specs.Pins.{connection_count, pins_of, port_bits};

use hold_netlist::{Inst, Netlist, Wire};

/// How many bits a wire has.
pub(crate) fn width(wire: &Wire) -> u64
    ensures width { result ≡ width_of wire.now }
    ensures small { result ≤ 4294967296 }
{
    match wire.range {
        None => 1,
        Some((left, right)) => u64::from(left.abs_diff(right)) + 1,
    }
}

/// How many bits the wires have.
fn bit_count(wires: &[Wire]) -> u64
    requires { bits_of wires.now ≤ pins_limit }
    ensures { result ≡ bits_of wires.now }
{
    let mut bits = 0;
    for wire in wires {
        bits += width(wire);
    }
    bits
}

/// How many connections the instances have.
pub(crate) fn connection_count(insts: &[Inst]) -> u64
    requires { connection_count insts.now ≤ pins_limit }
    ensures { result ≡ connection_count insts.now }
{
    let mut connections = 0;
    for inst in insts {
        connections += inst.pins.as_slice().len() as u64;
    }
    connections
}

/// How many bits the ports have, which are the first wires.
fn port_bits(netlist: &Netlist) -> u64
    ensures { result ≡ port_bits netlist.now }
{
    netlist.know_valid();
    let (port_wires, _) = netlist.wires().split_at(netlist.ports().len());
    bit_count(port_wires)
}

/// How many pins the netlist has.
pub(crate) fn pin_count(netlist: &Netlist) -> u32
    ensures { result ≡ pins_of netlist.now }
{
    netlist.know_valid();
    (connection_count(netlist.insts()) + port_bits(netlist)) as u32
}
