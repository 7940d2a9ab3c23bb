//! The parts of the netlist of one text.

use hold_base::NetNo;
use hold_netlist::{Assign, Direction, Inst, Netlist, Pin, Port, Source, Wire};
use hold_vparse::read;
use hold_vround::know_reads_back;

/// The wires have the bits `y` 0, `a[2]` 1, `a[1]` 2, `v[0]` 3, `v[1]` 4 and `n` 5.
static TEXT: &'static [u8] = b"module m(y, a);
  input [2:1] a;
  output y;
  wire [0:1] v;
  assign v = a, v[1] = 1'b0;
  INV u(.A(v[1]), .Y(n), .B(), .C(1'b1));
endmodule";

static PORTS: [(&'static [u8], Direction); 2] = [
    (b"y", Direction::Output),
    (b"a", Direction::Input),
];

static WIRES: [(&'static [u8], Option<(u32, u32)>); 4] = [
    (b"y", None),
    (b"a", Some((2, 1))),
    (b"v", Some((0, 1))),
    (b"n", None),
];

static ASSIGNS: [Assign; 3] = [
    Assign {
        left: NetNo(3),
        right: Source::Net(NetNo(1)),
    },
    Assign {
        left: NetNo(4),
        right: Source::Net(NetNo(2)),
    },
    Assign {
        left: NetNo(4),
        right: Source::Zero,
    },
];

static PINS: [(&'static [u8], Source); 4] = [
    (b"A", Source::Net(NetNo(4))),
    (b"Y", Source::Net(NetNo(5))),
    (b"B", Source::Empty),
    (b"C", Source::One),
];

fn has_ports(ports: &[Port]) -> bool {
    for ((name, direction), port) in PORTS.iter().zip(ports) {
        if port.name.bytes() != *name || port.direction != *direction {
            return false;
        }
    }
    ports.len() == PORTS.len()
}

fn has_wires(wires: &[Wire]) -> bool {
    for ((name, range), wire) in WIRES.iter().zip(wires) {
        if wire.name.bytes() != *name || wire.range != *range {
            return false;
        }
    }
    wires.len() == WIRES.len()
}

fn has_pins(pins: &[Pin]) -> bool {
    for ((name, source), pin) in PINS.iter().zip(pins) {
        if pin.name.bytes() != *name || pin.source != *source {
            return false;
        }
    }
    pins.len() == PINS.len()
}

fn has_instance(insts: &[Inst]) -> bool {
    match insts {
        [inst] => {
            inst.name.bytes() == b"u".as_slice()
                && inst.kind.bytes() == b"INV".as_slice()
                && has_pins(inst.pins.as_slice())
        }
        _ => false,
    }
}

fn has_parts(netlist: &Netlist) -> bool {
    netlist.name().bytes() == b"m".as_slice()
        && has_ports(netlist.ports())
        && has_wires(netlist.wires())
        && has_instance(netlist.insts())
        && netlist.assigns() == ASSIGNS.as_slice()
}

#[test]
fn a_netlist_has_its_parts(rt: HostRuntime) {
    match read(rt.alloc(), TEXT) {
        Ok(netlist) => {
            assert!(rt; has_parts(&netlist));
            know_reads_back(&netlist);
        }
        Err(_) => assert!(rt; false, "the text isn't read"),
    }
}
