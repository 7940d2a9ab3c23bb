ghost use Rattle.std.specs.Prelude.{◌≡◌, ◌↔◌, IsTrue};

use crate::inst::{Assign, Inst, Pin};
use crate::wire::{Port, Wire};

pub(crate) fn same_ports(a: &[Port], b: &[Port]) -> bool
    ensures { IsTrue result ↔ (a.now ≡ b.now) }
{
    a == b
}

pub(crate) fn same_wires(a: &[Wire], b: &[Wire]) -> bool
    ensures { IsTrue result ↔ (a.now ≡ b.now) }
{
    a == b
}

pub(crate) fn same_assigns(a: &[Assign], b: &[Assign]) -> bool
    ensures { IsTrue result ↔ (a.now ≡ b.now) }
{
    a == b
}

fn same_pins(a: &[Pin], b: &[Pin]) -> bool
    ensures { IsTrue result ↔ (a.now ≡ b.now) }
{
    a == b
}

fn same_inst(a: &Inst, b: &Inst) -> bool
    ensures { IsTrue result ↔ (a.now ≡ b.now) }
{
    a.name == b.name && a.kind == b.kind && same_pins(a.pins.as_slice(), b.pins.as_slice())
}

pub(crate) fn same_insts(a: &[Inst], b: &[Inst]) -> bool
    ensures { IsTrue result ↔ (a.now ≡ b.now) }
{
    let mut x = a;
    let mut y = b;
    loop {
        match (x, y) {
            ([], []) => return true,
            ([p, xs @ ..], [q, ys @ ..]) => {
                if !same_inst(p, q) {
                    return false;
                }
                x = xs;
                y = ys;
            }
            _ => return false,
        }
    }
}
