use crate::library::small;
use hold_base::{Memory, NetNo, PinNo, Stop, What, put_number};
use hold_netlist::Netlist;
use hold_roles::{Bound, RoleFault, Root, bind};
use hold_vparse::read;
use std::alloc::Global;

/// What a netlist is answered that is bound to the small library.
#[derive(Clone, Copy)]
pub(crate) enum Answer {
    /// It is bound, and these are the roots of its net bits: `p` and a pin's number, `0`, `1` or `-`, each with a space behind it.
    Roots(&'static [u8]),
    Limit(What),
    NoRole(&'static [u8]),
    BadPin(&'static [u8], &'static [u8]),
    DoubleDriver(&'static [u8]),
    AssignRing(&'static [u8]),
}

fn put_root(out: &mut Vec<u8>, root: Root) -> Result<(), Memory> {
    match root {
        Root::Pin(PinNo(pin)) => {
            out.push(b'p')?;
            put_number(out, i64::from(pin))?;
        }
        Root::Zero => out.push(b'0')?,
        Root::One => out.push(b'1')?,
        Root::Nothing => out.push(b'-')?,
    }
    out.push(b' ')?;
    Ok(())
}

/// The roots of the net bits, in order.
fn roots(alloc: Global, bound: &Bound) -> Result<Vec<u8>, Memory> {
    let mut out = Vec::new(alloc);
    for net in 0..u32::MAX {
        if bound.netlist().net_bit(NetNo(net)).is_none() {
            break;
        }
        put_root(&mut out, bound.root(NetNo(net)))?;
    }
    Ok(out)
}

/// Whether this fault is the answer.
fn is_fault(fault: &RoleFault, answer: Answer) -> bool {
    match (fault, answer) {
        (RoleFault::Limit(found), Answer::Limit(what)) => *found == what,
        (RoleFault::NoRole(name), Answer::NoRole(text)) => name.bytes() == text,
        (RoleFault::BadPin { inst, pin }, Answer::BadPin(inst_text, pin_text)) => {
            inst.bytes() == inst_text && pin.bytes() == pin_text
        }
        (RoleFault::DoubleDriver(name), Answer::DoubleDriver(text)) => name.bytes() == text,
        (RoleFault::AssignRing(name), Answer::AssignRing(text)) => name.bytes() == text,
        _ => false,
    }
}

/// Whether a netlist is answered so.
fn is_netlist_answered(alloc: Global, netlist: Netlist, answer: Answer) -> bool {
    let Ok(library) = small(alloc) else {
        return false;
    };
    match (bind(alloc, netlist, &library), answer) {
        (Ok(bound), Answer::Roots(text)) => match roots(alloc, &bound) {
            Ok(found) => found.as_slice() == text,
            Err(Memory) => false,
        },
        (Err(Stop::Fault(fault)), answer) => is_fault(&fault, answer),
        _ => false,
    }
}

/// Whether the netlist of this text is answered so.
pub(crate) fn is_answered(alloc: Global, text: &[u8], answer: Answer) -> bool {
    match read(alloc, text) {
        Ok(netlist) => is_netlist_answered(alloc, netlist, answer),
        Err(_) => false,
    }
}
