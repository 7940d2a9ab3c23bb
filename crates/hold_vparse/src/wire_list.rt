ghost use Rattle.std.specs.Prelude.{◌≡◌, false, nat_lt, map, IfOk};
ghost use Rattle.std.specs.List.{list_any};
ghost use Rattle.hold_base.specs.Limits.{bound_limit};
ghost use Rattle.hold_vparse.specs.Declares.{port};
ghost use Rattle.hold_vparse.specs.inner.Flat.{seen_range, seen_ports, net_wire, net_wires};
ghost use Rattle.hold_vparse.specs.NameFaults.{is_large_range, has_large_bound};

use crate::lines::{NamedWire, Port};
use hold_base::{Memory, limits};
use hold_netlist::{Port as NetPort, Wire};
use hold_vsyntax::number::Number;
use hold_vsyntax::tree::Range;
use std::alloc::Global;

/// Whether a number is above the greatest bound.
fn is_large(number: &Number) -> bool
    ensures { result ≡ nat_lt bound_limit number.now }
{
    match number.small() {
        Some(number) => number > limits::BOUND,
        None => true,
    }
}

/// Whether a bound of a range is too large.
fn has_large(range: Option<&Range>) -> bool
    ensures { result ≡ is_large_range (seen_range range.entry) }
{
    match range {
        None => false,
        Some(range) => is_large(&range.left) || is_large(&range.right),
    }
}

/// Whether a bound of one of these wires is too large.
pub(crate) fn has_large_bounds(wires: &[NamedWire<'_>]) -> bool
    ensures { result ≡ list_any has_large_bound (net_wires wires.now) }
{
    for wire in wires {
        if has_large(wire.range) {
            return true;
        }
    }
    false
}

/// The bounds of a range, which aren't too large.
fn bounds_in(range: Option<&Range>) -> Option<(u32, u32)>
    requires { is_large_range (seen_range range) ≡ false }
    ensures { result ≡ seen_range range.entry }
{
    match range {
        None => None,
        Some(range) => match (range.left.small(), range.right.small()) {
            (Some(left), Some(right)) => Some((left, right)),
            _ => None,
        },
    }
}

/// A wire of its own, which shares the bytes of the name.
fn wire_of(wire: &NamedWire<'_>) -> Result<Wire, Memory>
    requires { is_large_range (seen_range wire.now.range) ≡ false }
    ensures { IfOk result (λ made. made ≡ net_wire wire.now) }
{
    let range = bounds_in(wire.range);
    let name = wire.name.name.clone()?;
    Ok(Wire { name, range })
}

/// The wires of a netlist.
pub(crate) fn wire_list(alloc: Global, wires: &[NamedWire<'_>]) -> Result<Vec<Wire>, Memory>
    requires { list_any has_large_bound (net_wires wires.now) ≡ false }
    ensures { IfOk result (λ list. list.items ≡ net_wires wires.now) }
{
    let mut list = Vec::new(alloc);
    for wire in wires {
        list.push(wire_of(wire)?)?;
    }
    Ok(list)
}

/// The ports of a netlist.
pub(crate) fn port_list(alloc: Global, ports: &[Port<'_>]) -> Result<Vec<NetPort>, Memory>
    ensures { IfOk result (λ list. list.items ≡ map port (seen_ports ports.now)) }
{
    let mut list = Vec::new(alloc);
    for port in ports {
        let name = port.name.name.clone()?;
        list.push(NetPort {
            name,
            direction: port.direction,
        })?;
    }
    Ok(list)
}
