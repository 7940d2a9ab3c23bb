ghost use Rattle.std.specs.Prelude.{◌≡◌, [], ◌∷◌, map, flat_map, not, is_none, if◌then◌else◌};
ghost use Rattle.std.specs.List.{filter};
ghost use Rattle.hold_netlist.specs.Names.{is_among};
ghost use Rattle.hold_vsyntax.specs.declared.tree.Ident.{Ident as Named};
ghost use Rattle.hold_vparse.specs.inner.Flat.{seen_port, seen_ports, seen_wire, seen_wires, seen_range};
ghost use Rattle.hold_vparse.specs.inner.Found.{found_ident};
ghost use Rattle.hold_vparse.specs.Lines.{PortLine, WireLine, line_of};
ghost use Rattle.hold_vparse.specs.Nets.{names};
ghost use Rattle.hold_vparse.specs.PortFaults.{later, unlike_line};
ghost use Rattle.hold_vparse.specs.inner.Ranges.{line_range, port_ranges, wire_ranges};
ghost use Rattle.hold_vparse.specs.Soonest.{soonest};

use crate::index::Index;
use crate::lines::{NamedWire, Port};
use crate::ports::Ports;
use crate::ranges::Ranges;
use crate::soonest::soonest_of;
use hold_vsyntax::tree::Ident;

/// This port, where no line gives it a direction.
fn undirected_port<'a>(name: &'a Ident, lines: &Ports<'a>) -> Option<&'a Ident>
    ensures { found_ident result ≡ soonest (if is_none (line_of name.now.name lines.now) then name.now ∷ [] else []) }
{
    match lines.find(&name.name) {
        Some(_) => None,
        None => Some(name),
    }
}

/// The first of the ports of a plain list to which no line gives a direction.
pub(crate) fn undirected_ident<'a>(names: &'a [Ident], lines: &Ports<'a>) -> Option<&'a Ident>
    ensures { found_ident result ≡ soonest (filter (λ (i : Named). is_none (line_of i.name lines.now)) names.now) }
{
    let mut found = None;
    for name in names {
        found = soonest_of(found, undirected_port(name, lines));
    }
    found
}

/// This line's port, where it isn't listed.
fn unlisted_port<'a>(line: &Port<'a>, listed: &Index<'a>) -> Option<&'a Ident>
    ensures { found_ident result ≡ soonest (if not (is_among line.now.name.now.name (names listed.now)) then line.now.name.now ∷ [] else []) }
{
    if listed.has(&line.name.name) {
        None
    } else {
        Some(line.name)
    }
}

/// The first of the identifiers of these lines that isn't listed.
pub(crate) fn unlisted_ident<'a>(lines: &[Port<'a>], listed: &Index<'a>) -> Option<&'a Ident>
    ensures { found_ident result ≡ soonest (filter (λ (i : Named). not (is_among i.name (names listed.now))) (map (λ (l : PortLine). l.name) (seen_ports lines.now))) }
{
    let mut found = None;
    for line in lines {
        found = soonest_of(found, unlisted_port(line, listed));
    }
    found
}

/// Whichever stands later in the text.
fn later_of<'a>(i: &'a Ident, j: &'a Ident) -> &'a Ident
    ensures { result.now ≡ later i.now j.now }
{
    if i.at < j.at { j } else { i }
}

/// The later declaration of a port and the wire line of this number, if it has the port's name and another range.
fn unlike_wire<'a>(
    number: usize,
    wire: &NamedWire<'a>,
    lines: &Ports<'a>,
    ranges: &Ranges<'a>,
) -> Option<&'a Ident>
    requires wires { line_range ranges.now.wires number ≡ seen_range wire.now.range }
    requires ports { ranges.now.ports ≡ port_ranges lines.now }
    ensures { found_ident result ≡ soonest (unlike_line (seen_wire wire.now) (line_of wire.now.name.now.name lines.now)) }
{
    let Some(place) = lines.place(&wire.name.name) else {
        return None;
    };
    match lines.get(place) {
        Some(line) if !ranges.have_same_bounds(number, place) => {
            Some(later_of(wire.name, line.name))
        }
        _ => None,
    }
}

/// The first of the later declarations of ports and wires whose ranges differ.
pub(crate) fn unlike_ident<'a>(
    wires: &[NamedWire<'a>],
    lines: &Ports<'a>,
    ranges: &Ranges<'a>,
) -> Option<&'a Ident>
    requires wires { ranges.now.wires ≡ wire_ranges (seen_wires wires.now) }
    requires ports { ranges.now.ports ≡ port_ranges lines.now }
    ensures { found_ident result ≡ soonest (flat_map (λ (w : WireLine). unlike_line w (line_of w.name.name lines.now)) (seen_wires wires.now)) }
{
    let mut found = None;
    for (number, wire) in wires.iter().enumerate() {
        found = soonest_of(found, unlike_wire(number, wire, lines, ranges));
    }
    found
}
