ghost use Rattle.std.specs.Prelude.{◌≡◌, ◌++◌, ◌∷◌, ℕ, List, map, OnOk, IfOk};
ghost use Rattle.hold_vsyntax.specs.declared.tree.Ident.{Ident as Named};
ghost use Rattle.hold_vparse.specs.inner.Bounds.{Hold, Grows};
ghost use Rattle.hold_vparse.specs.inner.Index.{at_place};
ghost use Rattle.hold_vparse.specs.Lines.{all, bounds_of, header_line, next_lines, header_lines, body_lines, wire_lines, lines_of_item, wires_of_item};
ghost use Rattle.hold_vparse.specs.inner.Ranges.{next_range, port_ranges, wire_ranges};

use crate::range_table::RangeTable;
use hold_base::Memory;
use hold_vsyntax::tree::{Header, HeaderPort, Ident, Item, NextPort, Several};
use std::alloc::Global;

/// Puts a place behind these once for each of the names.
fn add_for_each(
    list: &mut Vec<Option<u32>>,
    place: Option<u32>,
    names: &Several<Ident>,
) -> Result<(), Memory>
    ensures { OnOk result (list.new.items ≡ list.old.items ++ map (λ (i : Named). place) (all names.now)) }
{
    list.push(place)?;
    for _name in names.rest.as_slice() {
        list.push(place)?;
    }
    Ok(())
}

/// The place of a later port's range in the table, where `before` is that of the port before it.
fn next_place<'a>(
    alloc: Global,
    table: &mut RangeTable<'a>,
    before: Option<u32>,
    port: &'a NextPort,
) -> Result<Option<u32>, Memory>
    ensures grown { OnOk result (Grows table.old table.new) }
    ensures place { IfOk result (λ place. (more : List (ℕ × ℕ)) → at_place (table.new ++ more) place ≡ next_range (at_place (table.new ++ more) before) port.now) }
{
    match port {
        NextPort::Declared(port) => table.note(alloc, port.range.as_ref()),
        NextPort::Alike(_) => Ok(before),
    }
}

/// Puts the ranges of these ports of a header into the table. The answer has the place of each one's range.
fn declared_places<'a>(
    alloc: Global,
    table: &mut RangeTable<'a>,
    first: &'a HeaderPort,
    rest: &'a [NextPort],
) -> Result<Vec<Option<u32>>, Memory>
    ensures { IfOk result (λ list. Hold table.new list.items (port_ranges (header_line first.now ∷ next_lines first.now.direction (bounds_of first.now.range) rest.now))) }
{
    let mut list = Vec::new(alloc);
    let mut place = table.note(alloc, first.range.as_ref())?;
    list.push(place)?;
    for port in rest {
        place = next_place(alloc, table, place, port)?;
        list.push(place)?;
    }
    Ok(list)
}

/// Puts the ranges that a header declares into the table. The answer has the place of each of its lines' ranges.
fn header_places<'a>(
    alloc: Global,
    table: &mut RangeTable<'a>,
    header: &'a Header,
) -> Result<Vec<Option<u32>>, Memory>
    ensures { IfOk result (λ list. Hold table.new list.items (port_ranges (header_lines header.now))) }
{
    match header {
        Header::Bare | Header::Plain(_) => Ok(Vec::new(alloc)),
        Header::Declared(first, rest) => declared_places(alloc, table, first, rest.as_slice()),
    }
}

/// Puts the range that a statement gives to ports into the table, and its place behind these for each port.
fn add_port_places<'a>(
    alloc: Global,
    table: &mut RangeTable<'a>,
    list: &mut Vec<Option<u32>>,
    item: &'a Item,
) -> Result<(), Memory>
    ensures grown { OnOk result (Grows table.old table.new) }
    ensures places { OnOk result ((more : List (ℕ × ℕ)) → map (at_place (table.new ++ more)) list.new.items ≡ map (at_place (table.new ++ more)) list.old.items ++ port_ranges (lines_of_item item.now)) }
{
    if let Item::Ports(ports) = item {
        let place = table.note(alloc, ports.range.as_ref())?;
        add_for_each(list, place, &ports.names)?;
    }
    Ok(())
}

/// The same of all statements, in order.
fn add_body_places<'a>(
    alloc: Global,
    table: &mut RangeTable<'a>,
    list: &mut Vec<Option<u32>>,
    items: &'a [Item],
) -> Result<(), Memory>
    ensures grown { OnOk result (Grows table.old table.new) }
    ensures places { OnOk result ((more : List (ℕ × ℕ)) → map (at_place (table.new ++ more)) list.new.items ≡ map (at_place (table.new ++ more)) list.old.items ++ port_ranges (body_lines items.now)) }
{
    for item in items {
        add_port_places(alloc, table, list, item)?;
    }
    Ok(())
}

/// Puts the ranges of ports into the table. The answer has the place of each port line's range, in the header and
/// then in the body.
pub(crate) fn port_places<'a>(
    alloc: Global,
    table: &mut RangeTable<'a>,
    header: &'a Header,
    items: &'a [Item],
) -> Result<Vec<Option<u32>>, Memory>
    ensures { IfOk result (λ list. Hold table.new list.items (port_ranges (header_lines header.now ++ body_lines items.now))) }
{
    let mut list = header_places(alloc, table, header)?;
    add_body_places(alloc, table, &mut list, items)?;
    Ok(list)
}

/// Puts the range that a statement gives to wires into the table, and its place behind these for each wire.
fn add_wire_places<'a>(
    alloc: Global,
    table: &mut RangeTable<'a>,
    list: &mut Vec<Option<u32>>,
    item: &'a Item,
) -> Result<(), Memory>
    ensures grown { OnOk result (Grows table.old table.new) }
    ensures places { OnOk result ((more : List (ℕ × ℕ)) → map (at_place (table.new ++ more)) list.new.items ≡ map (at_place (table.new ++ more)) list.old.items ++ wire_ranges (wires_of_item item.now)) }
{
    if let Item::Wires(wires) = item {
        let place = table.note(alloc, wires.range.as_ref())?;
        add_for_each(list, place, &wires.names)?;
    }
    Ok(())
}

/// Puts the ranges of wires into the table. The answer has the place of each wire line's range.
pub(crate) fn wire_places<'a>(
    alloc: Global,
    table: &mut RangeTable<'a>,
    items: &'a [Item],
) -> Result<Vec<Option<u32>>, Memory>
    ensures grown { OnOk result (Grows table.old table.new) }
    ensures places { IfOk result (λ list. Hold table.new list.items (wire_ranges (wire_lines items.now))) }
{
    let mut list = Vec::new(alloc);
    for item in items {
        add_wire_places(alloc, table, &mut list, item)?;
    }
    Ok(list)
}
