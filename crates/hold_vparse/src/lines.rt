ghost use Rattle.std.specs.Prelude.{◌≡◌, ◌++◌, OnOk, IfOk};
ghost use Rattle.hold_vparse.specs.inner.Flat.{targets, seen_range, seen_ports, seen_wires, seen_instances};
ghost use Rattle.hold_vparse.specs.Lines.{bounds_of, header_names, header_lines, next_lines, body_lines, lines_of_item, wire_lines, wires_of_item, assignments, assignments_of_item, instances, instances_of_item};

use hold_base::Memory;
use hold_netlist::Direction;
use hold_vsyntax::tree::{Assignment, Header, HeaderPort, Ident, Instance, Item, NextPort, Range};
use std::alloc::Global;

/// A port as a line of the text declares it.
#[derive(Clone, Copy)]
pub(crate) struct Port<'a> {
    pub direction: Direction,
    pub range: Option<&'a Range>,
    pub name: &'a Ident,
}

/// A wire alike.
#[derive(Clone, Copy)]
pub(crate) struct NamedWire<'a> {
    pub range: Option<&'a Range>,
    pub name: &'a Ident,
}

/// The names of a plain list of ports.
pub(crate) fn header_names_in(header: &Header) -> &[Ident]
    ensures { result.now ≡ header_names header.now }
{
    match header {
        Header::Plain(names) => names.as_slice(),
        Header::Bare | Header::Declared(_, _) => &[],
    }
}

/// A port that is declared in the header.
fn header_port(port: &HeaderPort) -> Port<'_>
    ensures direction { result.direction ≡ port.now.direction }
    ensures range { seen_range result.range ≡ bounds_of port.now.range }
    ensures name { result.name.now ≡ port.now.name }
{
    Port {
        direction: port.direction,
        range: port.range.as_ref(),
        name: &port.name,
    }
}

/// The ports that the header declares, in order.
pub(crate) fn header_lines_in(alloc: Global, header: &Header) -> Result<Vec<Port<'_>>, Memory>
    ensures { IfOk result (λ list. seen_ports list.items ≡ header_lines header.now) }
{
    let mut list = Vec::new(alloc);
    if let Header::Declared(first, rest) = header {
        list.push(header_port(first))?;
        let mut direction = first.direction;
        let mut range = first.range.as_ref();
        for port in rest.as_slice() {
            match port {
                NextPort::Declared(port) => {
                    direction = port.direction;
                    range = port.range.as_ref();
                    list.push(header_port(port))?;
                }
                NextPort::Alike(name) => {
                    list.push(Port {
                        direction,
                        range,
                        name,
                    })?;
                }
            }
        }
    }
    Ok(list)
}

/// Puts the ports to which a statement gives a direction behind these.
fn add_ports<'a>(list: &mut Vec<Port<'a>>, item: &'a Item) -> Result<(), Memory>
    ensures { OnOk result (seen_ports list.new.items ≡ seen_ports list.old.items ++ lines_of_item item.now) }
{
    if let Item::Ports(ports) = item {
        let direction = ports.direction;
        let range = ports.range.as_ref();
        list.push(Port {
            direction,
            range,
            name: &ports.names.first,
        })?;
        for name in ports.names.rest.as_slice() {
            list.push(Port {
                direction,
                range,
                name,
            })?;
        }
    }
    Ok(())
}

/// Puts the ports to which the body gives a direction behind these, in order.
pub(crate) fn add_body_lines<'a>(list: &mut Vec<Port<'a>>, items: &'a [Item]) -> Result<(), Memory>
    ensures { OnOk result (seen_ports list.new.items ≡ seen_ports list.old.items ++ body_lines items.now) }
{
    for item in items {
        add_ports(list, item)?;
    }
    Ok(())
}

/// The ports that the header declares and then those to which the body gives a direction, in order.
pub(crate) fn port_lines_in<'a>(
    alloc: Global,
    header: &'a Header,
    items: &'a [Item],
) -> Result<Vec<Port<'a>>, Memory>
    ensures { IfOk result (λ list. seen_ports list.items ≡ header_lines header.now ++ body_lines items.now) }
{
    let mut list = header_lines_in(alloc, header)?;
    add_body_lines(&mut list, items)?;
    Ok(list)
}

/// Puts the wires that a statement declares behind these.
fn add_wires<'a>(list: &mut Vec<NamedWire<'a>>, item: &'a Item) -> Result<(), Memory>
    ensures { OnOk result (seen_wires list.new.items ≡ seen_wires list.old.items ++ wires_of_item item.now) }
{
    if let Item::Wires(wires) = item {
        let range = wires.range.as_ref();
        list.push(NamedWire {
            range,
            name: &wires.names.first,
        })?;
        for name in wires.names.rest.as_slice() {
            list.push(NamedWire { range, name })?;
        }
    }
    Ok(())
}

/// The wires that the body declares, in order.
pub(crate) fn wire_lines_in(alloc: Global, items: &[Item]) -> Result<Vec<NamedWire<'_>>, Memory>
    ensures { IfOk result (λ list. seen_wires list.items ≡ wire_lines items.now) }
{
    let mut list = Vec::new(alloc);
    for item in items {
        add_wires(&mut list, item)?;
    }
    Ok(list)
}

/// Puts the assignments of a statement behind these.
fn add_assignments<'a>(list: &mut Vec<&'a Assignment>, item: &'a Item) -> Result<(), Memory>
    ensures { OnOk result (targets list.new.items ≡ targets list.old.items ++ assignments_of_item item.now) }
{
    if let Item::Assignments(several) = item {
        list.push(&several.first)?;
        for assignment in several.rest.as_slice() {
            list.push(assignment)?;
        }
    }
    Ok(())
}

/// All assignments of these statements, in order.
pub(crate) fn assignments_in(alloc: Global, items: &[Item]) -> Result<Vec<&Assignment>, Memory>
    ensures { IfOk result (λ list. targets list.items ≡ assignments items.now) }
{
    let mut list = Vec::new(alloc);
    for item in items {
        add_assignments(&mut list, item)?;
    }
    Ok(list)
}

/// Puts the instances of a statement behind these, each with the name of its type.
fn add_instances<'a>(
    list: &mut Vec<(&'a Ident, &'a Instance)>,
    item: &'a Item,
) -> Result<(), Memory>
    ensures { OnOk result (seen_instances list.new.items ≡ seen_instances list.old.items ++ instances_of_item item.now) }
{
    if let Item::Instances(instances) = item {
        list.push((&instances.kind, &instances.list.first))?;
        for instance in instances.list.rest.as_slice() {
            list.push((&instances.kind, instance))?;
        }
    }
    Ok(())
}

/// All instances of these statements, in order, each with the name of its type.
pub(crate) fn instances_in(
    alloc: Global,
    items: &[Item],
) -> Result<Vec<(&Ident, &Instance)>, Memory>
    ensures { IfOk result (λ list. seen_instances list.items ≡ instances items.now) }
{
    let mut list = Vec::new(alloc);
    for item in items {
        add_instances(&mut list, item)?;
    }
    Ok(list)
}
