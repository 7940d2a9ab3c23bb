//! The tree of one text.

use hold_netlist::Direction;
use hold_vsyntax::syntax_tree;
use hold_vsyntax::tree::{
    Assignment, Connection, Header, Ident, Item, Module, NextPort, Right, Selected, Tied,
};
use std::alloc::Global;

static TEXT: &'static [u8] = b"module m(input a, b, output [1:0] y);
  wire w;
  assign y[1] = 1'b0, y[0:0] = w;
  INV \\u (.A(a), .Y(), .Z(y[1]), .B(1'b1));
endmodule";

fn is_ident(ident: &Ident, name: &[u8], at: u64) -> bool {
    ident.name.bytes() == name && ident.at == at
}

fn has_header(header: &Header) -> bool {
    let Header::Declared(first, more) = header else {
        return false;
    };
    let [NextPort::Alike(b), NextPort::Declared(y)] = more.as_slice() else {
        return false;
    };
    first.direction == Direction::Input
        && is_ident(&first.name, b"a", 15)
        && is_ident(b, b"b", 18)
        && y.direction == Direction::Output
        && is_ident(&y.name, b"y", 34)
        && matches!(&y.range, Some(range) if range.left.small() == Some(1) && range.right.small() == Some(0))
}

fn has_assignments(first: &Assignment, second: &Assignment) -> bool {
    matches!(&first.left.selected, Selected::Bit(index) if index.small() == Some(1))
        && matches!(&first.right, Right::Constant(false))
        && matches!(&second.left.selected, Selected::Part(range) if range.left.small() == Some(0))
        && matches!(&second.right, Right::Net(part) if is_ident(&part.net, b"w", 79))
}

fn has_connections(connections: &[Connection]) -> bool {
    let [a, y, z, b] = connections else {
        return false;
    };
    matches!(&a.tied, Tied::Net(net) if is_ident(net, b"a", 95))
        && matches!(&y.tied, Tied::Open)
        && matches!(&z.tied, Tied::Bit(net, index) if is_ident(net, b"y", 108) && index.small() == Some(1))
        && matches!(&b.tied, Tied::Constant(true))
}

fn has_items(items: &[Item]) -> bool {
    let [
        Item::Wires(wires),
        Item::Assignments(assignments),
        Item::Instances(instances),
    ] = items
    else {
        return false;
    };
    let [second] = assignments.rest.as_slice() else {
        return false;
    };
    is_ident(&wires.names.first, b"w", 45)
        && has_assignments(&assignments.first, second)
        && is_ident(&instances.kind, b"INV", 84)
        && is_ident(&instances.list.first.name, b"u", 88)
        && has_connections(instances.list.first.connections.as_slice())
}

fn is_tree(tree: &Module) -> bool {
    is_ident(&tree.name, b"m", 7) && has_header(&tree.header) && has_items(tree.items.as_slice())
}

/// Whether the text has that tree.
fn has_tree(alloc: Global, text: &[u8]) -> bool {
    match syntax_tree(alloc, text) {
        Ok(tree) => is_tree(&tree),
        Err(_) => false,
    }
}

#[test]
fn pieces_stand_in_the_tree(rt: HostRuntime) {
    assert!(rt; has_tree(rt.alloc(), TEXT));
}
