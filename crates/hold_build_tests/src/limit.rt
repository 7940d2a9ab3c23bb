//! A cell with more arcs than a graph may have. They are counted before any is made.

use crate::answer::{Answer, is_answered_of};
use hold_base::{Memory, What, put_number};
use std::alloc::Global;

/// Appends so many texts, each a letter and its number, between two others.
fn put_numbered(
    out: &mut Vec<u8>,
    (before, letter, behind): (&[u8], u8, &[u8]),
    count: u32,
) -> Result<(), Memory> {
    for number in 0..count {
        out.extend_from_slice(before)?;
        out.push(letter)?;
        put_number(out, i64::from(number))?;
        out.extend_from_slice(behind)?;
    }
    Ok(())
}

/// The line of a job with a type of so many inputs and outputs, and one input more.
fn types(alloc: Global, inputs: u32, outputs: u32) -> Result<Vec<u8>, Memory> {
    let mut text = Vec::from_slice(
        alloc,
        b"type = [{ name = \"WIDE\", role = \"comb\", inputs = [\"Z\"",
    )?;
    put_numbered(&mut text, (b", \"", b'A', b"\""), inputs)?;
    text.extend_from_slice(b"], outputs = [")?;
    put_numbered(&mut text, (b"\"", b'Y', b"\", "), outputs)?;
    text.extend_from_slice(b"] }]\n")?;
    Ok(text)
}

/// A netlist of one instance of that type. Its outputs and the one input more are empty.
fn netlist(alloc: Global, inputs: u32, outputs: u32) -> Result<Vec<u8>, Memory> {
    let mut text = Vec::from_slice(alloc, b"module m; WIDE u(.Z()")?;
    put_numbered(&mut text, (b", .", b'A', b"(1'b0)"), inputs)?;
    put_numbered(&mut text, (b", .", b'Y', b"()"), outputs)?;
    text.extend_from_slice(b"); endmodule")?;
    Ok(text)
}

/// Whether such a netlist is answered so.
fn are_answered(alloc: Global, inputs: u32, outputs: u32, answer: Answer) -> bool {
    match (
        netlist(alloc, inputs, outputs),
        types(alloc, inputs, outputs),
    ) {
        (Ok(netlist), Ok(types)) => is_answered_of(alloc, &netlist, (&types, b""), answer),
        _ => false,
    }
}

#[test]
fn too_many_arcs_are_refused(rt: HostRuntime) {
    assert!(rt; are_answered(rt.alloc(), 2049, 2048, Answer::Limit(What::Arcs)));
}
