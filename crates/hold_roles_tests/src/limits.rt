//! Netlists of as many instances as the limit lets there be, and of one more.

use crate::answer::{Answer, is_answered};
use hold_base::{Memory, What, put_number};
use std::alloc::Global;

/// The text of a netlist of so many instances, of a type that isn't listed.
fn text_of(alloc: Global, insts: u32) -> Result<Vec<u8>, Memory> {
    let mut text = Vec::new(alloc);
    text.extend_from_slice(b"module m; ")?;
    for inst in 0..insts {
        text.extend_from_slice(b"XOR u")?;
        put_number(&mut text, i64::from(inst))?;
        text.extend_from_slice(b"(); ")?;
    }
    text.extend_from_slice(b"endmodule")?;
    Ok(text)
}

/// Whether a netlist of so many instances is answered so.
fn are_answered(alloc: Global, insts: u32, answer: Answer) -> bool {
    match text_of(alloc, insts) {
        Ok(text) => is_answered(alloc, text.as_slice(), answer),
        Err(Memory) => false,
    }
}

#[test]
fn one_instance_too_many_is_refused(rt: HostRuntime) {
    let alloc = rt.alloc();
    assert!(rt; are_answered(alloc, 262_144, Answer::NoRole(b"XOR")));
    assert!(rt; are_answered(alloc, 262_145, Answer::Limit(What::Instances)));
}
