use hold_base::{Stop, What};
use hold_vlex::LexFault;
use hold_vparse::{VerilogFault, read};
use std::alloc::Global;

/// What a text is answered.
#[derive(Clone, Copy)]
pub(crate) enum Answer {
    /// The netlist whose canonical text this is.
    Netlist(&'static [u8]),
    Lex(LexFault),
    Syntax(u64),
    LeftOut(&'static [u8], u64),
    DoubleName(&'static [u8]),
    BadPort(&'static [u8]),
    BadBit(&'static [u8]),
    Limit(What),
}

/// Whether both texts are read, and as one netlist.
fn are_read_alike(alloc: Global, text: &[u8], other: &[u8]) -> bool {
    match (read(alloc, text), read(alloc, other)) {
        (Ok(netlist), Ok(other)) => netlist.same(&other),
        _ => false,
    }
}

/// Whether this fault is the answer.
fn is_fault(fault: &VerilogFault, answer: Answer) -> bool {
    match (fault, answer) {
        (VerilogFault::Lex(found), Answer::Lex(fault)) => *found == fault,
        (VerilogFault::Syntax(at), Answer::Syntax(place)) => *at == place,
        (VerilogFault::LeftOut(word, at), Answer::LeftOut(text, place)) => {
            word.bytes() == text && *at == place
        }
        (VerilogFault::DoubleName(name), Answer::DoubleName(text)) => name.bytes() == text,
        (VerilogFault::BadPort(name), Answer::BadPort(text)) => name.bytes() == text,
        (VerilogFault::BadBit(name), Answer::BadBit(text)) => name.bytes() == text,
        (VerilogFault::Limit(found), Answer::Limit(what)) => *found == what,
        _ => false,
    }
}

/// Whether the text is refused so.
fn is_refused(alloc: Global, text: &[u8], answer: Answer) -> bool {
    match read(alloc, text) {
        Err(Stop::Fault(fault)) => is_fault(&fault, answer),
        _ => false,
    }
}

/// Whether the text is answered so.
pub(crate) fn is_answered(alloc: Global, text: &[u8], answer: Answer) -> bool {
    match answer {
        Answer::Netlist(canonical) => are_read_alike(alloc, text, canonical),
        _ => is_refused(alloc, text, answer),
    }
}
