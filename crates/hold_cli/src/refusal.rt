//! The line that says why an input is refused.

ghost use Rattle.std.specs.Prelude.{◌≡◌, ◌++◌, OnOk, IfOk, decimal};
ghost use Rattle.hold_cli.specs.RefusalLine.{placed, named, lex_text, what_text, verilog_text, refusal_text, refusal_line};

use crate::outcome::Fault;
use hold_base::{Memory, What};
use hold_vlex::LexFault;
use hold_vparse::VerilogFault;
use itoa::Buffer;
use std::alloc::Global;

/// The line that says why an input is refused.
pub fn refusal_line(alloc: Global, fault: &Fault) -> Result<Vec<u8>, Memory>
    ensures { IfOk result (λ line. line.items ≡ refusal_line fault.now) }
{
    let mut line = Vec::new(alloc);
    line.extend_from_slice(b"input ")?;
    put_refusal(&mut line, fault)?;
    line.extend_from_slice(b"\n")?;
    Ok(line)
}

/// Appends what is said of a refusal.
fn put_refusal(out: &mut Vec<u8>, fault: &Fault) -> Result<(), Memory>
    ensures { OnOk result (out.new.items ≡ out.old.items ++ refusal_text fault.now) }
{
    match fault {
        Fault::TooLong(file) => put_named(out, b"toolong", file.bytes()),
        Fault::Verilog(fault) => {
            put_named(out, b"verilog", b"")?;
            put_verilog(out, fault)
        }
        Fault::NotBuilt(file) => put_named(out, b"notbuilt", file.bytes()),
    }
}

/// Appends what is said of a netlist's text that isn't read.
fn put_verilog(out: &mut Vec<u8>, fault: &VerilogFault) -> Result<(), Memory>
    ensures { OnOk result (out.new.items ≡ out.old.items ++ verilog_text fault.now) }
{
    match fault {
        VerilogFault::Lex(fault) => put_lex(out, *fault),
        VerilogFault::Syntax(at) => put_placed(out, b"syntax", *at),
        VerilogFault::LeftOut(word, at) => {
            put_named(out, b"leftout", word.bytes())?;
            put_placed(out, b"", *at)
        }
        VerilogFault::DoubleName(name) => put_named(out, b"doublename", name.bytes()),
        VerilogFault::BadPort(name) => put_named(out, b"badport", name.bytes()),
        VerilogFault::BadBit(name) => put_named(out, b"badbit", name.bytes()),
        VerilogFault::Limit(what) => put_named(out, b"limit", what_text(*what)),
    }
}

/// Appends what is said of a text that has no tokens from some place on.
fn put_lex(out: &mut Vec<u8>, fault: LexFault) -> Result<(), Memory>
    ensures { OnOk result (out.new.items ≡ out.old.items ++ lex_text fault) }
{
    match fault {
        LexFault::BadByte(at) => put_placed(out, b"badbyte", at),
        LexFault::OpenComment(at) => put_placed(out, b"opencomment", at),
        LexFault::OpenName(at) => put_placed(out, b"openname", at),
    }
}

/// What passes its limit.
fn what_text(what: What) -> &'static [u8]
    ensures { result.now ≡ what_text what }
{
    match what {
        What::Bound => b"bound",
        What::Bits => b"bits",
        What::Instances => b"instances",
        What::Pins => b"pins",
        What::Assigns => b"assigns",
        What::Arcs => b"arcs",
    }
}

/// Appends a word, a space and a name.
fn put_named(out: &mut Vec<u8>, word: &[u8], name: &[u8]) -> Result<(), Memory>
    ensures { OnOk result (out.new.items ≡ out.old.items ++ named word.now name.now) }
{
    out.extend_from_slice(word)?;
    out.extend_from_slice(b" ")?;
    out.extend_from_slice(name)?;
    Ok(())
}

/// Appends a word, a space and a place.
fn put_placed(out: &mut Vec<u8>, word: &[u8], at: u64) -> Result<(), Memory>
    ensures { OnOk result (out.new.items ≡ out.old.items ++ placed word.now at) }
{
    let mut buffer = Buffer::new();
    put_named(out, word, buffer.format(at).as_bytes())
}
