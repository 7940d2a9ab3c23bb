//! What is said of a fault of each sort.

ghost use Rattle.std.specs.Prelude.{◌≡◌, ◌++◌, OnOk};
ghost use Rattle.hold_front.specs.RefusalLine.{job_text, lex_text, verilog_text, roles_text, pins_text, build_text, sdf_text};

use crate::said::{put_named, put_placed, what_text};
use hold_base::{Memory, Name};
use hold_build::BuildFault;
use hold_job::JobFault;
use hold_roles::RoleFault;
use hold_sdf::SdfFault;
use hold_vlex::LexFault;
use hold_vparse::VerilogFault;

/// Appends what is said of a text that gives no job.
pub(crate) fn put_job(out: &mut Vec<u8>, fault: &JobFault) -> Result<(), Memory>
    ensures { OnOk result (out.new.items ≡ out.old.items ++ job_text fault.now) }
{
    match fault {
        JobFault::Toml => Ok(out.extend_from_slice(b"toml")?),
        JobFault::Key(path) => put_named(out, b"key", path.bytes()),
        JobFault::Range(path) => put_named(out, b"range", path.bytes()),
        JobFault::Double(path) => put_named(out, b"double", path.bytes()),
        JobFault::SameName(name) => put_named(out, b"samename", name.bytes()),
    }
}

/// Appends what is said of a netlist's text that isn't read.
pub(crate) fn put_verilog(out: &mut Vec<u8>, fault: &VerilogFault) -> Result<(), Memory>
    ensures { OnOk result (out.new.items ≡ out.old.items ++ verilog_text fault.now) }
{
    match fault {
        VerilogFault::Lex(fault) => put_lex(out, *fault),
        VerilogFault::Syntax(at) => put_placed(out, b"syntax", *at),
        VerilogFault::LeftOut(word, at) => {
            put_named(out, b"leftout", word.bytes())?;
            put_placed(out, b"", *at)
        }
        VerilogFault::DoubleName(name) => put_named(out, b"doublename", name.bytes()),
        VerilogFault::BadPort(name) => put_named(out, b"badport", name.bytes()),
        VerilogFault::BadBit(name) => put_named(out, b"badbit", name.bytes()),
        VerilogFault::Limit(what) => put_named(out, b"limit", what_text(*what)),
    }
}

/// Appends what is said of a text that has no tokens from some place on.
fn put_lex(out: &mut Vec<u8>, fault: LexFault) -> Result<(), Memory>
    ensures { OnOk result (out.new.items ≡ out.old.items ++ lex_text fault) }
{
    match fault {
        LexFault::BadByte(at) => put_placed(out, b"badbyte", at),
        LexFault::OpenComment(at) => put_placed(out, b"opencomment", at),
        LexFault::OpenName(at) => put_placed(out, b"openname", at),
    }
}

/// Appends what is said of a netlist that can't be bound.
pub(crate) fn put_roles(out: &mut Vec<u8>, fault: &RoleFault) -> Result<(), Memory>
    ensures { OnOk result (out.new.items ≡ out.old.items ++ roles_text fault.now) }
{
    match fault {
        RoleFault::Limit(what) => put_named(out, b"limit", what_text(*what)),
        RoleFault::NoRole(kind) => put_named(out, b"norole", kind.bytes()),
        RoleFault::BadPin { inst, pin } => {
            put_named(out, b"badpin", inst.bytes())?;
            put_named(out, b"", pin.bytes())
        }
        RoleFault::DoubleDriver(net) => put_named(out, b"doubledriver", net.bytes()),
        RoleFault::AssignRing(net) => put_named(out, b"assignring", net.bytes()),
    }
}

/// Appends what is said of a netlist and a job without a graph. The pins are those of a cycle.
pub(crate) fn put_build(out: &mut Vec<u8>, fault: &BuildFault, pins: &[Name]) -> Result<(), Memory>
    ensures { OnOk result (out.new.items ≡ out.old.items ++ build_text fault.now pins.now) }
{
    match fault {
        BuildFault::Unknown(path) => put_named(out, b"unknown", path.bytes()),
        BuildFault::Limit(what) => put_named(out, b"limit", what_text(*what)),
        BuildFault::Cycle(_) => {
            out.extend_from_slice(b"cycle")?;
            put_pins(out, pins)
        }
    }
}

/// Appends these pins, each behind a space.
fn put_pins(out: &mut Vec<u8>, pins: &[Name]) -> Result<(), Memory>
    ensures { OnOk result (out.new.items ≡ out.old.items ++ pins_text pins.now) }
{
    for pin in pins {
        put_named(out, b"", pin.bytes())?;
    }
    Ok(())
}

/// Appends what is said of an SDF text that isn't read.
pub(crate) fn put_sdf(out: &mut Vec<u8>, fault: &SdfFault) -> Result<(), Memory>
    ensures { OnOk result (out.new.items ≡ out.old.items ++ sdf_text fault.now) }
{
    match fault {
        SdfFault::Syntax(at) => put_placed(out, b"syntax", *at),
        SdfFault::LeftOut(word, at) => {
            put_named(out, b"leftout", word.bytes())?;
            put_placed(out, b"", *at)
        }
        SdfFault::Number(at) => put_placed(out, b"number", *at),
    }
}
