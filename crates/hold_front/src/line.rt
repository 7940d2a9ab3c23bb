//! The line that says why an input is refused.

ghost use Rattle.std.specs.Prelude.{◌≡◌, ◌++◌, OnOk, IfOk};
ghost use Rattle.hold_front.specs.RefusalLine.{refusal_text, refusal_line};

use crate::fault_text::{put_build, put_job, put_roles, put_sdf, put_verilog};
use crate::refusal::Refusal;
use crate::said::{put_named, put_placed};
use hold_base::Memory;
use std::alloc::Global;

/// The line that says why an input is refused.
pub fn refusal_line(alloc: Global, refusal: &Refusal) -> Result<Vec<u8>, Memory>
    ensures { IfOk result (λ line. line.items ≡ refusal_line refusal.now) }
{
    let mut line = Vec::new(alloc);
    line.extend_from_slice(b"input ")?;
    put_refusal(&mut line, refusal)?;
    line.extend_from_slice(b"\n")?;
    Ok(line)
}

/// Appends what is said of a refusal.
fn put_refusal(out: &mut Vec<u8>, refusal: &Refusal) -> Result<(), Memory>
    ensures { OnOk result (out.new.items ≡ out.old.items ++ refusal_text refusal.now) }
{
    match refusal {
        Refusal::TooLong(file) => put_named(out, b"toolong", file.bytes()),
        Refusal::Job(fault) => {
            put_named(out, b"job", b"")?;
            put_job(out, fault)
        }
        Refusal::Verilog(fault) => {
            put_named(out, b"verilog", b"")?;
            put_verilog(out, fault)
        }
        Refusal::Roles(fault) => {
            put_named(out, b"roles", b"")?;
            put_roles(out, fault)
        }
        Refusal::Build { fault, pins } => put_build(out, fault, pins.as_slice()),
        Refusal::Sdf(corner, fault) => {
            put_placed(out, b"sdf", u64::from(corner.0))?;
            put_named(out, b"", b"")?;
            put_sdf(out, fault)
        }
    }
}
