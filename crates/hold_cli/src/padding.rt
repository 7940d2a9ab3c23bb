//! The line that says which path needs padding.

ghost use Rattle.std.specs.Prelude.{◌≡◌, ◌++◌, OnOk, IfOk};
ghost use Rattle.hold_cli.specs.PaddingLine.{side_text, path_text, padding_line};

use crate::job_form::Job;
use hold_base::{Memory, PinNo, Side, put_number};
use hold_graph::Listed;
use hold_netlist::Netlist;
use std::alloc::Global;

/// The line that says which path misses its check, and by how much, in fs.
pub fn padding_line(
    alloc: Global,
    job: &Job,
    netlist: &Netlist,
    path: &Listed,
    short: i64,
) -> Result<Vec<u8>, Memory>
    ensures { IfOk result (λ line. line.items ≡ padding_line job.now netlist.now path.now short) }
{
    let mut line = Vec::new(alloc);
    line.extend_from_slice(b"needs padding ")?;
    put_number(&mut line, short)?;
    line.extend_from_slice(b" ")?;
    line.extend_from_slice(side_text(path.side))?;
    line.extend_from_slice(b" ")?;
    line.extend_from_slice(job.corner.bytes())?;
    put_path(&mut line, netlist, path.pins.as_slice())?;
    line.extend_from_slice(b"\n")?;
    Ok(line)
}

fn side_text(side: Side) -> &'static [u8]
    ensures { result.now ≡ side_text side }
{
    match side {
        Side::Early => b"early",
        Side::Late => b"late",
    }
}

/// Appends the texts of these pins, each after a space.
fn put_path(out: &mut Vec<u8>, netlist: &Netlist, pins: &[PinNo]) -> Result<(), Memory>
    ensures { OnOk result (out.new.items ≡ out.old.items ++ path_text netlist.now pins.now) }
{
    for pin in pins {
        out.extend_from_slice(b" ")?;
        netlist.put_pin(out, *pin)?;
    }
    Ok(())
}
