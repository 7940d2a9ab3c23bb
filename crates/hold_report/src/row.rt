//! One row of the table.

ghost use Rattle.std.specs.Prelude.{◌≡◌, ◌++◌, OnOk};
ghost use Rattle.hold_report.specs.Columns.{at_right};
ghost use Rattle.hold_report.specs.Table.{slack_width, side_text, slack_text, capture_text, row_text};

use crate::columns::{put_left, put_right};
use hold_base::{Memory, Name, Side};
use hold_netlist::Netlist;
use hold_timing::End;
use itoa::Buffer;

/// The places that the corner's name, the side and the slack are given.
const CORNER_WIDTH: usize = 16;

const SIDE_WIDTH: usize = 5;

const SLACK_WIDTH: usize = 12;

fn side_text(side: Side) -> &'static [u8]
    ensures { result.now ≡ side_text side }
{
    match side {
        Side::Early => b"early",
        Side::Late => b"late",
    }
}

/// Appends the column of the slack.
fn put_slack(out: &mut Vec<u8>, end: Option<End>) -> Result<(), Memory>
    ensures { OnOk result (out.new.items ≡ out.old.items ++ at_right slack_width (slack_text end)) }
{
    match end {
        Some(end) => {
            let mut buffer = Buffer::new();
            put_right(out, buffer.format(end.slack).as_bytes(), SLACK_WIDTH)
        }
        None => put_right(out, b"none", SLACK_WIDTH),
    }
}

/// Appends how the capture is said.
fn put_capture(out: &mut Vec<u8>, netlist: &Netlist, end: Option<End>) -> Result<(), Memory>
    ensures { OnOk result (out.new.items ≡ out.old.items ++ capture_text netlist.now end) }
{
    match end {
        Some(end) => netlist.put_pin(out, end.capture),
        None => {
            out.extend_from_slice(b"-")?;
            Ok(())
        }
    }
}

/// Appends the row of one side of a corner, where `end` is its worst end.
pub(crate) fn put_row(
    out: &mut Vec<u8>,
    netlist: &Netlist,
    corner: &Name,
    side: Side,
    end: Option<End>,
) -> Result<(), Memory>
    ensures { OnOk result (out.new.items ≡ out.old.items ++ row_text netlist.now corner.now side end) }
{
    put_left(out, corner.bytes(), CORNER_WIDTH)?;
    out.extend_from_slice(b" ")?;
    put_left(out, side_text(side), SIDE_WIDTH)?;
    out.extend_from_slice(b" ")?;
    put_slack(out, end)?;
    out.extend_from_slice(b" ")?;
    put_capture(out, netlist, end)?;
    out.extend_from_slice(b"\n")?;
    Ok(())
}
