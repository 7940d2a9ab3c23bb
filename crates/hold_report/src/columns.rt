//! Texts in columns.

ghost use Rattle.std.specs.Prelude.{◌≡◌, ◌++◌, OnOk};
ghost use Rattle.hold_report.specs.Columns.{blanks, at_left, at_right};

use hold_base::Memory;

/// Appends so many spaces.
fn put_blanks(out: &mut Vec<u8>, count: usize) -> Result<(), Memory>
    ensures { OnOk result (out.new.items ≡ out.old.items ++ blanks count) }
{
    for _ in 0..count {
        out.push(b' ')?;
    }
    Ok(())
}

/// Appends a text at the left of a column. A wider text is appended whole.
pub(crate) fn put_left(out: &mut Vec<u8>, text: &[u8], width: usize) -> Result<(), Memory>
    ensures { OnOk result (out.new.items ≡ out.old.items ++ at_left width text.now) }
{
    out.extend_from_slice(text)?;
    put_blanks(out, width.saturating_sub(text.len()))
}

/// Appends a text at the right of a column. A wider text is appended whole.
pub(crate) fn put_right(out: &mut Vec<u8>, text: &[u8], width: usize) -> Result<(), Memory>
    ensures { OnOk result (out.new.items ≡ out.old.items ++ at_right width text.now) }
{
    put_blanks(out, width.saturating_sub(text.len()))?;
    out.extend_from_slice(text)?;
    Ok(())
}
