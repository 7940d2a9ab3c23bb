ghost use Rattle.std.specs.Prelude.{◌≡◌, ◌++◌, OnOk};
ghost use Rattle.hold_netlist.specs.CanonicalText.{range_text};

use hold_base::{Memory, put_number};

/// Appends the range of a declaration and a space; nothing for a scalar.
pub(crate) fn put_range(out: &mut Vec<u8>, range: Option<(u32, u32)>) -> Result<(), Memory>
    ensures { OnOk result (out.new.items ≡ out.old.items ++ range_text range) }
{
    if let Some((left, right)) = range {
        out.extend_from_slice(b"[")?;
        put_number(out, i64::from(left))?;
        out.extend_from_slice(b":")?;
        put_number(out, i64::from(right))?;
        out.extend_from_slice(b"] ")?;
    }
    Ok(())
}
