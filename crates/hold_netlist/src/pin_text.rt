ghost use Rattle.std.specs.Prelude.{◌≡◌, ◌<◌, ◌++◌, [], length, slice_index_or, OnOk};
ghost use Rattle.hold_netlist.specs.Bits.{width_of, width_of_range};
ghost use Rattle.hold_netlist.specs.CanonicalText.{index_text};
ghost use Rattle.hold_netlist.specs.PinText.{connection_names, wire_bit_name};

use crate::inst::Inst;
use crate::wire::Wire;
use hold_base::{Memory, put_number};

/// Appends the index of the bit that is `n` from the left bound, in brackets; nothing for a scalar.
pub fn put_index(out: &mut Vec<u8>, range: Option<(u32, u32)>, n: u32) -> Result<(), Memory>
    requires { n < width_of_range range }
    ensures { OnOk result (out.new.items ≡ out.old.items ++ index_text range n) }
{
    if let Some((left, right)) = range {
        let index = if left < right { left + n } else { left - n };
        out.extend_from_slice(b"[")?;
        put_number(out, i64::from(index))?;
        out.extend_from_slice(b"]")?;
    }
    Ok(())
}

/// Appends how the bit that is `n` from the left bound of a wire is said.
pub(crate) fn put_wire_bit(out: &mut Vec<u8>, wire: &Wire, n: u32) -> Result<(), Memory>
    requires { n < width_of wire.now }
    ensures { OnOk result (out.new.items ≡ out.old.items ++ wire_bit_name wire.now n) }
{
    out.extend_from_slice(wire.name.bytes())?;
    put_index(out, wire.range, n)
}

/// Appends how the connection at this place of an instance is said.
pub(crate) fn put_connection(out: &mut Vec<u8>, inst: &Inst, place: u32) -> Result<(), Memory>
    requires { place < length inst.now.pins }
    ensures { OnOk result (out.new.items ≡ out.old.items ++ slice_index_or (connection_names inst.now) place []) }
{
    out.extend_from_slice(inst.name.bytes())?;
    out.extend_from_slice(b"/")?;
    out.extend_from_slice(inst.pins.as_slice()[place as usize].name.bytes())?;
    Ok(())
}
