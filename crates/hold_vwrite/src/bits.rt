ghost use Rattle.std.specs.Prelude.{◌≡◌, ◌<◌, ◌++◌, OnOk};
ghost use Rattle.hold_netlist.specs.CanonicalText.{bit_text, bit_of_wire, source_text};
ghost use Rattle.hold_netlist.specs.Bits.{width_of};

use crate::name::put_name;
use hold_base::{Memory, NetNo};
use hold_netlist::{Netlist, Source, Wire, put_index};

/// Appends the bit of a wire that is `n` from its left bound.
fn put_bit_of_wire(out: &mut Vec<u8>, wire: &Wire, n: u32) -> Result<(), Memory>
    requires { n < width_of wire.now }
    ensures { OnOk result (out.new.items ≡ out.old.items ++ bit_of_wire wire.now n) }
{
    put_name(out, &wire.name)?;
    put_index(out, wire.range, n)
}

/// Appends a net bit; nothing past the last.
pub(crate) fn put_bit(out: &mut Vec<u8>, netlist: &Netlist, bit: NetNo) -> Result<(), Memory>
    ensures { OnOk result (out.new.items ≡ out.old.items ++ bit_text netlist.now.wires bit.0) }
{
    if let Some((place, n)) = netlist.net_bit(bit) {
        put_bit_of_wire(out, &netlist.wires()[place], n)?;
    }
    Ok(())
}

/// Appends a net bit or a constant; nothing for an empty connection.
pub(crate) fn put_source(out: &mut Vec<u8>, netlist: &Netlist, source: Source) -> Result<(), Memory>
    ensures { OnOk result (out.new.items ≡ out.old.items ++ source_text netlist.now.wires source) }
{
    match source {
        Source::Net(bit) => put_bit(out, netlist, bit)?,
        Source::Zero => out.extend_from_slice(b"1'b0")?,
        Source::One => out.extend_from_slice(b"1'b1")?,
        Source::Empty => {}
    }
    Ok(())
}
