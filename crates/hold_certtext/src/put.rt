ghost use Rattle.std.specs.Prelude.{◌≡◌, ◌++◌, ◌<◌, All, OnOk, decimal, flat_map, map};
ghost use Rattle.hold_base.specs.declared.number.PinNo.{PinNo as Pin};
ghost use Rattle.hold_certtext.specs.Lines.{after_space};

use hold_base::{Memory, PinNo};
use itoa::Buffer;

/// Appends a number after a space. A proof learns from the call that it is below 2^64.
pub(crate) fn put_number(out: &mut Vec<u8>, n: u64) -> Result<(), Memory>
    ensures text { OnOk result (out.new.items ≡ out.old.items ++ after_space (decimal n)) }
    ensures range { n < 18446744073709551616 }
{
    let mut buffer = Buffer::new();
    out.extend_from_slice(b" ")?;
    out.extend_from_slice(buffer.format(n).as_bytes())?;
    Ok(())
}

/// Appends a number after a space. A proof learns from the call that it is below 2^32.
pub(crate) fn put_u32(out: &mut Vec<u8>, n: u32) -> Result<(), Memory>
    ensures text { OnOk result (out.new.items ≡ out.old.items ++ after_space (decimal n)) }
    ensures range { n < 4294967296 }
{
    put_number(out, u64::from(n))
}

/// Appends a number after a space. A proof learns from the call that it is below 2^8.
pub(crate) fn put_u8(out: &mut Vec<u8>, n: u8) -> Result<(), Memory>
    ensures text { OnOk result (out.new.items ≡ out.old.items ++ after_space (decimal n)) }
    ensures range { n < 256 }
{
    put_number(out, u64::from(n))
}

/// Appends the numbers of pins, each after a space.
pub(crate) fn put_pins(out: &mut Vec<u8>, pins: &[PinNo]) -> Result<(), Memory>
    ensures text { OnOk result (out.new.items ≡ out.old.items ++ flat_map after_space (map (λ (pin : Pin). decimal pin.0) pins.now)) }
    ensures range { OnOk result (All (λ (pin : Pin). pin.0 < 4294967296) pins.now) }
{
    for pin in pins {
        put_u32(out, pin.0)?;
    }
    Ok(())
}
