//! Texts that tell names from others, joined to one.

ghost use Rattle.std.specs.Prelude.{◌≡◌, ◌++◌, OnOk};
ghost use Rattle.hold_values.specs.inner.Keys.{arc_text, check_text, ended};

use hold_base::Memory;

/// Appends the name so that where it ends can be told: a 1 before each byte, and a 0 at its end.
fn put_ended(key: &mut Vec<u8>, name: &[u8]) -> Result<(), Memory>
    ensures { OnOk result (key.new.items ≡ key.old.items ++ ended name.now) }
{
    for byte in name {
        key.push(1)?;
        key.push(*byte)?;
    }
    key.push(0)?;
    Ok(())
}

/// Makes the key that of a type's arc between two pins.
pub(crate) fn make_arc_key(
    key: &mut Vec<u8>,
    kind: &[u8],
    from: &[u8],
    to: &[u8],
) -> Result<(), Memory>
    ensures { OnOk result (key.new.items ≡ arc_text kind.now from.now to.now) }
{
    key.clear();
    put_ended(key, kind)?;
    put_ended(key, from)?;
    put_ended(key, to)
}

/// Makes the key that of a type's check of a pin.
pub(crate) fn make_check_key(key: &mut Vec<u8>, kind: &[u8], pin: &[u8]) -> Result<(), Memory>
    ensures { OnOk result (key.new.items ≡ check_text kind.now pin.now) }
{
    key.clear();
    put_ended(key, kind)?;
    put_ended(key, pin)
}
