ghost use Rattle.std.specs.Prelude.{◌≡◌, ◌++◌, IfOk, OnOk, codes, decimal};
ghost use Rattle.hold_insert.specs.NewNames.{stem, wire_name, inst_name};

use hold_base::{Memory, Name};
use itoa::Buffer;
use std::alloc::Global;

/// Appends the decimal text of a number.
fn put_decimal(out: &mut Vec<u8>, n: u32) -> Result<(), Memory>
    ensures { OnOk result (out.new.items ≡ out.old.items ++ decimal n) }
{
    let mut buffer = Buffer::new();
    out.extend_from_slice(buffer.format(n).as_bytes())?;
    Ok(())
}

/// The name of this number, letter and place.
fn new_name(alloc: Global, number: u32, letter: &[u8], place: u32) -> Result<Name, Memory>
    ensures { IfOk result (λ name. name ≡ stem number ++ (letter.now ++ decimal place)) }
{
    let mut text = Vec::new(alloc);
    text.extend_from_slice(b"hold_")?;
    put_decimal(&mut text, number)?;
    text.extend_from_slice(b"_")?;
    text.extend_from_slice(letter)?;
    put_decimal(&mut text, place)?;
    Name::from_bytes(alloc, text.as_slice())
}

/// The name of the new wire of a buffer.
pub(crate) fn wire_name(alloc: Global, number: u32, place: u32) -> Result<Name, Memory>
    ensures { IfOk result (λ name. name ≡ wire_name number place) }
{
    new_name(alloc, number, b"w", place)
}

/// The name of a buffer's instance.
pub(crate) fn inst_name(alloc: Global, number: u32, place: u32) -> Result<Name, Memory>
    ensures { IfOk result (λ name. name ≡ inst_name number place) }
{
    new_name(alloc, number, b"b", place)
}
