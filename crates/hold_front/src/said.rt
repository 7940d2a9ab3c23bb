//! Parts of a line.

ghost use Rattle.std.specs.Prelude.{◌≡◌, ◌++◌, OnOk};
ghost use Rattle.hold_front.specs.RefusalLine.{placed, named, what_text};

use hold_base::{Memory, What};
use itoa::Buffer;

/// What passes its limit.
pub(crate) fn what_text(what: What) -> &'static [u8]
    ensures { result.now ≡ what_text what }
{
    match what {
        What::Bound => b"bound",
        What::Bits => b"bits",
        What::Instances => b"instances",
        What::Pins => b"pins",
        What::Assigns => b"assigns",
        What::Arcs => b"arcs",
    }
}

/// Appends a word, a space and a name.
pub(crate) fn put_named(out: &mut Vec<u8>, word: &[u8], name: &[u8]) -> Result<(), Memory>
    ensures { OnOk result (out.new.items ≡ out.old.items ++ named word.now name.now) }
{
    out.extend_from_slice(word)?;
    out.extend_from_slice(b" ")?;
    out.extend_from_slice(name)?;
    Ok(())
}

/// Appends a word, a space and a number.
pub(crate) fn put_placed(out: &mut Vec<u8>, word: &[u8], at: u64) -> Result<(), Memory>
    ensures { OnOk result (out.new.items ≡ out.old.items ++ placed word.now at) }
{
    let mut buffer = Buffer::new();
    put_named(out, word, buffer.format(at).as_bytes())
}
