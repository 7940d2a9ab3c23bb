ghost use Rattle.std.specs.Prelude.{◌≡◌, ◌++◌, OnOk};
ghost use Rattle.std.specs.List.{list_all};
ghost use Rattle.hold_netlist.specs.CanonicalText.{spelled};
ghost use Rattle.hold_netlist.specs.Identifier;
ghost use Rattle.hold_netlist.specs.Identifier.{is_word_byte};

use hold_base::{Memory, Name};
use hold_netlist::is_keyword;

fn is_letter(byte: u8) -> bool
    ensures { result ≡ Identifier.is_letter byte }
{
    byte.is_ascii_alphabetic() || byte == b'_'
}

fn may_stand_in_word(byte: u8) -> bool
    ensures { result ≡ is_word_byte byte }
{
    is_letter(byte) || byte.is_ascii_digit() || byte == b'$'
}

/// Whether each byte may stand in a word.
fn has_word_bytes(text: &[u8]) -> bool
    ensures { result ≡ list_all is_word_byte text.now }
{
    for byte in text {
        if !may_stand_in_word(*byte) {
            return false;
        }
    }
    true
}

/// Whether a name is a simple identifier, which is written as it stands.
fn is_simple(text: &[u8]) -> bool
    ensures { result ≡ Identifier.is_simple text.now }
{
    match text {
        [] => false,
        [first, rest @ ..] => is_letter(*first) && has_word_bytes(rest) && !is_keyword(text),
    }
}

/// Appends a name as it is written: an escaped one with its backslash and the space that ends it.
pub(crate) fn put_name(out: &mut Vec<u8>, name: &Name) -> Result<(), Memory>
    ensures { OnOk result (out.new.items ≡ out.old.items ++ spelled name.now) }
{
    let text = name.bytes();
    if is_simple(text) {
        out.extend_from_slice(text)?;
    } else {
        out.extend_from_slice(b"\\")?;
        out.extend_from_slice(text)?;
        out.extend_from_slice(b" ")?;
    }
    Ok(())
}
