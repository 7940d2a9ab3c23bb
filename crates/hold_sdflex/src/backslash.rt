ghost use Rattle.std.specs.Prelude.{◌≡◌, ◌<◌, length, IfOk, IfSome};
ghost use Rattle.hold_sdflex.specs.Backslashes.{plain, last_bare};

use hold_base::{Memory, Name};
use std::alloc::Global;

/// The name that an atom, or a part of one, spells: its bytes without the backslashes that made others plain.
#[tactic(auto, using(crate::proofs::Backslashes::plain_none))]
pub fn plain_name(alloc: Global, bytes: &[u8]) -> Result<Name, Memory>
    ensures { IfOk result (λ name. name ≡ plain bytes.now) }
{
    if bytes.contains(&b'\\') {
        Name::from_bytes(alloc, &plain_bytes(alloc, bytes)?)
    } else {
        Name::from_bytes(alloc, bytes)
    }
}

#[tactic(auto, using(crate::proofs::Backslashes::plain_steps))]
fn plain_bytes(alloc: Global, bytes: &[u8]) -> Result<Vec<u8>, Memory>
    ensures { IfOk result (λ text. text.items ≡ plain bytes.now) }
{
    let mut text = Vec::new(alloc);
    let mut taken = false;
    for byte in bytes {
        if taken {
            text.push(*byte)?;
            taken = false;
        } else if *byte == b'\\' {
            taken = true;
        } else {
            text.push(*byte)?;
        }
    }
    Ok(text)
}

/// The place of the last byte that is this sign and that no backslash made plain. Takes no memory.
#[tactic(auto, using(crate::proofs::Backslashes::bare_steps))]
pub fn last_bare(sign: u8, bytes: &[u8]) -> Option<usize>
    ensures place { result ≡ last_bare sign bytes.now }
    ensures within { IfSome result (λ place. place < length bytes.now) }
{
    let mut last = None;
    let mut taken = false;
    for (place, byte) in bytes.iter().enumerate() {
        if taken {
            taken = false;
        } else if *byte == b'\\' {
            taken = true;
        } else if *byte == sign {
            last = Some(place);
        }
    }
    last
}
