ghost use Rattle.std.specs.Prelude.{◌≡◌, ◌++◌, ◌^◌, ◌<◌, ℕ, List, None, Some, IfSome, decimal};
ghost use Rattle.hold_told.specs.inner.Indexed.{IsLastOpen, index};

use itoa::Buffer;
use std::str;

/// The number below 2^64 whose decimal digits the text is, without leading zeros. It is read, printed and compared.
fn read_number(text: &[u8]) -> Option<u64>
    ensures some { IfSome result (λ n. text.now ≡ decimal n) }
    ensures each { (n : ℕ) → n < 2 ^ 64 → text.now ≡ decimal n → result ≡ Some n }
{
    let Ok(word) = str::from_utf8(text) else {
        return None;
    };
    let Ok(n) = word.parse::<u64>() else {
        return None;
    };
    let mut buffer = Buffer::new();
    if buffer.format(n).as_bytes() == text {
        Some(n)
    } else {
        None
    }
}

/// The number in brackets that the text is.
fn number_in_brackets(text: &[u8]) -> Option<u64>
    ensures some { IfSome result (λ n. text.now ≡ index n) }
    ensures each { (n : ℕ) → n < 2 ^ 64 → text.now ≡ index n → result ≡ Some n }
{
    match text {
        [b'[', digits @ .., b']'] => read_number(digits),
        _ => None,
    }
}

/// Where the last opening bracket of the text stands.
fn last_open(text: &[u8]) -> Option<usize>
    ensures { IsLastOpen text.now result }
{
    let mut last = None;
    for (at, byte) in text.iter().enumerate() {
        if *byte == b'[' {
            last = Some(at);
        }
    }
    last
}

/// The name and the number of a text that is a name and a number in brackets behind it.
pub(crate) fn indexed<'a>(text: &'a [u8]) -> Option<(&'a [u8], u64)>
    ensures some { IfSome result (λ found. text.now ≡ found.0.now ++ index found.1) }
    ensures small { IfSome result (λ found. found.1 < 2 ^ 64) }
    ensures none { result ≡ None → (name : List ℕ) (n : ℕ) → n < 2 ^ 64 → text.now ≡ name ++ index n → ⊥ }
{
    let Some(bracket) = last_open(text) else {
        return None;
    };
    let (name, rest) = text.split_at(bracket);
    match number_in_brackets(rest) {
        Some(n) => Some((name, n)),
        None => None,
    }
}
