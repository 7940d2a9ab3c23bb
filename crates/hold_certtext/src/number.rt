ghost use Rattle.std.specs.Prelude.{◌≡◌};
ghost use Rattle.hold_certtext.specs.inner.Parsing.{read_number};

use itoa::Buffer;
use std::str;

/// The number below 2^64 whose decimal text the word is: digits alone, and no leading zero. It is read, printed and compared.
pub(crate) fn read_number(word: &[u8]) -> Option<u64>
    ensures { result ≡ read_number word.now }
{
    let Ok(text) = str::from_utf8(word) else {
        return None;
    };
    let Ok(n) = text.parse::<u64>() else {
        return None;
    };
    let mut buffer = Buffer::new();
    if buffer.format(n).as_bytes() == word {
        Some(n)
    } else {
        None
    }
}
