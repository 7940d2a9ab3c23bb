ghost use Rattle.std.specs.Prelude.{◌≡◌, ◌≤◌, length};
ghost use Rattle.std.specs.List.{prefix_len};
ghost use Rattle.hold_base.specs.NameBytes.{is_printed};
ghost use Rattle.hold_vlex.specs.Bytes.{begins_word, is_in_directive, continues_word, begins_number, continues_number, is_base};

use hold_base::is_printed;

/// What a simple identifier or a keyword begins with: a letter or `_`.
pub fn begins_word(b: u8) -> bool
    ensures { result ≡ begins_word b }
{
    b.is_ascii_alphabetic() || b == b'_'
}

/// What a number begins with: a digit or an apostrophe.
pub fn begins_number(b: u8) -> bool
    ensures { result ≡ begins_number b }
{
    b.is_ascii_digit() || b == b'\''
}

/// The letter of a base: b, d, h or o in either case.
pub fn is_base(b: u8) -> bool
    ensures { result ≡ is_base b }
{
    matches!(b, b'B' | b'D' | b'H' | b'O' | b'b' | b'd' | b'h' | b'o')
}

fn is_in_directive(b: u8) -> bool
    ensures { result ≡ is_in_directive b }
{
    b.is_ascii_alphanumeric() || b == b'_'
}

fn continues_word(b: u8) -> bool
    ensures { result ≡ continues_word b }
{
    is_in_directive(b) || b == b'$'
}

fn continues_number(b: u8) -> bool
    ensures { result ≡ continues_number b }
{
    continues_word(b) || b == b'\''
}

/// How many printed bytes stand at the front.
pub fn printed_len(text: &[u8]) -> usize
    ensures value { result ≡ prefix_len is_printed text.now }
    ensures within { result ≤ length text.now }
{
    text.iter().take_while(|b| is_printed(**b)).count()
}

/// How many bytes at the front belong to the name of a directive: letters, digits and `_`.
pub fn directive_len(text: &[u8]) -> usize
    ensures value { result ≡ prefix_len is_in_directive text.now }
    ensures within { result ≤ length text.now }
{
    text.iter().take_while(|b| is_in_directive(**b)).count()
}

/// How many bytes at the front continue a word: letters, digits, `_` and `$`.
pub fn word_len(text: &[u8]) -> usize
    ensures value { result ≡ prefix_len continues_word text.now }
    ensures within { result ≤ length text.now }
{
    text.iter().take_while(|b| continues_word(**b)).count()
}

/// How many bytes at the front continue a number: what continues a word, and apostrophes.
pub fn number_len(text: &[u8]) -> usize
    ensures value { result ≡ prefix_len continues_number text.now }
    ensures within { result ≤ length text.now }
{
    text.iter().take_while(|b| continues_number(**b)).count()
}
