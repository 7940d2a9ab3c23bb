ghost use Rattle.std.specs.Prelude.{◌≡◌, ◌≢◌, ◌<◌, ◌^◌, ◌++◌, ℕ, IfSome, IsNone, codes, decimal, length, slice_index};
ghost use Rattle.hold_insert.specs.NewNames.{stem, BeginsWith};

use itoa::Buffer;
use std::str;

/// The number whose decimal text this is: digits alone, and no leading zero. It is read, printed and compared.
fn read_number(text: &[u8]) -> Option<u32>
    ensures some { IfSome result (λ n. text.now ≡ decimal n) }
    ensures none { IsNone result → (n : ℕ) → n < 2 ^ 32 → text.now ≡ decimal n → ⊥ }
{
    let Ok(digits) = str::from_utf8(text) else {
        return None;
    };
    let Ok(n) = digits.parse::<u32>() else {
        return None;
    };
    let mut buffer = Buffer::new();
    if buffer.format(n).as_bytes() == text {
        Some(n)
    } else {
        None
    }
}

/// Where the first underscore stands.
fn first_underscore(text: &[u8]) -> Option<usize>
    ensures some { IfSome result (λ k. (k < length text.now) × (slice_index text.now k ≡ 95)) }
    ensures before { IfSome result (λ k. (j : ℕ) → j < k → slice_index text.now j ≢ 95) }
    ensures none { IsNone result → (j : ℕ) → j < length text.now → slice_index text.now j ≢ 95 }
{
    text.iter().position(|byte| *byte == b'_')
}

/// The number that stands before the first underscore of this text.
fn number_before(text: &[u8]) -> Option<u32>
    ensures some { IfSome result (λ n. BeginsWith (decimal n ++ codes "_") text.now) }
    ensures none { IsNone result → (n : ℕ) → n < 2 ^ 32 → BeginsWith (decimal n ++ codes "_") text.now → ⊥ }
{
    let Some(end) = first_underscore(text) else {
        return None;
    };
    let (digits, _) = text.split_at(end);
    read_number(digits)
}

/// The number whose new names a name looks like one of: it begins with `hold_`, the number and `_`.
pub(crate) fn number_of(name: &[u8]) -> Option<u32>
    ensures small { IfSome result (λ n. n < 2 ^ 32) }
    ensures some { IfSome result (λ n. BeginsWith (stem n) name.now) }
    ensures none { IsNone result → (n : ℕ) → n < 2 ^ 32 → BeginsWith (stem n) name.now → ⊥ }
{
    match name {
        [b'h', b'o', b'l', b'd', b'_', rest @ ..] => number_before(rest),
        _ => None,
    }
}
