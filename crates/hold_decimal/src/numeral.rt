ghost use Rattle.std.specs.Prelude.{◌≡◌, ℕ, ◌+◌, ◌≤◌, ◌↔◌, IsTrue, IfSome, IfNone, length};
ghost use Rattle.hold_decimal.specs.Numeral.{AllDigits, IsPower, IsExponent, Numeral, Spells};
ghost use Rattle.hold_decimal.specs.inner.Reading.{leading, front_digits, after_digits, begins_with, after_sign, part_of, after_part};

use crate::rounding::counted_on;

/// What an exponent does: it raises the number by a power of ten, or lowers it by one.
#[derive(Clone, Copy)]
pub struct Power {
    pub raise: usize,
    pub lower: usize,
    ghost small: { raise + lower ≤ 999 },
}

/// A number's text, cut into its parts.
#[derive(Clone, Copy)]
pub struct Parts<'a> {
    pub negative: bool,
    pub whole: &'a [u8],
    pub part: &'a [u8],
    pub power: Power,
}

/// Cuts a text into the parts of a number. None where it isn't a number.
pub fn read_parts(text: &[u8]) -> Option<Parts>
    ensures spelled { IfSome result (λ p. Spells text.now
        (record { negative = p.negative; whole = p.whole.now; part = p.part.now; raise = p.power.raise; lower = p.power.lower })) }
    ensures none { IfNone result ((n : Numeral) → Spells text.now n → ⊥) }
{
    let unsigned = skip_sign(text);
    let (whole, rest) = split_digits(unsigned);
    let (part, rest) = split_part(rest);
    if whole.is_empty() && part.is_empty() {
        return None;
    }
    let Some(power) = read_exponent(rest) else {
        return None;
    };
    Some(Parts {
        negative: is_negative(text),
        whole,
        part,
        power,
    })
}

fn is_negative(text: &[u8]) -> bool
    ensures { result ≡ begins_with 45 text.now }
{
    match text {
        [first, ..] => *first == b'-',
        [] => false,
    }
}

fn skip_sign(text: &[u8]) -> &[u8]
    ensures { result.now ≡ after_sign text.now }
{
    match text {
        [b'+' | b'-', rest @ ..] => rest,
        _ => text,
    }
}

// The digits that the text begins with, and what is behind them.
fn split_digits(text: &[u8]) -> (&[u8], &[u8])
    ensures digits { result.0.now ≡ front_digits text.now }
    ensures rest { result.1.now ≡ after_digits text.now }
{
    text.split_at(leading_digits(text))
}

#[tactic(auto, using(crate::proofs::Cuts::leading_within))]
fn leading_digits(text: &[u8]) -> usize
    ensures count { result ≡ leading text.now }
    ensures within { result ≤ length text.now }
{
    for (i, byte) in text.iter().enumerate() {
        if !byte.is_ascii_digit() {
            return i;
        }
    }
    text.len()
}

// The digits behind the point that the text begins with, and what is behind them.
fn split_part(text: &[u8]) -> (&[u8], &[u8])
    ensures part { result.0.now ≡ part_of text.now }
    ensures rest { result.1.now ≡ after_part text.now }
{
    match text {
        [b'.', rest @ ..] => split_digits(rest),
        _ => (&[], text),
    }
}

fn read_exponent(text: &[u8]) -> Option<Power>
    ensures some { IfSome result (λ p. IsExponent text.now p.raise p.lower) }
    ensures none { IfNone result ((raise lower : ℕ) → IsExponent text.now raise lower → ⊥) }
{
    match text {
        [] => Some(Power { raise: 0, lower: 0 }),
        [b'e' | b'E', rest @ ..] => read_power(rest),
        _ => None,
    }
}

fn read_power(text: &[u8]) -> Option<Power>
    ensures some { IfSome result (λ p. IsPower text.now p.raise p.lower) }
    ensures none { IfNone result ((raise lower : ℕ) → IsPower text.now raise lower → ⊥) }
{
    let digits = skip_sign(text);
    if !is_short_number(digits) {
        return None;
    }
    let size = counted_on(0, digits) as usize;
    if is_negative(text) {
        Some(Power {
            raise: 0,
            lower: size,
        })
    } else {
        Some(Power {
            raise: size,
            lower: 0,
        })
    }
}

// Whether the text is one to three digits.
fn is_short_number(text: &[u8]) -> bool
    ensures { IsTrue result ↔ (AllDigits text.now × (1 ≤ length text.now) × (length text.now ≤ 3)) }
{
    !text.is_empty() && text.len() <= 3 && are_digits(text)
}

#[tactic(auto, using(crate::proofs::Cuts::all_from_leading, crate::proofs::Cuts::leading_from_all))]
fn are_digits(text: &[u8]) -> bool
    ensures { IsTrue result ↔ AllDigits text.now }
{
    leading_digits(text) == text.len()
}
