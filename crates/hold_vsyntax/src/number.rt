//! Numbers of any length, and what is asked of them.

ghost use Rattle.std.specs.Prelude.{◌≡◌, ◌≤◌, IfOk, IfSome, IfNone};
ghost use Rattle.hold_base.specs.Digits.{number_of};
ghost use Rattle.hold_vsyntax.specs.Number.{IsPlain};

mod digits;
mod order;
mod subtraction;

pub use digits::Digits;
use hold_base::{List, Memory};
use itoa::Buffer;
pub use order::{are_equal, has_same_sums, is_at_most};
use std::alloc::Global;
use std::marker::Model;
pub use subtraction::distance;

/// A number of any length, as decimal digits write it. A contract sees the number.
#[derive(Drop)]
pub struct Number {
    kept: Kept,
}

/// How a number is kept: one below 2^32, as most are, takes no memory of its own.
#[derive(Drop)]
enum Kept {
    Small(u32),
    Digits(List<u8>),
}

impl Model for Number {
    ghost use Rattle.std.specs.Prelude.{ℕ};
    ghost use Rattle.std.specs.Coded.{coded_ℕ};
    ghost use Rattle.hold_vsyntax.specs.inner.Number.{value_of, IsKept};

    ghost Value = { ℕ };

    ghost coded = { coded_ℕ };

    ghost view = { λ n. value_of n.kept };

    ghost invariant = { λ n. IsKept n.kept };
}

impl Number {
    /// The number that these digits write.
    pub fn from_digits(alloc: Global, digits: Digits<'_>) -> Result<Number, Memory>
        ensures { IfOk result (λ number. number ≡ number_of digits.entry.text.now) }
    {
        match small(digits.text) {
            Some(n) => Ok(Number {
                kept: Kept::Small(n),
            }),
            None => {
                let digits = Vec::from_slice(alloc, without_zeros(digits).text)?;
                Ok(Number {
                    kept: Kept::Digits(List::from_vec(digits)),
                })
            }
        }
    }

    /// Zero, which takes no memory.
    pub fn zero() -> Number
        ensures { result ≡ 0 }
    {
        Number {
            kept: Kept::Small(0),
        }
    }

    /// The number, where it is below 2^32.
    pub fn small(&self) -> Option<u32>
        ensures some { IfSome result (λ n. n ≡ self.now) }
        ensures none { IfNone result (4294967296 ≤ self.now) }
    {
        match &self.kept {
            Kept::Small(n) => Some(*n),
            Kept::Digits(_) => None,
        }
    }

    /// The number's digits without leading zeros, of which zero has none. The room is where those of a small number
    /// are written.
    pub fn plain_digits<'a>(&'a self, room: &'a mut Buffer) -> &'a [u8]
        ensures value { number_of result.now ≡ self.now }
        ensures plain { IsPlain result.now }
    {
        match &self.kept {
            Kept::Small(n) => {
                let digits = Digits {
                    text: room.format(*n).as_bytes(),
                };
                without_zeros(digits).text
            }
            Kept::Digits(digits) => digits.as_slice(),
        }
    }
}

/// These digits without leading zeros, which would only be walked again and again.
fn without_zeros(digits: Digits<'_>) -> Digits<'_>
    ensures value { number_of result.text.now ≡ number_of digits.entry.text.now }
    ensures plain { IsPlain result.text.now }
{
    let mut text = digits.text;
    while let [b'0', behind @ ..] = text {
        text = behind;
    }
    Digits { text }
}

/// The number that these digits write, where it is below 2^32.
fn small(digits: &[u8]) -> Option<u32>
    ensures some { IfSome result (λ n. n ≡ number_of digits.now) }
    ensures none { IfNone result (4294967296 ≤ number_of digits.now) }
{
    let mut number = 0;
    for digit in digits {
        number = number * 10 + u64::from(digit.saturating_sub(b'0'));
        if number > u64::from(u32::MAX) {
            return None;
        }
    }
    Some(number as u32)
}
