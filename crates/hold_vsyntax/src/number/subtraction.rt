ghost use Rattle.std.specs.Prelude.{◌≡◌, ◌+◌, ◌-◌, ◌*◌, ◌≤◌, reverse, IfOk, IsTrue};
ghost use Rattle.std.specs.Char.{is_ascii_digit};
ghost use Rattle.std.specs.List.{list_all};
ghost use Rattle.hold_base.specs.Digits.{number_of};
ghost use Rattle.hold_vsyntax.specs.inner.Number.{value_of};

use crate::number::order::{digit_at, digit_in, places};
use crate::number::{Digits, Kept, Number, is_at_most};
use hold_base::Memory;
use std::alloc::Global;

/// How far two numbers are apart.
pub fn distance(alloc: Global, a: &Number, b: &Number) -> Result<Number, Memory>
    ensures { IfOk result (λ n. n ≡ (a.now - b.now) + (b.now - a.now)) }
{
    match (&a.kept, &b.kept) {
        (Kept::Small(x), Kept::Small(y)) => Ok(Number {
            kept: Kept::Small(x.abs_diff(*y)),
        }),
        (Kept::Small(_), Kept::Digits(greater)) => difference(alloc, greater.as_slice(), &a.kept),
        (Kept::Digits(greater), Kept::Small(_)) => difference(alloc, greater.as_slice(), &b.kept),
        (Kept::Digits(x), Kept::Digits(y)) => {
            if is_at_most(b, a) {
                difference(alloc, x.as_slice(), &b.kept)
            } else {
                difference(alloc, y.as_slice(), &a.kept)
            }
        }
    }
}

/// What is left of a number that digits write, once one that isn't greater is taken from it.
fn difference(alloc: Global, greater: &[u8], less: &Kept) -> Result<Number, Memory>
    requires digits { IsTrue (list_all is_ascii_digit greater.now) }
    requires less { value_of less.now ≤ number_of greater.now }
    ensures { IfOk result (λ n. n ≡ number_of greater.now - value_of less.now) }
{
    let mut digits = lowest_first(alloc, greater, less)?;
    digits.reverse();
    Number::from_digits(alloc, Digits { text: &digits })
}

/// The digits of that difference, the last of them first. What a place lacks is lent to it by the next one in tens.
fn lowest_first(alloc: Global, greater: &[u8], less: &Kept) -> Result<Vec<u8>, Memory>
    requires digits { IsTrue (list_all is_ascii_digit greater.now) }
    requires less { value_of less.now ≤ number_of greater.now }
    ensures digits { IfOk result (λ ds. IsTrue (list_all is_ascii_digit (reverse ds.items))) }
    ensures value { IfOk result (λ ds. number_of (reverse ds.items) + value_of less.now ≡ number_of greater.now) }
{
    let count = greater.len().max(places(less));
    let mut digits = Vec::with_capacity(alloc, count)?;
    let mut owed = 0;
    for behind in 0..count {
        let has = digit_in(greater, behind);
        let due = digit_at(less, behind) + owed;
        owed = tens_lent(has, due);
        digits.push(b'0' + (has + owed * 10 - due) as u8)?;
    }
    Ok(digits)
}

/// How many tens a place is lent, so that it has what is due.
fn tens_lent(has: u64, due: u64) -> u64
    requires { has ≤ 9 }
    ensures enough { due ≤ has + result * 10 }
    ensures tight { has + result * 10 ≤ due + 9 }
{
    due.saturating_sub(has).div_ceil(10)
}
