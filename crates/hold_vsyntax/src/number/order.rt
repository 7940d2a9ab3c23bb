ghost use Rattle.std.specs.Prelude.{ℕ, ◌≡◌, ◌+◌, ◌-◌, ◌≤◌, ◌==◌, length, map, max, nat_le};
ghost use Rattle.std.specs.Ordering.{nat_cmp};
ghost use Rattle.hold_vsyntax.specs.inner.NumberOrder.{digits_of, digit, is_equal, is_not_greater};
ghost use Rattle.hold_vsyntax.specs.inner.Number.{value_of};

use crate::number::{Kept, Number};
use std::cmp::Ordering;

/// More than two digits of a small number's size come to.
const MOST: u64 = 1 << 33;

/// How many digits there are.
pub(super) fn places(kept: &Kept) -> usize
    ensures { result ≡ length (digits_of kept.now) }
{
    match kept {
        Kept::Small(_) => 1,
        Kept::Digits(digits) => digits.as_slice().len(),
    }
}

/// The digit that has so many behind it.
pub(super) fn digit_at(kept: &Kept, behind: usize) -> u64
    ensures digit { result ≡ digit behind (digits_of kept.now) }
    ensures small { result ≤ 4294967295 }
{
    match kept {
        Kept::Small(n) => { if behind == 0 { u64::from(*n) } else { 0 } }
        Kept::Digits(digits) => digit_in(digits.as_slice(), behind),
    }
}

/// The same of digits as they are written.
pub(super) fn digit_in(digits: &[u8], behind: usize) -> u64
    ensures digit { result ≡ digit behind (map (λ d. d - 48) digits.now) }
    ensures small { result ≤ 4294967295 }
{
    if behind < digits.len() {
        u64::from(digits[digits.len() - 1 - behind].saturating_sub(b'0'))
    } else {
        0
    }
}

/// The more of two counts of digits.
fn most_places(a: &Kept, b: &Kept) -> usize
    ensures { result ≡ max (length (digits_of a.now)) (length (digits_of b.now)) }
{
    places(a).max(places(b))
}

/// Does nothing. A proof learns from the call that each digit is small.
fn know_small(kept: &Kept)
    ensures { (k : ℕ) → digit k (digits_of kept.now) ≤ 4294967295 }
{
    match kept {
        Kept::Small(n) => {
            let _number = *n;
        }
        Kept::Digits(digits) => know_bytes(digits.as_slice()),
    }
}

/// The same of digits as they are written.
fn know_bytes(digits: &[u8])
    ensures { (k : ℕ) → digit k (map (λ d. d - 48) digits.now) ≤ 4294967295 }
{
    let _count = digits.len();
}

/// How the sum of two numbers as they are kept compares with that of two others, from the first place on.
fn kept_sum_order(a: &Kept, b: &Kept, c: &Kept, d: &Kept) -> Ordering
    ensures { result ≡ nat_cmp (value_of a.now + value_of b.now) (value_of c.now + value_of d.now) }
{
    know_small(a);
    know_small(b);
    know_small(c);
    know_small(d);
    let mut left = 0;
    let mut right = 0;
    let mut behind = most_places(a, b).max(most_places(c, d));
    while behind > 0 {
        behind -= 1;
        let more_left = left * 10 + digit_at(a, behind) + digit_at(b, behind);
        let more_right = right * 10 + digit_at(c, behind) + digit_at(d, behind);
        let both = more_left.min(more_right);
        left = more_left - both;
        right = more_right - both;
        if left >= MOST {
            return Ordering::Greater;
        }
        if right >= MOST {
            return Ordering::Less;
        }
    }
    left.cmp(&right)
}

/// How the sum of two numbers compares with that of two others.
fn sum_order(a: &Number, b: &Number, c: &Number, d: &Number) -> Ordering
    ensures { result ≡ nat_cmp (a.now + b.now) (c.now + d.now) }
{
    kept_sum_order(&a.kept, &b.kept, &c.kept, &d.kept)
}

fn is_equal_order(order: Ordering) -> bool
    ensures { result ≡ is_equal order }
{
    match order {
        Ordering::Equal => true,
        Ordering::Less | Ordering::Greater => false,
    }
}

fn is_not_greater_order(order: Ordering) -> bool
    ensures { result ≡ is_not_greater order }
{
    match order {
        Ordering::Greater => false,
        Ordering::Less | Ordering::Equal => true,
    }
}

/// Whether the sum of two numbers equals that of two others.
pub fn has_same_sums(a: &Number, b: &Number, c: &Number, d: &Number) -> bool
    ensures { result ≡ (a.now + b.now == c.now + d.now) }
{
    is_equal_order(sum_order(a, b, c, d))
}

/// Whether two numbers are equal.
pub fn are_equal(a: &Number, b: &Number) -> bool
    ensures { result ≡ (a.now == b.now) }
{
    has_same_sums(a, a, b, b)
}

/// Whether a number is at most another.
pub fn is_at_most(a: &Number, b: &Number) -> bool
    ensures { result ≡ nat_le a.now b.now }
{
    is_not_greater_order(sum_order(a, a, b, b))
}
