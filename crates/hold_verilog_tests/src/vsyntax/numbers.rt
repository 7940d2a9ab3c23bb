//! Numbers of any length: how far two of them are apart.

ghost use Rattle.std.specs.Prelude.{◌≡◌};
ghost use Rattle.std.specs.Char.{is_ascii_digit};
ghost use Rattle.std.specs.List.{list_all};

use hold_base::Memory;
use hold_vsyntax::number::{Digits, Number, are_equal, distance};
use std::alloc::Global;

/// Two numbers, and how far they are apart.
static DISTANCES: [(&'static [u8], &'static [u8], &'static [u8]); 10] = [
    (b"7", b"7", b"0"),
    (b"3", b"4294967295", b"4294967292"),
    (b"4294967296", b"4294967295", b"1"),
    (b"0", b"4294967296", b"4294967296"),
    (b"10000000000", b"10000000000", b"0"),
    (b"5", b"100000000000000000000", b"99999999999999999995"),
    (b"100000000000000000005", b"100000000000000000000", b"5"),
    (b"00099999999999999999999", b"100000000000000000000", b"1"),
    (
        b"9876543210987654321098",
        b"12345678901234567890123",
        b"2469135690246913569025",
    ),
    (
        b"1000000000000000000000000",
        b"4294967295",
        b"999999999999995705032705",
    ),
];

fn are_digits(text: &[u8]) -> bool
    ensures { result ≡ list_all is_ascii_digit text.now }
{
    text.iter().all(|b| b.is_ascii_digit())
}

/// The number that a row writes; want of memory also where it writes none.
fn number(alloc: Global, text: &[u8]) -> Result<Number, Memory> {
    if are_digits(text) {
        Number::from_digits(alloc, Digits { text })
    } else {
        Err(Memory)
    }
}

/// Whether two numbers are so far apart, either way round.
fn are_apart(alloc: Global, a: &[u8], b: &[u8], by: &[u8]) -> Result<bool, Memory> {
    let a = number(alloc, a)?;
    let b = number(alloc, b)?;
    let by = number(alloc, by)?;
    Ok(are_equal(&distance(alloc, &a, &b)?, &by) && are_equal(&distance(alloc, &b, &a)?, &by))
}

#[test]
fn numbers_are_so_far_apart(rt: HostRuntime) {
    for (i, (a, b, by)) in DISTANCES.iter().enumerate() {
        assert!(rt;
            matches!(are_apart(rt.alloc(), a, b, by), Ok(true)),
            "row {i}"
        );
    }
}
