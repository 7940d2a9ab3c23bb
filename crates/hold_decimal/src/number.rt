ghost use Rattle.std.specs.Prelude.{◌≡◌, ◌≤◌, ◌↔◌, if◌then◌else◌, pos, neg_ℤ, IfOk};
ghost use Rattle.hold_base.specs.declared.time.Interval.{Interval};
ghost use Rattle.hold_base.specs.Interval.{IsOrdered};
ghost use Rattle.hold_base.specs.Limits.{time_limit};
ghost use Rattle.hold_decimal.specs.Numeral.{Numeral, Spells};
ghost use Rattle.hold_decimal.specs.Rounding.{fraction_of, IsFloor, IsCeiling, PassesLimit, IsTime};

use crate::numeral::read_parts;
use crate::rounding::{Bounds, bounds_of};
use crate::scale::Scale;
use hold_base::Interval;
use thiserror::Error;

/// Why a text gives no time.
#[derive(Clone, Copy, Debug, PartialEq, Eq, Error)]
pub enum NumberFault {
    /// The text isn't a number.
    #[error("not a decimal number")]
    Shape,
    /// The number's floor or its ceiling passes 10^10 fs in magnitude.
    #[error("a time of more than 10^10 fs")]
    Range,
}

/// The whole femtoseconds on both sides of a number in a unit: the floor of its exact value and the ceiling,
/// which are one where the value is whole. A number is a sign or none, digits with at most one point and
/// at least one digit, and nothing more or an `e` or `E`, a sign or none and one to three digits. Its text
/// may be of any length.
///
/// `Shape` comes where the text isn't a number, `Range` where the floor or the ceiling passes 10^10 in
/// magnitude. Both are decided of the exact value: `1e-999` lies between 0 and 1, and `0e999` is 0.
pub fn to_fs(number: &[u8], scale: Scale) -> Result<Interval, NumberFault>
    // The text spells no number.
    ensures shape { (result ≡ Err NumberFault.Shape) ↔ ((n : Numeral) → Spells number.now n → ⊥) }
    ensures range { (result ≡ Err NumberFault.Range) ↔
        ((n : Numeral) × Spells number.now n × PassesLimit (fraction_of n scale.exponent)) }

    ensures floor { IfOk result (λ i. (n : Numeral) → Spells number.now n → IsFloor (fraction_of n scale.exponent) i.least) }
    ensures ceiling { IfOk result (λ i. (n : Numeral) → Spells number.now n → IsCeiling (fraction_of n scale.exponent) i.greatest) }
    ensures ordered { IfOk result (λ i. IsOrdered i) }

    // The same as one fact, and that a text that has a time is given it.
    ensures time { IfOk result (λ i. IsTime number.now scale.exponent i) }
    ensures only_time { (i : Interval) → IsTime number.now scale.exponent i → result ≡ Ok i }
{
    let Some(parts) = read_parts(number) else {
        return Err(NumberFault::Shape);
    };
    let up = parts.power.raise + usize::from(scale.exponent);
    let down = parts.part.len() + parts.power.lower;
    match bounds_of(parts.whole, parts.part, up, down) {
        Some(bounds) => Ok(with_sign(parts.negative, bounds)),
        None => Err(NumberFault::Range),
    }
}

// Below 0 the ends change places.
fn with_sign(negative: bool, bounds: Bounds) -> Interval
    requires floor { bounds.floor ≤ time_limit }
    requires ceiling { bounds.ceiling ≤ time_limit }
    ensures least { result.least ≡ (if negative then neg_ℤ (pos bounds.ceiling) else pos bounds.floor) }
    ensures greatest { result.greatest ≡ (if negative then neg_ℤ (pos bounds.floor) else pos bounds.ceiling) }
    ensures ordered { IsOrdered result }
{
    let floor = bounds.floor as i64;
    let ceiling = bounds.ceiling as i64;
    if negative {
        Interval {
            least: -ceiling,
            greatest: -floor,
        }
    } else {
        Interval {
            least: floor,
            greatest: ceiling,
        }
    }
}

#[cfg(test)]
mod tests {
    use super::*;

    fn between(least: i64, greatest: i64) -> Result<Interval, NumberFault> {
        Ok(Interval { least, greatest })
    }

    #[test]
    fn decimals(rt: HostRuntime) {
        let nanosecond = Scale { exponent: 6 };
        let rounded = [
            (b"0.0123456".as_slice(), 12345, 12346),
            (b"-0.0000001".as_slice(), -1, 0),
            (b"1e4".as_slice(), 10_000_000_000, 10_000_000_000),
            (b"-1e4".as_slice(), -10_000_000_000, -10_000_000_000),
            (b"-0.0".as_slice(), 0, 0),
            (b".5".as_slice(), 500_000, 500_000),
            (b"5.".as_slice(), 5_000_000, 5_000_000),
            (b"+5".as_slice(), 5_000_000, 5_000_000),
            (b"-.5e+3".as_slice(), -500_000_000, -500_000_000),
            (b"1.25E-6".as_slice(), 1, 2),
            (b"1e-999".as_slice(), 0, 1),
            (b"0e999".as_slice(), 0, 0),
        ];
        for (text, least, greatest) in rounded {
            assert_eq!(rt; to_fs(text, nanosecond), between(least, greatest));
        }
    }

    #[test]
    fn texts_that_are_no_number_or_too_great(rt: HostRuntime) {
        let nanosecond = Scale { exponent: 6 };
        let refused = [
            (b"1e5".as_slice(), NumberFault::Range),
            (b"-10000.0000001".as_slice(), NumberFault::Range),
            (b"1e999".as_slice(), NumberFault::Range),
            (b"".as_slice(), NumberFault::Shape),
            (b".".as_slice(), NumberFault::Shape),
            (b"-".as_slice(), NumberFault::Shape),
            (b"e3".as_slice(), NumberFault::Shape),
            (b"1e".as_slice(), NumberFault::Shape),
            (b"1e+".as_slice(), NumberFault::Shape),
            (b"1e1234".as_slice(), NumberFault::Shape),
            (b"--1".as_slice(), NumberFault::Shape),
            (b"1.2.3".as_slice(), NumberFault::Shape),
            (b"1 ".as_slice(), NumberFault::Shape),
        ];
        for (text, fault) in refused {
            assert_eq!(rt; to_fs(text, nanosecond), Err(fault));
        }
    }

    #[test]
    fn a_thousand_digits(rt: HostRuntime) {
        let mut text = [b'9'; 1005];
        text[1000..].copy_from_slice(b"e-999");
        assert_eq!(rt;
            to_fs(&text, Scale { exponent: 6 }),
            between(9_999_999, 10_000_000)
        );
        assert_eq!(rt;
            to_fs(&text, Scale { exponent: 10 }),
            Err(NumberFault::Range)
        );
    }
}
