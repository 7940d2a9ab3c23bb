ghost use Rattle.std.specs.Prelude.{◌≡◌, ℕ, ◌+◌, ◌-◌, ◌*◌, ◌^◌, ◌<◌, ◌≤◌, ◌↔◌, ◌++◌, min, if◌then◌else◌, IsTrue, IfSome, IfNone, length};
ghost use Rattle.hold_decimal.specs.Numeral.{AllDigits};
ghost use Rattle.hold_base.specs.Digits.{number_of};
ghost use Rattle.hold_base.specs.Limits.{time_limit};
ghost use Rattle.hold_decimal.specs.inner.Reading.{IsCutOff, IsOutward};

use hold_base::limits;

/// The greatest magnitude of a time.
const LIMIT: u64 = limits::TIME as u64;

/// Where counting stops: what is past the limit is refused, whatever it is.
const PAST_LIMIT: u64 = LIMIT + 1;

/// The whole numbers beside a magnitude.
#[derive(Clone, Copy)]
pub struct Bounds {
    pub floor: u64,
    pub ceiling: u64,
    ghost ordered: { floor ≤ ceiling },
}

/// The count, made ten times as great by each digit and the digit added, or one past the limit where that is more.
pub fn counted_on(count: u64, digits: &[u8]) -> u64
    requires within { count ≤ time_limit + 1 }
    requires digits { AllDigits digits.now }
    ensures { result ≡ min (count * 10 ^ length digits.now + number_of digits.now) (time_limit + 1) }
{
    let mut count = count;
    for digit in digits {
        count = (count * 10 + u64::from(*digit - b'0')).min(PAST_LIMIT);
    }
    count
}

// The count with zeros behind it, or one past the limit where it is more.
#[tactic(auto, using(crate::proofs::Digits::capped_zero))]
fn with_zeros(count: u64, zeros: usize) -> u64
    requires { count ≤ time_limit + 1 }
    ensures { result ≡ min (count * 10 ^ zeros) (time_limit + 1) }
{
    let mut count = count;
    for _zero in 0..zeros {
        count = (count * 10).min(PAST_LIMIT);
    }
    count
}

fn are_zeros(digits: &[u8]) -> bool
    requires { AllDigits digits.now }
    ensures { IsTrue result ↔ (number_of digits.now ≡ 0) }
{
    for digit in digits {
        if *digit != b'0' {
            return false;
        }
    }
    true
}

// The number of the digits before and after the point, with zeros behind them, or one past the limit where it is more.
fn floor_of(whole: &[u8], part: &[u8], zeros: usize) -> u64
    requires whole_digits { AllDigits whole.now }
    requires part_digits { AllDigits part.now }
    ensures { result ≡ min (number_of (whole.now ++ part.now) * 10 ^ zeros) (time_limit + 1) }
{
    with_zeros(counted_on(counted_on(0, whole), part), zeros)
}

// Digits before and after a point, with those at the end cut off.
#[derive(Clone, Copy)]
struct Cut<'a> {
    whole: &'a [u8],
    part: &'a [u8],
    lost_whole: &'a [u8],
    lost_part: &'a [u8],
}

// Cuts off the last digits, as many as are lost, or all where there are fewer.
fn cut_off<'a>(whole: &'a [u8], part: &'a [u8], lost: usize) -> Cut<'a>
    requires whole_digits { AllDigits whole.now }
    requires part_digits { AllDigits part.now }
    ensures cut { IsCutOff (whole.now ++ part.now) (result.whole.now ++ result.part.now) (result.lost_whole.now ++ result.lost_part.now) lost }
    ensures whole { AllDigits result.whole.now }
    ensures part { AllDigits result.part.now }
    ensures lost_whole { AllDigits result.lost_whole.now }
    ensures lost_part { AllDigits result.lost_part.now }
{
    let lost_of_whole = lost.saturating_sub(part.len());
    let (kept_whole, lost_whole) = whole.split_at(whole.len().saturating_sub(lost_of_whole));
    let (kept_part, lost_part) = part.split_at(part.len().saturating_sub(lost));
    Cut {
        whole: kept_whole,
        part: kept_part,
        lost_whole,
        lost_part,
    }
}

// Whether nothing but zeros was cut off.
#[tactic(auto, using(crate::proofs::Digits::zero_parts))]
fn loses_zeros(cut: &Cut) -> bool
    requires whole { AllDigits cut.now.lost_whole.now }
    requires part { AllDigits cut.now.lost_part.now }
    ensures { IsTrue result ↔ (number_of (cut.now.lost_whole.now ++ cut.now.lost_part.now) ≡ 0) }
{
    are_zeros(cut.lost_whole) && are_zeros(cut.lost_part)
}

// A floor and the ceiling above it, which is the next number where the value isn't whole. None where that is past the limit.
fn within_limit(floor: u64, is_whole: bool) -> Option<Bounds>
    requires { floor ≤ time_limit + 1 }
    ensures floor { IfSome result (λ b. b.floor ≡ floor) }
    ensures ceiling { IfSome result (λ b. b.ceiling ≡ (if is_whole then floor else floor + 1)) }
    ensures within { IfSome result (λ b. b.ceiling ≤ time_limit) }
    ensures none { IfNone result (time_limit < (if is_whole then floor else floor + 1)) }
{
    let ceiling = if is_whole { floor } else { floor + 1 };
    if ceiling > LIMIT {
        return None;
    }
    Some(Bounds { floor, ceiling })
}

/// The whole numbers beside a number of digits times 10 ^ `up` / 10 ^ `down`. None where one of them passes the limit.
pub fn bounds_of(whole: &[u8], part: &[u8], up: usize, down: usize) -> Option<Bounds>
    requires whole_digits { AllDigits whole.now }
    requires part_digits { AllDigits part.now }
    ensures beside { IfSome result (λ b. IsOutward (number_of (whole.now ++ part.now) * 10 ^ up) (10 ^ down) b.floor b.ceiling) }
    ensures within { IfSome result (λ b. b.ceiling ≤ time_limit) }
    ensures none { IfNone result ((floor ceiling : ℕ) × IsOutward (number_of (whole.now ++ part.now) * 10 ^ up) (10 ^ down) floor ceiling × (time_limit < ceiling)) }
{
    let cut = cut_off(whole, part, down.saturating_sub(up));
    let floor = floor_of(cut.whole, cut.part, up.saturating_sub(down));
    within_limit(floor, loses_zeros(&cut))
}
