ghost use Rattle.std.specs.Prelude.{◌≡◌};
ghost use Rattle.std.specs.Char.{is_ascii_digit};
ghost use Rattle.std.specs.List.{list_all};
ghost use Rattle.hold_vlex.specs.Front.{number_sort, constant_sort};

use crate::bytes::is_base;
use crate::token::Sort;

/// The sort of a run that begins with a digit or an apostrophe.
#[tactic(auto, unfolding(crate::specs::Front::number_sort))]
pub fn number_sort(run: &[u8]) -> Sort
    ensures { result ≡ number_sort run.now }
{
    if has_digits_alone(run) {
        Sort::Number
    } else {
        constant_sort(run)
    }
}

fn constant_sort(run: &[u8]) -> Sort
    ensures { result ≡ constant_sort run.now }
{
    match run {
        [b'1', b'\'', base, b'0'] if is_base(*base) => Sort::Constant(false),
        [b'1', b'\'', base, b'1'] if is_base(*base) => Sort::Constant(true),
        _ => Sort::Other,
    }
}

fn has_digits_alone(run: &[u8]) -> bool
    ensures { result ≡ list_all is_ascii_digit run.now }
{
    run.iter().all(|b| b.is_ascii_digit())
}
