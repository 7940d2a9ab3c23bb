ghost use Rattle.std.specs.Prelude.{◌≡◌, ◌+◌, ◌*◌, ◌<◌, ◌≤◌, length, pos, neg_ℤ, ◌*ℤ◌, unsigned_abs, replicate, All};
ghost use Rattle.hold_base.specs.Limits.{time_limit};
ghost use Rattle.hold_graph.specs.Problem.{IsSpan};
ghost use Rattle.hold_proof.specs.Closing.{weight_limit};
ghost use Rattle.hold_proof.specs.inner.Forms.{raised, norm};
ghost use Rattle.hold_proof.specs.inner.LeafTerms.{gain, path_numbers, var_terms};
ghost use Rattle.hold_proof.specs.inner.Changes.{IsRaised, norm_limit};

use crate::wide;
use hold_base::{Interval, Side};

/// Adds to the factor of a variable.
fn raise(factors: &mut Vec<i128>, var: usize, by: i128)
    requires there { var < length factors.old.items }
    requires room { norm factors.old.items + unsigned_abs by ≤ norm_limit }
    ensures { factors.new.items ≡ raised factors.old.items var by }
{
    factors[var] += by;
}

/// What a path, taken so often, takes from the factor of a kind at one of its sites.
fn path_number(side: Side, times: u64, kind: Interval) -> i128
    requires weight { times ≤ weight_limit }
    requires span { IsSpan time_limit kind }
    ensures { result ≡ neg_ℤ (pos times *ℤ gain side kind) }
{
    match side {
        Side::Early => -wide::times(i128::from(kind.least), times),
        Side::Late => wide::times(i128::from(kind.greatest), times),
    }
}

/// Takes a path so often at a site whose first variable has this number.
pub(crate) fn add_path_site(
    factors: &mut Vec<i128>,
    first: usize,
    side: Side,
    times: u64,
    kinds: &[Interval],
)
    requires there { first + length kinds.now ≤ length factors.old.items }
    requires weight { times ≤ weight_limit }
    requires spans { All (IsSpan time_limit) kinds.now }
    requires room { norm factors.old.items + length kinds.now * (times * time_limit) ≤ norm_limit }
    ensures { IsRaised (var_terms first (path_numbers side times kinds.now)) (length kinds.now * (times * time_limit))
        factors.old.items factors.new.items }
{
    for (place, kind) in kinds.iter().enumerate() {
        raise(factors, first + place, path_number(side, times, *kind));
    }
}

/// Takes the chain limit of a site so often. Its first variable has this number, and it has one for each of so many kinds.
pub(crate) fn add_chain_site(factors: &mut Vec<i128>, first: usize, kinds: usize, times: u64)
    requires there { first + kinds ≤ length factors.old.items }
    requires room { norm factors.old.items + kinds * times ≤ norm_limit }
    ensures { IsRaised (var_terms first (replicate kinds (pos times))) (kinds * times) factors.old.items factors.new.items }
{
    for place in 0..kinds {
        raise(factors, first + place, i128::from(times));
    }
}
