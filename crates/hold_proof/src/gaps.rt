ghost use Rattle.std.specs.Prelude.{◌≡◌, ◌+◌, ◌*◌, ◌<◌, ◌≤◌, length, unsigned_abs, All};
ghost use Rattle.std.specs.List.{AllZip};
ghost use Rattle.hold_base.specs.Limits.{chain_limit, cost_limit};
ghost use Rattle.hold_proof.specs.Closing.{weight_limit};
ghost use Rattle.hold_proof.specs.inner.Forms.{norm};
ghost use Rattle.hold_proof.specs.inner.Gaps.{gap, least_times};
ghost use Rattle.hold_proof.specs.inner.LeafTerms.{vars_from};
ghost use Rattle.hold_proof.specs.inner.Changes.{IsSettled, norm_limit};

use crate::wide::times;
use hold_base::SiteNo;

/// The least of the factor times a count from low to high.
fn least_times(factor: i128, low: u8, high: u8) -> i128
    requires room { unsigned_abs factor ≤ 2 * norm_limit }
    requires low { low ≤ chain_limit }
    requires high { high ≤ chain_limit }
    ensures { result ≡ least_times factor low high }
{
    if factor < 0 {
        times(factor, u64::from(high))
    } else {
        times(factor, u64::from(low))
    }
}

/// How far the least of scale times cost and factor is above that of scale times cost alone, for counts from low to high.
fn gap(scale: u64, cost: u64, factor: i128, low: u8, high: u8) -> i128
    requires scale { scale ≤ weight_limit }
    requires cost { cost ≤ cost_limit }
    requires factor { unsigned_abs factor ≤ norm_limit }
    requires order { low ≤ high }
    requires high { high ≤ chain_limit }
    ensures { result ≡ gap (scale * cost) factor low high }
{
    let step = times(i128::from(scale), cost);
    least_times(step + factor, low, high) - times(step, u64::from(low))
}

/// Clears the factors at a site, and gives the sum of their gaps. There is a kind of buffer for each of these costs.
pub(crate) fn settle_site(
    factors: &mut Vec<i128>,
    site: SiteNo,
    scale: u64,
    costs: &[u64],
    low: &[u8],
    high: &[u8],
) -> i128
    requires there { site.0 * length costs.now + length costs.now ≤ length factors.old.items }
    requires low_each { length low.now ≡ length factors.old.items }
    requires high_each { length high.now ≡ length factors.old.items }
    requires ordered { AllZip (λ low high. low ≤ high) low.now high.now }
    requires most { All (λ high. high ≤ chain_limit) high.now }
    requires scale { scale ≤ weight_limit }
    requires costs { All (λ cost. cost ≤ cost_limit) costs.now }
    requires norm { norm factors.old.items ≤ norm_limit }
    ensures { IsSettled costs.now scale low.now high.now (vars_from (site.0 * length costs.now) (length costs.now))
        factors.old.items factors.new.items result }
{
    let first = site.0 as usize * costs.len();
    let mut sum = 0;
    for (place, cost) in costs.iter().enumerate() {
        let var = first + place;
        sum += gap(scale, *cost, factors[var], low[var], high[var]);
        factors[var] = 0;
    }
    sum
}
