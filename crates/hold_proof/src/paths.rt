ghost use Rattle.std.specs.Prelude.{◌≡◌, ◌+◌, ◌*◌, ◌≤◌, length, All};
ghost use Rattle.hold_base.specs.Limits.{kinds_limit, time_limit};
ghost use Rattle.hold_graph.specs.Problem.{IsSpan};
ghost use Rattle.hold_graph.specs.Sites.{AreSites};
ghost use Rattle.hold_proof.specs.Closing.{weight_limit};
ghost use Rattle.hold_proof.specs.inner.Forms.{norm};
ghost use Rattle.hold_proof.specs.inner.LeafTerms.{path_numbers, pins_terms, pins_vars, site_at, site_terms, site_vars};
ghost use Rattle.hold_proof.specs.inner.Changes.{IsRaised, IsSettled, norm_limit, site_unit};
ghost use Rattle.hold_proof.specs.inner.Over.{IsOver};

use crate::factors::add_path_site;
use crate::gaps::settle_site;
use hold_base::{Interval, PinNo, Side};
use hold_graph::Graph;

/// The costs of the kinds, how often they are taken, and the box over which factors are settled.
#[derive(Clone, Copy)]
pub(crate) struct Over<'a> {
    pub costs: &'a [u64],
    pub scale: u64,
    pub low: &'a [u8],
    pub high: &'a [u8],
}

/// Takes a path so often at one of its pins.
fn add_pin(
    factors: &mut Vec<i128>,
    graph: &Graph,
    sites: &[PinNo],
    side: Side,
    times: u64,
    kinds: &[Interval],
    pin: PinNo,
)
    requires sites { AreSites graph.now sites.now }
    requires each { length sites.now * length kinds.now ≤ length factors.old.items }
    requires weight { times ≤ weight_limit }
    requires spans { All (IsSpan time_limit) kinds.now }
    requires kinds { length kinds.now ≤ kinds_limit }
    requires room { norm factors.old.items + times * site_unit ≤ norm_limit }
    ensures { IsRaised (site_terms (length kinds.now) (site_at sites.now pin) (path_numbers side times kinds.now)) (times * site_unit)
        factors.old.items factors.new.items }
{
    if let Some(site) = graph.site_of(pin) {
        add_path_site(factors, site.0 as usize * kinds.len(), side, times, kinds);
    }
}

/// Takes a path so often at each of these pins of it.
pub(crate) fn add_path(
    factors: &mut Vec<i128>,
    graph: &Graph,
    sites: &[PinNo],
    side: Side,
    times: u64,
    kinds: &[Interval],
    pins: &[PinNo],
)
    requires sites { AreSites graph.now sites.now }
    requires each { length sites.now * length kinds.now ≤ length factors.old.items }
    requires weight { times ≤ weight_limit }
    requires spans { All (IsSpan time_limit) kinds.now }
    requires kinds { length kinds.now ≤ kinds_limit }
    requires room { norm factors.old.items + length pins.now * (times * site_unit) ≤ norm_limit }
    ensures { IsRaised (pins_terms (length kinds.now) sites.now (path_numbers side times kinds.now) pins.now) (length pins.now * (times * site_unit))
        factors.old.items factors.new.items }
{
    for pin in pins {
        add_pin(factors, graph, sites, side, times, kinds, *pin);
    }
}

/// Clears the factors at a pin, and gives the sum of their gaps.
fn settle_pin(
    factors: &mut Vec<i128>,
    graph: &Graph,
    sites: &[PinNo],
    over: &Over<'_>,
    pin: PinNo,
) -> i128
    requires sites { AreSites graph.now sites.now }
    requires each { length sites.now * length over.now.costs.now ≤ length factors.old.items }
    requires over { IsOver (length factors.old.items) over.now }
    requires norm { norm factors.old.items ≤ norm_limit }
    ensures { IsSettled over.now.costs.now over.now.scale over.now.low.now over.now.high.now (site_vars (length over.now.costs.now) (site_at sites.now pin))
        factors.old.items factors.new.items result }
{
    match graph.site_of(pin) {
        Some(site) => settle_site(factors, site, over.scale, over.costs, over.low, over.high),
        None => 0,
    }
}

/// Clears the factors at these pins, and gives the sum of their gaps.
pub(crate) fn settle_path(
    factors: &mut Vec<i128>,
    graph: &Graph,
    sites: &[PinNo],
    over: &Over<'_>,
    pins: &[PinNo],
) -> i128
    requires sites { AreSites graph.now sites.now }
    requires each { length sites.now * length over.now.costs.now ≤ length factors.old.items }
    requires over { IsOver (length factors.old.items) over.now }
    requires norm { norm factors.old.items ≤ norm_limit }
    ensures { IsSettled over.now.costs.now over.now.scale over.now.low.now over.now.high.now (pins_vars (length over.now.costs.now) sites.now pins.now)
        factors.old.items factors.new.items result }
{
    let mut sum = 0;
    for pin in pins {
        sum += settle_pin(factors, graph, sites, over, *pin);
    }
    sum
}
