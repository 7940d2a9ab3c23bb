ghost use Rattle.std.specs.Prelude.{◌≡◌, ◌+◌, ◌*◌, ◌<◌, ◌≤◌, length, slice_get, All};
ghost use Rattle.hold_proof.specs.Closing.{IsFit, ListsChecked};
ghost use Rattle.hold_proof.specs.inner.Basis.{IsBasis};
ghost use Rattle.hold_proof.specs.inner.Changes.{IsSettled, norm_limit};
ghost use Rattle.hold_proof.specs.inner.Forms.{norm};
ghost use Rattle.hold_proof.specs.inner.LeafTerms.{chains_vars, leaf_vars, listed_vars, paths_vars};
ghost use Rattle.hold_proof.specs.inner.Over.{IsOver};

use crate::basis::Basis;
use crate::gaps::settle_site;
use crate::node::Leaf;
use crate::paths::{Over, settle_path};
use crate::weighing::steps_of;
use hold_base::{PathNo, SiteNo};

/// Clears the factors along a listed path, and gives the sum of their gaps.
fn settle_listed(
    factors: &mut Vec<i128>,
    basis: &Basis<'_>,
    over: &Over<'_>,
    number: PathNo,
) -> i128
    requires basis { IsBasis basis.now }
    requires costs { over.now.costs.now ≡ basis.now.problem.now.costs }
    requires each { length basis.now.sites.now * length over.now.costs.now ≤ length factors.old.items }
    requires listed { ListsChecked basis.now.problem.now basis.now.paths.now number }
    requires over { IsOver (length factors.old.items) over.now }
    requires norm { norm factors.old.items ≤ norm_limit }
    ensures { IsSettled over.now.costs.now over.now.scale over.now.low.now over.now.high.now
        (listed_vars basis.now.problem.now basis.now.sites.now (slice_get basis.now.paths.now number.0)) factors.old.items factors.new.items result }
{
    let path = &basis.paths[number.0 as usize];
    let steps = steps_of(path.pins.as_slice());
    settle_path(factors, &basis.problem.graph, basis.sites, over, steps)
}

/// Clears the factors along listed paths, and gives the sum of their gaps.
fn settle_paths(
    factors: &mut Vec<i128>,
    basis: &Basis<'_>,
    over: &Over<'_>,
    terms: &[(PathNo, u64)],
) -> i128
    requires basis { IsBasis basis.now }
    requires costs { over.now.costs.now ≡ basis.now.problem.now.costs }
    requires each { length basis.now.sites.now * length over.now.costs.now ≤ length factors.old.items }
    requires listed { All (λ term. ListsChecked basis.now.problem.now basis.now.paths.now term.0) terms.now }
    requires over { IsOver (length factors.old.items) over.now }
    requires norm { norm factors.old.items ≤ norm_limit }
    ensures { IsSettled over.now.costs.now over.now.scale over.now.low.now over.now.high.now
        (paths_vars basis.now.problem.now basis.now.sites.now basis.now.paths.now terms.now) factors.old.items factors.new.items result }
{
    let mut sum = 0;
    for term in terms {
        sum += settle_listed(factors, basis, over, term.0);
    }
    sum
}

/// Clears the factors at sites, and gives the sum of their gaps.
fn settle_chains(
    factors: &mut Vec<i128>,
    basis: &Basis<'_>,
    over: &Over<'_>,
    terms: &[(SiteNo, u64)],
) -> i128
    requires each { length basis.now.sites.now * length over.now.costs.now ≤ length factors.old.items }
    requires there { All (λ term. term.0.0 < length basis.now.sites.now) terms.now }
    requires over { IsOver (length factors.old.items) over.now }
    requires norm { norm factors.old.items ≤ norm_limit }
    ensures { IsSettled over.now.costs.now over.now.scale over.now.low.now over.now.high.now
        (chains_vars (length over.now.costs.now) terms.now) factors.old.items factors.new.items result }
{
    let mut sum = 0;
    for term in terms {
        sum += settle_site(factors, term.0, over.scale, over.costs, over.low, over.high);
    }
    sum
}

/// Clears the factors of a leaf, and gives the sum of their gaps.
pub(crate) fn settle_leaf(
    factors: &mut Vec<i128>,
    basis: &Basis<'_>,
    over: &Over<'_>,
    leaf: &Leaf,
) -> i128
    requires basis { IsBasis basis.now }
    requires costs { over.now.costs.now ≡ basis.now.problem.now.costs }
    requires each { length basis.now.sites.now * length over.now.costs.now ≤ length factors.old.items }
    requires fit { IsFit basis.now.problem.now basis.now.sites.now basis.now.paths.now leaf.now }
    requires over { IsOver (length factors.old.items) over.now }
    requires norm { norm factors.old.items ≤ norm_limit }
    ensures { IsSettled basis.now.problem.now.costs over.now.scale over.now.low.now over.now.high.now
        (leaf_vars basis.now.problem.now basis.now.sites.now basis.now.paths.now leaf.now) factors.old.items factors.new.items result }
{
    let paths = settle_paths(factors, basis, over, leaf.paths.as_slice());
    let chains = settle_chains(factors, basis, over, leaf.chains.as_slice());
    paths + chains
}
