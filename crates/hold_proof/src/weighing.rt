ghost use Rattle.std.specs.Prelude.{◌≡◌, ◌+◌, ◌*◌, ◌<◌, ◌≤◌, length, drop, pos, ◌*ℤ◌, Some, slice_get, replicate, All};
ghost use Rattle.hold_base.specs.Limits.{chain_limit, kinds_limit};
ghost use Rattle.hold_graph.specs.Graph.{NamesItsPins};
ghost use Rattle.hold_graph.specs.Path.{IsCheckedPath};
ghost use Rattle.hold_graph.specs.Problem.{IsWithin};
ghost use Rattle.hold_proof.specs.Closing.{weight_limit, IsFit, ListsChecked};
ghost use Rattle.hold_proof.specs.inner.Basis.{IsBasis, total};
ghost use Rattle.hold_proof.specs.inner.Changes.{IsRaised, free_limit, norm_limit, path_unit};
ghost use Rattle.hold_proof.specs.inner.Forms.{norm};
ghost use Rattle.hold_proof.specs.inner.LeafTerms.{chains_free, chains_terms, free_excess, leaf_free, leaf_terms, listed_terms, paths_free, paths_terms, site_terms};

use crate::basis::Basis;
use crate::excess::free_excess;
use crate::factors::add_chain_site;
use crate::node::Leaf;
use crate::paths::add_path;
use crate::wide;
use hold_base::{PathNo, PinNo, SiteNo};
use hold_graph::{Graph, Listed};

/// The pins of a checked path, of which there are no more than the graph has.
fn pins_of<'a>(graph: &Graph, path: &'a Listed) -> &'a [PinNo]
    requires names { NamesItsPins graph.now }
    requires checked { IsCheckedPath graph.now path.now.pins }
    ensures pins { result.now ≡ path.now.pins }
    ensures few { length result.now ≤ graph.now.pins }
{
    // In an order of all pins each step leads forward, so a path has no pin twice.
    let _order = graph.order();
    path.pins.as_slice()
}

/// The pins behind the first.
pub(crate) fn steps_of(pins: &[PinNo]) -> &[PinNo]
    ensures { result.now ≡ drop 1 pins.now }
{
    match pins {
        [] => pins,
        [_, steps @ ..] => steps,
    }
}

/// Takes a listed path so often, and gives its excess without buffers so often.
fn add_listed(factors: &mut Vec<i128>, basis: &Basis<'_>, number: PathNo, times: u64) -> i128
    requires basis { IsBasis basis.now }
    requires each { length basis.now.sites.now * length basis.now.problem.now.costs ≤ length factors.old.items }
    requires listed { ListsChecked basis.now.problem.now basis.now.paths.now number }
    requires weight { times ≤ weight_limit }
    requires room { norm factors.old.items + times * path_unit ≤ norm_limit }
    ensures raised { IsRaised (listed_terms basis.now.problem.now basis.now.sites.now times (slice_get basis.now.paths.now number.0)) (times * path_unit)
        factors.old.items factors.new.items }
    ensures free { result ≡ pos times *ℤ free_excess basis.now.problem.now (slice_get basis.now.paths.now number.0) }
    ensures size { IsWithin (times * free_limit) result }
{
    let path = &basis.paths[number.0 as usize];
    let spans = &basis.problem.corners.as_slice()[path.corner.0 as usize];
    let pins = pins_of(&basis.problem.graph, path);
    let free = free_excess(
        basis.problem,
        basis.launches,
        basis.captures,
        spans,
        path.side,
        pins,
    );
    add_path(
        factors,
        &basis.problem.graph,
        basis.sites,
        path.side,
        times,
        spans.kinds.as_slice(),
        steps_of(pins),
    );
    wide::times(i128::from(free), times)
}

/// Takes listed paths, each so often, and gives the sum of their excesses without buffers.
fn add_paths(factors: &mut Vec<i128>, basis: &Basis<'_>, terms: &[(PathNo, u64)]) -> i128
    requires basis { IsBasis basis.now }
    requires each { length basis.now.sites.now * length basis.now.problem.now.costs ≤ length factors.old.items }
    requires listed { All (λ term. ListsChecked basis.now.problem.now basis.now.paths.now term.0) terms.now }
    requires weight { total terms.now ≤ weight_limit }
    requires room { norm factors.old.items + total terms.now * path_unit ≤ norm_limit }
    ensures raised { IsRaised (paths_terms basis.now.problem.now basis.now.sites.now basis.now.paths.now terms.now) (total terms.now * path_unit)
        factors.old.items factors.new.items }
    ensures free { result ≡ paths_free basis.now.problem.now basis.now.paths.now terms.now }
    ensures size { IsWithin (total terms.now * free_limit) result }
{
    let mut free = 0;
    for term in terms {
        free += add_listed(factors, basis, term.0, term.1);
    }
    free
}

/// Takes the chain limit of a site so often, and gives the limit so often.
fn add_chain(factors: &mut Vec<i128>, basis: &Basis<'_>, site: SiteNo, times: u64) -> i128
    requires basis { IsBasis basis.now }
    requires each { length basis.now.sites.now * length basis.now.problem.now.costs ≤ length factors.old.items }
    requires there { site.0 < length basis.now.sites.now }
    requires weight { times ≤ weight_limit }
    requires room { norm factors.old.items + times * kinds_limit ≤ norm_limit }
    ensures raised { IsRaised (site_terms (length basis.now.problem.now.costs) (Some site.0) (replicate (length basis.now.problem.now.costs) (pos times))) (times * kinds_limit)
        factors.old.items factors.new.items }
    ensures free { result ≡ pos (times * basis.now.problem.now.max_chain) }
{
    let kinds = basis.problem.costs.as_slice().len();
    add_chain_site(factors, site.0 as usize * kinds, kinds, times);
    wide::times(i128::from(basis.problem.max_chain), times)
}

/// Takes the chain limits of sites, each so often, and gives the sum of the limits.
fn add_chains(factors: &mut Vec<i128>, basis: &Basis<'_>, terms: &[(SiteNo, u64)]) -> i128
    requires basis { IsBasis basis.now }
    requires each { length basis.now.sites.now * length basis.now.problem.now.costs ≤ length factors.old.items }
    requires there { All (λ term. term.0.0 < length basis.now.sites.now) terms.now }
    requires weight { total terms.now ≤ weight_limit }
    requires room { norm factors.old.items + total terms.now * kinds_limit ≤ norm_limit }
    ensures raised { IsRaised (chains_terms (length basis.now.problem.now.costs) terms.now) (total terms.now * kinds_limit)
        factors.old.items factors.new.items }
    ensures free { result ≡ chains_free basis.now.problem.now.max_chain terms.now }
    ensures size { IsWithin (total terms.now * chain_limit) result }
{
    let mut free = 0;
    for term in terms {
        free += add_chain(factors, basis, term.0, term.1);
    }
    free
}

/// Takes all that a leaf takes, from factors that are 0, and gives the sum of what its paths and limits leave without buffers.
pub(crate) fn add_leaf(factors: &mut Vec<i128>, basis: &Basis<'_>, leaf: &Leaf) -> i128
    requires basis { IsBasis basis.now }
    requires clear { factors.old.items ≡ replicate (length basis.now.sites.now * length basis.now.problem.now.costs) (pos 0) }
    requires fit { IsFit basis.now.problem.now basis.now.sites.now basis.now.paths.now leaf.now }
    ensures raised { IsRaised (leaf_terms basis.now.problem.now basis.now.sites.now basis.now.paths.now leaf.now) norm_limit factors.old.items factors.new.items }
    ensures free { result ≡ leaf_free basis.now.problem.now basis.now.paths.now leaf.now }
    ensures size { IsWithin norm_limit result }
{
    let paths = add_paths(factors, basis, leaf.paths.as_slice());
    let chains = add_chains(factors, basis, leaf.chains.as_slice());
    paths + chains
}
