ghost use Rattle.std.specs.Prelude.{◌≡◌, ◌<◌, ◌↔◌, IsTrue, IfSome, List as Items, All};
ghost use Rattle.hold_base.specs.declared.number.PinNo.{PinNo as Pin};
ghost use Rattle.hold_graph.specs.Sites.{AreSites};
ghost use Rattle.hold_proof.specs.Closing.{IsFit, IsOfProblem};
ghost use Rattle.hold_proof.specs.inner.Fitness.{left_behind, left_of};

use crate::node::Leaf;
use hold_base::{PathNo, SiteNo};
use hold_graph::{Listed, Problem};

/// The greatest weight of a leaf.
const WEIGHT_LIMIT: u64 = 1 << 60;

/// What is left of a weight behind a term of this number, if the term may stand there.
fn left_behind(weight: u64, least: u64, count: u64, number: u64, times: u64) -> Option<u64>
    ensures left { result ≡ left_behind weight least count number times }
    ensures below { IfSome result (λ left. number < count) }
{
    if least <= number && number < count && 1 <= times && times <= weight {
        Some(weight - times)
    } else {
        None
    }
}

/// What is left of a weight behind the paths of a leaf, of which so many are listed.
fn left_of_paths(weight: u64, count: u64, terms: &[(PathNo, u64)]) -> Option<u64>
    ensures { result ≡ left_of (λ path. path.0) count 0 weight terms.now }
{
    let mut left = weight;
    let mut least = 0;
    for (path, times) in terms {
        let Some(now) = left_behind(left, least, count, path.0, *times) else {
            return None;
        };
        left = now;
        least = path.0 + 1;
    }
    Some(left)
}

/// What is left of a weight behind the chain limits of a leaf, where there are so many sites.
fn left_of_chains(weight: u64, count: u64, terms: &[(SiteNo, u64)]) -> Option<u64>
    ensures { result ≡ left_of (λ site. site.0) count 0 weight terms.now }
{
    let mut left = weight;
    let mut least = 0;
    for (site, times) in terms {
        let number = u64::from(site.0);
        let Some(now) = left_behind(left, least, count, number, *times) else {
            return None;
        };
        left = now;
        least = number + 1;
    }
    Some(left)
}

/// Whether `closes` may be asked of a leaf: whether it is orderly, and names listed paths and sites that are there. Takes no memory.
pub fn is_fit(problem: &Problem, paths: &[Listed], leaf: &Leaf) -> bool
    requires { All (IsOfProblem problem.now) paths.now }
    ensures { (sites : Items Pin) → AreSites problem.now.graph sites → IsTrue result ↔ IsFit problem.now sites paths.now leaf.now }
{
    if leaf.scale > WEIGHT_LIMIT {
        return false;
    }
    let weight = WEIGHT_LIMIT - leaf.scale;
    let sites = problem.graph.sites().len() as u64;
    match left_of_paths(weight, paths.len() as u64, leaf.paths.as_slice()) {
        Some(left) => left_of_chains(left, sites, leaf.chains.as_slice()).is_some(),
        None => false,
    }
}
