ghost use Rattle.std.specs.Prelude.{◌≡◌, ◌≤◌, IfOk, IfSome, codes, option_map};
ghost use Rattle.hold_proof.specs.Closing.{weight_limit};
ghost use Rattle.hold_certtext.specs.inner.Parsing.{leaf_in, path_no, site_no, terms_in};
ghost use Rattle.hold_certtext.specs.inner.Words.{left};

use crate::terms::Bounds;
use crate::words::Words;
use hold_base::{Memory, PathNo, SiteNo};
use hold_proof::{Leaf, Short};
use smallvec::SmallVec;
use std::alloc::Global;

/// One more than the greatest number of a site.
const SITES: u64 = 1 << 32;

/// The terms of paths, and the weight with them.
fn paths(
    alloc: Global,
    words: &mut Words<'_>,
    mut bounds: Bounds,
) -> Result<Option<(Short<(PathNo, u64), 4>, u64)>, Memory>
    requires { bounds.weight ≤ weight_limit }
    ensures weight { IfOk result (λ found. IfSome found (λ f. f.1 ≤ weight_limit)) }
    ensures value { IfOk result (λ found. terms_in path_no (codes "p") bounds (left words.old) ≡ option_map (λ f. (f.0, f.1, left words.new)) found) }
{
    let mut paths = SmallVec::new(alloc);
    while words.take(b"p") {
        let Some((number, times)) = bounds.term(words) else {
            return Ok(None);
        };
        paths.push((PathNo(number), times))?;
    }
    Ok(Some((Short::from_small(paths), bounds.weight)))
}

/// The terms of chain limits, and the weight with them.
fn chains(
    alloc: Global,
    words: &mut Words<'_>,
    mut bounds: Bounds,
) -> Result<Option<(Short<(SiteNo, u64), 2>, u64)>, Memory>
    requires weight { bounds.weight ≤ weight_limit }
    requires limit { bounds.limit ≤ 4294967296 }
    ensures { IfOk result (λ found. terms_in site_no (codes "s") bounds (left words.old) ≡ option_map (λ f. (f.0, f.1, left words.new)) found) }
{
    let mut chains = SmallVec::new(alloc);
    while words.take(b"s") {
        let Some((number, times)) = bounds.term(words) else {
            return Ok(None);
        };
        chains.push((SiteNo(number as u32), times))?;
    }
    Ok(Some((Short::from_small(chains), bounds.weight)))
}

/// A leaf that names paths below `path_count` and whose scale is at most `most_scale`.
pub(crate) fn leaf(
    alloc: Global,
    mut words: Words<'_>,
    path_count: u64,
    most_scale: u64,
) -> Result<Option<Leaf>, Memory>
    requires { most_scale ≤ weight_limit }
    ensures { IfOk result (λ leaf. leaf ≡ leaf_in path_count most_scale (left words.entry)) }
{
    let Some(scale) = words.number(most_scale) else {
        return Ok(None);
    };
    let of_paths = Bounds {
        least: 0,
        limit: path_count,
        weight: scale,
    };
    let Some((paths, weight)) = paths(alloc, &mut words, of_paths)? else {
        return Ok(None);
    };
    let of_chains = Bounds {
        least: 0,
        limit: SITES,
        weight,
    };
    let Some((chains, _)) = chains(alloc, &mut words, of_chains)? else {
        return Ok(None);
    };
    if !words.is_done() {
        return Ok(None);
    }
    Ok(Some(Leaf {
        scale,
        paths,
        chains,
    }))
}
