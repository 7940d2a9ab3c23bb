//! Certificates that are read and written back.

use hold_base::{CornerNo, Memory, PathNo, PinNo, Side, Stop, VarNo};
use hold_certtext::{CertFault, read, write};
use hold_graph::Listed;
use hold_proof::{Certificate, Claim, Leaf, Node};
use std::alloc::Global;
use std::test::Fail;

/// A repair of one chain of two buffers, and the leaf that shows it least.
pub(crate) const REPAIR: &[u8] =
    b"hold-certificate 1\nrepaired 6\ncount 1 2\npath early 0 2 3 4 6\nleaf 100 p 0 3\nend\n";

/// Each kind of line, and each kind of term.
pub(crate) const ALL_KINDS: &[u8] =
    b"hold-certificate 1\nrepaired 18446744073709551615\ncount 0 255\ncount 4294967295 1\npath early 255 0 4294967295\npath late 0 7 7 7\nsplit 4294967295 254\nsplit 0 0\nleaf 0\nleaf 1\nleaf 9 p 0 1 p 1 20 s 0 1 s 4294967295 2\nend\n";

/// Nothing meets, with no path listed.
const INFEASIBLE: &[u8] = b"hold-certificate 1\ninfeasible\nleaf 0 s 3 1\nend\n";

/// The greatest weight of a leaf, 2^60, of a scale and a multiplier.
const HEAVY: &[u8] =
    b"hold-certificate 1\nrepaired 0\npath late 0 1 2\nleaf 1152921504606846975 p 0 1\nend\n";

fn is_repair(claim: &Claim) -> bool {
    match claim {
        Claim::Repaired { cost, counts } => *cost == 6
            && counts.as_slice() == [(VarNo(1), 2)].as_slice(),
        Claim::Infeasible => false,
    }
}

fn is_path(path: &Listed) -> bool {
    path.side == Side::Early
        && path.corner == CornerNo(0)
        && path.pins.as_slice() == [PinNo(2), PinNo(3), PinNo(4), PinNo(6)].as_slice()
}

fn is_leaf(leaf: &Leaf) -> bool {
    leaf.scale == 100
        && leaf.paths.as_slice() == [(PathNo(0), 3)].as_slice()
        && leaf.chains.as_slice().is_empty()
}

/// Whether the tree is the one leaf.
fn is_one_leaf(nodes: &[Node]) -> bool {
    match nodes {
        [Node::Leaf(leaf)] => is_leaf(leaf),
        _ => false,
    }
}

fn is_expected(certificate: &Certificate) -> bool {
    match certificate.paths.as_slice() {
        [path] => is_repair(&certificate.claim)
            && is_path(path)
            && is_one_leaf(certificate.tree.nodes()),
        _ => false,
    }
}

/// Whether a text is read, and written back as it was.
pub(crate) fn is_kept(alloc: Global, text: &[u8]) -> Result<bool, Memory> {
    match read(alloc, text) {
        Ok(certificate) => Ok(write(alloc, &certificate)?.as_slice() == text),
        Err(Stop::Memory) => Err(Memory),
        Err(Stop::Fault(CertFault::Line(_))) => Ok(false),
    }
}

#[test]
fn a_repair_is_read_as_its_parts(rt: HostRuntime) -> Result<(), Fail> {
    let certificate = read(rt.alloc(), REPAIR)?;
    assert!(rt; is_expected(&certificate));
    Ok(())
}

#[test]
fn certificates_are_written_back_as_they_were(rt: HostRuntime) -> Result<(), Fail> {
    let alloc = rt.alloc();
    assert!(rt; is_kept(alloc, REPAIR)?);
    assert!(rt; is_kept(alloc, ALL_KINDS)?);
    assert!(rt; is_kept(alloc, INFEASIBLE)?);
    assert!(rt; is_kept(alloc, HEAVY)?);
    Ok(())
}

/// The text of a tree of so many splits, each the lower tree of the one before.
fn deep_text(alloc: Global, splits: u32) -> Result<Vec<u8>, Memory> {
    let mut text = Vec::from_slice(alloc, b"hold-certificate 1\ninfeasible\n")?;
    for _ in 0..splits {
        text.extend_from_slice(b"split 0 0\n")?;
    }
    for _ in 0..splits {
        text.extend_from_slice(b"leaf 0\n")?;
    }
    text.extend_from_slice(b"leaf 0\nend\n")?;
    Ok(text)
}

#[test]
fn a_tree_of_a_hundred_thousand_splits_is_written_back_as_it_was(
    rt: HostRuntime,
) -> Result<(), Fail> {
    let alloc = rt.alloc();
    let text = deep_text(alloc, 100_000)?;
    assert!(rt; is_kept(alloc, &text)?);
    Ok(())
}
