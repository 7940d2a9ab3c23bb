ghost use Rattle.std.specs.Prelude.{◌≡◌, ◌++◌, All, OnOk, flat_map, map};
ghost use Rattle.hold_certtext.specs.CertificateText.{IsChainTermInRange, IsNodeInRange, IsPathTermInRange, chain_words, node_line, path_words};
ghost use Rattle.hold_certtext.specs.Lines.{after_space, ended, text_of};

use crate::put::{put_number, put_u8, put_u32};
use hold_base::{Memory, PathNo, SiteNo};
use hold_proof::Node;

/// Appends the terms of paths.
fn put_path_terms(out: &mut Vec<u8>, terms: &[(PathNo, u64)]) -> Result<(), Memory>
    ensures text { OnOk result (out.new.items ≡ out.old.items ++ flat_map after_space (flat_map path_words terms.now)) }
    ensures range { OnOk result (All IsPathTermInRange terms.now) }
{
    for term in terms {
        out.extend_from_slice(b" p")?;
        put_number(out, term.0.0)?;
        put_number(out, term.1)?;
    }
    Ok(())
}

/// Appends the terms of chain limits.
fn put_chain_terms(out: &mut Vec<u8>, terms: &[(SiteNo, u64)]) -> Result<(), Memory>
    ensures text { OnOk result (out.new.items ≡ out.old.items ++ flat_map after_space (flat_map chain_words terms.now)) }
    ensures range { OnOk result (All IsChainTermInRange terms.now) }
{
    for term in terms {
        out.extend_from_slice(b" s")?;
        put_u32(out, term.0.0)?;
        put_number(out, term.1)?;
    }
    Ok(())
}

/// Appends the line of a node.
fn put_node_line(out: &mut Vec<u8>, node: &Node) -> Result<(), Memory>
    ensures text { OnOk result (out.new.items ≡ out.old.items ++ ended (node_line node.now)) }
    ensures range { OnOk result (IsNodeInRange node.now) }
{
    match node {
        Node::Split { var, at } => {
            out.extend_from_slice(b"split")?;
            put_u32(out, var.0)?;
            put_u8(out, *at)?;
        }
        Node::Leaf(leaf) => {
            out.extend_from_slice(b"leaf")?;
            put_number(out, leaf.scale)?;
            put_path_terms(out, leaf.paths.as_slice())?;
            put_chain_terms(out, leaf.chains.as_slice())?;
        }
    }
    out.extend_from_slice(b"\n")?;
    Ok(())
}

/// Appends the lines of nodes.
pub(crate) fn put_node_lines(out: &mut Vec<u8>, nodes: &[Node]) -> Result<(), Memory>
    ensures text { OnOk result (out.new.items ≡ out.old.items ++ text_of (map node_line nodes.now)) }
    ensures range { OnOk result (All IsNodeInRange nodes.now) }
{
    for node in nodes {
        put_node_line(out, node)?;
    }
    Ok(())
}
