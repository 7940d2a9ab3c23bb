ghost use Rattle.std.specs.Prelude.{◌≡◌, ◌++◌, All, map, IfOk, OnOk};
ghost use Rattle.hold_proof.specs.Spellable.{IsSpellable};
ghost use Rattle.hold_certtext.specs.CertificateText.{IsClaimInRange, IsCountInRange, IsPathInRange, IsTextOf, claim_lines, count_line, path_line};
ghost use Rattle.hold_certtext.specs.Lines.{ended, text_of};

use crate::put::{put_number, put_pins, put_u8, put_u32};
use crate::put_node::put_node_lines;
use hold_base::{Memory, Side, VarNo};
use hold_graph::Listed;
use hold_proof::{Certificate, Claim};
use std::alloc::Global;

/// The text of a certificate. Time and memory are linear in the text.
pub fn write(alloc: Global, certificate: &Certificate) -> Result<Vec<u8>, Memory>
    requires { IsSpellable certificate.now }
    ensures { IfOk result (λ text. IsTextOf text.items certificate.now) }
{
    let mut out = Vec::new(alloc);
    out.extend_from_slice(b"hold-certificate 1\n")?;
    put_claim_lines(&mut out, &certificate.claim)?;
    put_path_lines(&mut out, certificate.paths.as_slice())?;
    put_node_lines(&mut out, certificate.tree.nodes())?;
    out.extend_from_slice(b"end\n")?;
    Ok(out)
}

/// Appends the lines of the claim.
fn put_claim_lines(out: &mut Vec<u8>, claim: &Claim) -> Result<(), Memory>
    ensures text { OnOk result (out.new.items ≡ out.old.items ++ text_of (claim_lines claim.now)) }
    ensures range { OnOk result (IsClaimInRange claim.now) }
{
    match claim {
        Claim::Repaired { cost, counts } => {
            out.extend_from_slice(b"repaired")?;
            put_number(out, *cost)?;
            out.extend_from_slice(b"\n")?;
            put_count_lines(out, counts.as_slice())
        }
        Claim::Infeasible => {
            out.extend_from_slice(b"infeasible\n")?;
            Ok(())
        }
    }
}

/// Appends a line for each counted variable.
fn put_count_lines(out: &mut Vec<u8>, counts: &[(VarNo, u8)]) -> Result<(), Memory>
    ensures text { OnOk result (out.new.items ≡ out.old.items ++ text_of (map count_line counts.now)) }
    ensures range { OnOk result (All IsCountInRange counts.now) }
{
    for counted in counts {
        out.extend_from_slice(b"count")?;
        put_u32(out, counted.0.0)?;
        put_u8(out, counted.1)?;
        out.extend_from_slice(b"\n")?;
    }
    Ok(())
}

/// Appends the line of a listed path.
fn put_path_line(out: &mut Vec<u8>, path: &Listed) -> Result<(), Memory>
    ensures text { OnOk result (out.new.items ≡ out.old.items ++ ended (path_line path.now)) }
    ensures range { OnOk result (IsPathInRange path.now) }
{
    match path.side {
        Side::Early => out.extend_from_slice(b"path early")?,
        Side::Late => out.extend_from_slice(b"path late")?,
    }
    put_u8(out, path.corner.0)?;
    put_pins(out, path.pins.as_slice())?;
    out.extend_from_slice(b"\n")?;
    Ok(())
}

/// Appends the lines of the listed paths.
fn put_path_lines(out: &mut Vec<u8>, paths: &[Listed]) -> Result<(), Memory>
    ensures text { OnOk result (out.new.items ≡ out.old.items ++ text_of (map path_line paths.now)) }
    ensures range { OnOk result (All IsPathInRange paths.now) }
{
    for path in paths {
        put_path_line(out, path)?;
    }
    Ok(())
}
