ghost use Rattle.std.specs.Prelude.{◌≡◌, ℕ, List, IfOk, Ok, Err};
ghost use Rattle.hold_base.specs.Answers.{Answers, IfFault};
ghost use Rattle.hold_proof.specs.Tree.{ProofTree, preorder};
ghost use Rattle.hold_proof.specs.declared.certificate.Certificate.{Certificate};
ghost use Rattle.hold_certtext.specs.CertificateText.{IsCertificate, IsFaultOf, IsTextOf};
ghost use Rattle.hold_certtext.specs.Lines.{IsFirstBad};
ghost use Rattle.hold_certtext.specs.inner.Reading.{IsDraftOf};

use crate::draft::Draft;
use crate::fault::CertFault;
use crate::line::next_line;
use hold_base::Stop;
use hold_proof::Certificate;
use std::alloc::Global;

/// The certificate that the text is of, or the first line that can't stand there. Time and memory are linear in the text.
pub fn read(alloc: Global, text: &[u8]) -> Result<Certificate, Stop<CertFault>>
    // What is read is spelled so.
    ensures certificate { IfOk result (IsTextOf text.now) }
    // What is spelled so is read, unless memory runs out.
    ensures read { (certificate : Certificate) → IsTextOf text.now certificate → Answers result (Ok certificate) }
    // A line is refused where it is the first bad one.
    ensures fault { IfFault result (IsFaultOf text.now) }
    // Where a line is the first bad one it is refused, unless memory runs out.
    ensures refused { (number : ℕ) → IsFirstBad IsCertificate text.now number → Answers result (Err (CertFault.Line number)) }
{
    read_certificate(alloc, text)
}

fn read_certificate(alloc: Global, text: &[u8]) -> Result<Certificate, Stop<CertFault>>
    ensures certificate { IfOk result (IsTextOf text.now) }
    ensures fault { IfFault result (IsFaultOf text.now) }
{
    match read_draft(alloc, text) {
        Ok(draft) => Ok(draft.finish()),
        Err(stop) => Err(stop),
    }
}

/// Takes line after line until the certificate is whole.
fn read_draft(alloc: Global, text: &[u8]) -> Result<Draft, Stop<CertFault>>
    ensures draft { IfOk result (IsDraftOf text.now) }
    ensures fault { IfFault result (IsFaultOf text.now) }
{
    let mut draft = Draft::new(alloc);
    let mut rest = text;
    let mut number = 1;
    while !draft.is_whole() {
        let Some((line, behind)) = next_line(rest) else {
            return Err(Stop::Fault(CertFault::Line(number)));
        };
        if !draft.take(alloc, line)? {
            return Err(Stop::Fault(CertFault::Line(number)));
        }
        rest = behind;
        number += 1;
    }
    if rest.is_empty() {
        Ok(draft)
    } else {
        Err(Stop::Fault(CertFault::Line(number)))
    }
}

/// Does nothing. A proof learns from the call that a text is that of one certificate.
pub fn know_one_certificate()
    ensures { (text : List ℕ) (a b : Certificate) → IsTextOf text a → IsTextOf text b → a ≡ b }
{}
