ghost use Rattle.std.specs.Prelude.{◌≡◌, ◌<◌, ℕ, List, IfOk, Ok, Err, length};
ghost use Rattle.hold_base.specs.Answers.{Answers, IfFault};
ghost use Rattle.hold_base.specs.declared.plan.PlanLine.{PlanLine};
ghost use Rattle.hold_certtext.specs.Lines.{IsFirstBad};
ghost use Rattle.hold_certtext.specs.PlanText.{IsPlan, IsPlanFaultOf, IsPlanOf};

use crate::line::next_line;
use crate::plan_draft::PlanDraft;
use hold_base::{List, PlanFault, PlanLine, Stop};
use std::alloc::Global;

/// The lines of the plan that the text is of, or the first line that can't stand there. Time and memory are linear in the text.
pub fn read_plan(alloc: Global, text: &[u8]) -> Result<List<PlanLine>, Stop<PlanFault>>
    requires { length text.now < 4294967296 }
    // What is read is spelled so.
    ensures plan { IfOk result (IsPlanOf text.now) }
    // What is spelled so is read, unless memory runs out.
    ensures read { (lines : List PlanLine) → IsPlanOf text.now lines → Answers result (Ok lines) }
    // A line is refused where it is the first bad one.
    ensures fault { IfFault result (IsPlanFaultOf text.now) }
    // Where a line is the first bad one it is refused, unless memory runs out.
    ensures refused { (number : ℕ) → IsFirstBad IsPlan text.now number → Answers result (Err (PlanFault.Line number)) }
{
    read_lines(alloc, text)
}

/// Takes line after line until the plan is whole.
fn read_lines(alloc: Global, text: &[u8]) -> Result<List<PlanLine>, Stop<PlanFault>>
    requires { length text.now < 4294967296 }
    ensures plan { IfOk result (IsPlanOf text.now) }
    ensures fault { IfFault result (IsPlanFaultOf text.now) }
{
    let mut draft = PlanDraft::new(alloc);
    let mut rest = text;
    let mut number = 1;
    while !draft.is_whole() {
        let Some((line, behind)) = next_line(rest) else {
            return Err(Stop::Fault(PlanFault::Line(number)));
        };
        if !draft.take(alloc, line)? {
            return Err(Stop::Fault(PlanFault::Line(number)));
        }
        rest = behind;
        number += 1;
    }
    if rest.is_empty() {
        Ok(draft.finish())
    } else {
        Err(Stop::Fault(PlanFault::Line(number)))
    }
}

/// Does nothing. A proof learns from the call that a text is that of one plan.
pub fn know_one_plan()
    ensures { (text : List ℕ) (a b : List PlanLine) → IsPlanOf text a → IsPlanOf text b → a ≡ b }
{}
