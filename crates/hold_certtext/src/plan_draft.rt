ghost use Rattle.std.specs.Prelude.{◌≡◌, ◌↔◌, ◌<◌, IfOk, IsTrue, length};
ghost use Rattle.hold_certtext.specs.inner.Parsing.{guard};
ghost use Rattle.hold_certtext.specs.inner.PlanReading.{add_pad, plan_fill, plan_so_far, plan_start, plan_step};
ghost use Rattle.hold_certtext.specs.inner.Words.{left};

use crate::pad::pad;
use crate::words::Words;
use hold_base::{List, Memory, PlanLine};
use std::alloc::Global;

/// Where the text of a plan stands.
#[derive(Clone, Copy, PartialEq, Eq)]
pub(crate) enum PlanStage {
    /// Before its first line.
    Head,
    /// Behind it.
    Pads,
    /// Behind its last line.
    Whole,
}

/// What was read of a plan so far.
#[derive(Drop)]
pub(crate) struct PlanDraft {
    stage: PlanStage,
    lines: Vec<PlanLine>,
}

impl PlanDraft {
    pub(crate) fn new(alloc: Global) -> PlanDraft
        ensures { plan_so_far result ≡ plan_start }
    {
        PlanDraft {
            stage: PlanStage::Head,
            lines: Vec::new(alloc),
        }
    }

    /// Whether the last line was taken.
    pub(crate) fn is_whole(&self) -> bool
        ensures { IsTrue result ↔ (self.now.stage ≡ PlanStage.Whole) }
    {
        self.stage == PlanStage::Whole
    }

    /// The lines of the plan.
    pub(crate) fn finish(self) -> List<PlanLine>
        ensures { result ≡ self.lines.items }
    {
        let PlanDraft { lines, stage: _ } = self;
        List::from_vec(lines)
    }

    /// Takes the next line of the text. Answers whether it can stand there; if it can't, nothing more is read.
    pub(crate) fn take(&mut self, alloc: Global, line: &[u8]) -> Result<bool, Memory>
        requires { length self.old.lines.items < 4294967294 }
        ensures { IfOk result (λ taken. plan_step (plan_so_far self.old) line.now ≡ guard taken (plan_so_far self.new)) }
    {
        let words = Words::new(line);
        match self.stage {
            PlanStage::Head => Ok(self.take_head(words)),
            PlanStage::Pads => self.take_pad_or_end(alloc, words),
            PlanStage::Whole => Ok(false),
        }
    }

    fn take_head(&mut self, mut words: Words<'_>) -> bool
        ensures { plan_fill PlanStage.Head self.old.lines.items (left words.entry) ≡ guard result (plan_so_far self.new) }
    {
        let is_head = words.take(b"hold-plan") && words.is_word(b"1");
        if is_head {
            self.stage = PlanStage::Pads;
        }
        is_head
    }

    fn take_pad_or_end(&mut self, alloc: Global, mut words: Words<'_>) -> Result<bool, Memory>
        requires { length self.old.lines.items < 4294967294 }
        ensures { IfOk result (λ taken. plan_fill PlanStage.Pads self.old.lines.items (left words.entry) ≡ guard taken (plan_so_far self.new)) }
    {
        if words.take(b"pad") {
            self.stage = PlanStage::Pads;
            return self.add_pad(alloc, words);
        }
        let is_end = words.is_word(b"end");
        if is_end {
            self.stage = PlanStage::Whole;
        }
        Ok(is_end)
    }

    fn add_pad(&mut self, alloc: Global, words: Words<'_>) -> Result<bool, Memory>
        requires many { length self.old.lines.items < 4294967294 }
        requires stage { self.old.stage ≡ PlanStage.Pads }
        ensures { IfOk result (λ taken. add_pad self.old.lines.items (left words.entry) ≡ guard taken (plan_so_far self.new)) }
    {
        let number = self.lines.len() as u32 + 2;
        let Some(line) = pad(alloc, words, number)? else {
            return Ok(false);
        };
        self.lines.push(line)?;
        Ok(true)
    }
}
