ghost use Rattle.std.specs.Prelude.{◌≡◌, ◌≢◌, ◌⊎◌, ℕ, ℤ, List, Some};
ghost use Rattle.hold_files.specs.Told.{Rose, Keeps, GoesOn, OnlyReads};
ghost use Rattle.hold_cli.specs.declared.outcome.Outcome.{Outcome as Answer};
ghost use Rattle.hold_cli.specs.declared.outcome.Fault.{Fault as Refusal};
ghost use Rattle.hold_cli.specs.Outcome.{GivesUp};
ghost use Rattle.hold_cli.specs.Command.{IsRepair};
ghost use Rattle.hold_cli.specs.Front.{IsJobAt, IsJobRead, IsNetlistRead, IsBuilt, BlamesNetlist, Blames, ComesTo, ComesToRead, IsTold, RefusesJob, Refuses, IsFront};
ghost use Rattle.hold_netlist.specs.Design.{Design};
ghost use Rattle.hold_netlist.specs.CanonicalText.{canonical_text};
ghost use Rattle.hold_cli.specs.declared.job_form.Job.{Job as JobData};
ghost use Rattle.hold_graph.specs.declared.problem.Listed.{Listed as Path};
ghost use Rattle.hold_graph.specs.Graph.{EndsOnce};
ghost use Rattle.hold_graph.specs.Problem.{IsValid};
ghost use Rattle.hold_graph.specs.Sums.{no_buffers};
ghost use Rattle.hold_graph.specs.Met.{IsMet, Misses};
ghost use Rattle.hold_plain.specs.Problem.{problem_of};
ghost use Rattle.hold_vparse.specs.Reads.{Reads};
ghost use Rattle.hold_cli.specs.PaddingLine.{padding_line};
ghost use Rattle.hold_cli.specs.RefusalLine.{refusal_line};
ghost use Rattle.hold_cli.specs.Answer.{usage_line, only_line, repair_texts, AreTexts, Comes, IsCalm};
ghost use Rattle.hold_cli.specs.inner.Answer.{IsAnswer, IsRefusal, IsDelivery};
ghost use Rattle.hold_cli.specs.Texts.{Ready, IsDone, Fails, FailsInLine, SaysNothing};

use crate::answer::{USAGE, say_line, write_repair};
use crate::command::repair_job;
use crate::front::{Front, read_front};
use crate::input::Stopped;
use crate::outcome::{Fault, Outcome};
use crate::padding::padding_line;
use crate::refusal::refusal_line;
use hold_base::{Memory, Name};
use hold_files::{Failed, Files};
use hold_graph::{Listed, worst_line};
use hold_vwrite::write;
use std::alloc::Global;

/// Does the work that the words ask for, over these files, and says one line.
pub fn run<F: Files>(alloc: Global, words: &[Name], files: &mut F) -> Outcome
    // No count falls, and what is told stays told.
    ensures goes_on { GoesOn (F.told files.old) (F.told files.new) }

    // Words that are no command.
    ensures words { result ≡ Outcome.Words → (job : List ℕ) → IsRepair words.now job → ⊥ }
    ensures only_words { ((job : List ℕ) → IsRepair words.now job → ⊥)
        → (result ≡ Outcome.Words) ⊎ (result ≡ Outcome.WriteFault) }
    ensures usage { result ≡ Outcome.Words
        → IsDone (F.told files.old) (F.told files.new) (only_line usage_line) }

    // An input that is refused.
    ensures refused { (name : List ℕ) (fault : Refusal) → IsRepair words.now name
        → IsTold (F.told files.old) name
        → result ≡ Outcome.Input fault → Refuses (F.told files.old) name fault }
    ensures first_refused { (name text : List ℕ) (fault : Refusal) → IsRepair words.now name
        → (F.told files.old).content name ≡ Some text
        → result ≡ Outcome.Input fault → RefusesJob (F.told files.old) name fault
        ⊎ ((job : JobData) × IsJobAt (F.told files.old) name job × BlamesNetlist (F.told files.old) job fault) }
    ensures refused_named { (name : List ℕ) (fault : Refusal) → IsRepair words.now name
        → result ≡ Outcome.Input fault → Blames (F.told files.old) name fault }
    ensures only_refused { (name : List ℕ) (fault : Refusal) → IsRepair words.now name
        → Refuses (F.told files.old) name fault
        → (result ≡ Outcome.Input fault) ⊎ GivesUp result }
    ensures refusal { (fault : Refusal) → result ≡ Outcome.Input fault
        → IsDone (F.told files.old) (F.told files.new) (only_line (refusal_line fault)) }

    // A repair: what is written, where nothing is refused and every path meets its checks. Read again, it is the
    // netlist that was read.
    ensures repaired { (name : List ℕ) (cost : ℕ) → IsRepair words.now name
        → IsTold (F.told files.old) name
        → result ≡ Outcome.Repaired cost
        → (job : JobData) × (netlist : Design) × IsFront (F.told files.old) name job netlist × (cost ≡ 0)
        × IsMet (problem_of job.timing netlist) no_buffers
        × IsDone (F.told files.old) (F.told files.new) (repair_texts job (canonical_text netlist))
        × Reads (canonical_text netlist) netlist }
    ensures repaired_texts { (name : List ℕ) (cost : ℕ) → IsRepair words.now name
        → result ≡ Outcome.Repaired cost
        → (job : JobData) × (netlist : Design) × IsJobRead (F.told files.old) name job
        × IsNetlistRead (F.told files.old) job netlist × IsBuilt job netlist × (cost ≡ 0)
        × IsMet (problem_of job.timing netlist) no_buffers
        × IsDone (F.told files.old) (F.told files.new) (repair_texts job (canonical_text netlist))
        × Reads (canonical_text netlist) netlist }
    ensures only_repaired { (name : List ℕ) (job : JobData) (netlist : Design)
        → IsRepair words.now name
        → IsFront (F.told files.old) name job netlist
        → IsMet (problem_of job.timing netlist) no_buffers
        → (result ≡ Outcome.Repaired 0) ⊎ GivesUp result }

    // A path that misses a check: it is said, and no file changes.
    ensures needs_padding { (name : List ℕ) (path : Path) (short : ℤ) → IsRepair words.now name
        → IsTold (F.told files.old) name
        → result ≡ Outcome.NeedsPadding path short
        → (job : JobData) × (netlist : Design) × IsFront (F.told files.old) name job netlist
        × Misses (problem_of job.timing netlist) no_buffers path short
        × IsDone (F.told files.old) (F.told files.new) (only_line (padding_line job netlist path short)) }
    ensures padding_said { (name : List ℕ) (path : Path) (short : ℤ) → IsRepair words.now name
        → result ≡ Outcome.NeedsPadding path short
        → (job : JobData) × (netlist : Design) × IsJobRead (F.told files.old) name job
        × IsNetlistRead (F.told files.old) job netlist × IsBuilt job netlist
        × Misses (problem_of job.timing netlist) no_buffers path short
        × IsDone (F.told files.old) (F.told files.new) (only_line (padding_line job netlist path short)) }
    ensures only_needs_padding { (name : List ℕ) (job : JobData) (netlist : Design)
        → IsRepair words.now name
        → IsFront (F.told files.old) name job netlist
        → (IsMet (problem_of job.timing netlist) no_buffers → ⊥)
        → ((path : Path) × (short : ℤ) × (result ≡ Outcome.NeedsPadding path short)) ⊎ GivesUp result }

    ensures complete { (name : List ℕ) (job : JobData) (netlist : Design) → IsRepair words.now name
        → IsFront (F.told files.old) name job netlist
        → IsCalm (F.told files.old) (F.told files.new) name job
        → (result ≡ Outcome.Repaired 0)
        ⊎ ((path : Path) × (short : ℤ) × (result ≡ Outcome.NeedsPadding path short))
        ⊎ (result ≡ Outcome.Memory) }

    // A file that can't be read.
    ensures read_fault { (file : List ℕ) → result ≡ Outcome.ReadFault file
        → Rose ((F.told files.old).read_faults file) ((F.told files.new).read_faults file) }
    ensures read_named { (name file : List ℕ) → IsRepair words.now name
        → result ≡ Outcome.ReadFault file → ComesToRead (F.told files.old) name file }
    ensures read_comes { (name text file : List ℕ) → IsRepair words.now name
        → (F.told files.old).content name ≡ Some text
        → result ≡ Outcome.ReadFault file → ComesTo (F.told files.old) name file }
    ensures read_commanded { (file : List ℕ) → result ≡ Outcome.ReadFault file
        → (name : List ℕ) × IsRepair words.now name }
    ensures unread { (file : List ℕ) → result ≡ Outcome.ReadFault file
        → SaysNothing (F.told files.old) (F.told files.new) }
    ensures only_read { (file : List ℕ) → result ≡ Outcome.ReadFault file
        → OnlyReads (F.told files.old) (F.told files.new) }

    // A file or a line that can't be written: another answer was ready.
    ensures write_fault { (name : List ℕ) → IsRepair words.now name → IsTold (F.told files.old) name
        → result ≡ Outcome.WriteFault
        → (answer : Answer) × (ready : Ready) × Comes (F.told files.old) name answer ready
        × Fails (F.told files.old) (F.told files.new) ready }
    ensures write_usage { ((job : List ℕ) → IsRepair words.now job → ⊥)
        → result ≡ Outcome.WriteFault
        → FailsInLine (F.told files.old) (F.told files.new) (only_line usage_line) }
    ensures write_texts { (name : List ℕ) → IsRepair words.now name → result ≡ Outcome.WriteFault
        → (ready : Ready) × AreTexts (F.told files.old) name ready
        × Fails (F.told files.old) (F.told files.new) ready }

    // No input is ever written.
    ensures job_stays { (name : List ℕ) → IsRepair words.now name
        → Keeps (F.told files.old) (F.told files.new) name }
    ensures netlist_stays { (name : List ℕ) (job : JobData) → IsRepair words.now name
        → IsJobAt (F.told files.old) name job
        → Keeps (F.told files.old) (F.told files.new) job.netlist }

    // Want of memory comes only to a command, and before anything is written.
    ensures memory { result ≡ Outcome.Memory → (name : List ℕ) × IsRepair words.now name }
    ensures unchanged { result ≡ Outcome.Memory
        → SaysNothing (F.told files.old) (F.told files.new) }
    ensures unwritten { result ≡ Outcome.Memory
        → OnlyReads (F.told files.old) (F.told files.new) }
{
    match repair_job(words) {
        Some(name) => repair(alloc, name, files),
        None => match say_line(files, USAGE) {
            Ok(()) => Outcome::Words,
            Err(Failed) => Outcome::WriteFault,
        },
    }
}

/// Repairs the netlist of the job in this file.
fn repair<F: Files>(alloc: Global, name: &Name, files: &mut F) -> Outcome
    ensures answer { IsAnswer (F.told files.old) (F.told files.new) name.now result }
    ensures goes_on { GoesOn (F.told files.old) (F.told files.new) }
{
    match read_front(alloc, files, name) {
        Ok(front) => deliver(alloc, files, &front),
        Err(Stopped::Read(file)) => Outcome::ReadFault(file),
        Err(Stopped::Refused(fault)) => refuse(alloc, files, fault),
        Err(Stopped::Memory) => Outcome::Memory,
    }
}

/// Checks the netlist as it is, and answers what comes of that.
fn deliver<F: Files>(alloc: Global, files: &mut F, front: &Front) -> Outcome
    requires apart { front.now.job.certificate ≢ front.now.job.output }
    requires problem { front.now.built.problem ≡ problem_of front.now.job.timing front.now.built.netlist }
    requires valid { IsValid front.now.built.problem }
    requires once { EndsOnce front.now.built.problem.graph.arcs }
    ensures answer { IsDelivery (F.told files.old) (F.told files.new) front.now.job front.now.built.netlist result }
    ensures goes_on { GoesOn (F.told files.old) (F.told files.new) }
{
    match worst_line(alloc, &front.built.problem) {
        Ok(None) => write_netlist(alloc, files, front),
        Ok(Some((path, short))) => ask_padding(alloc, files, front, path, short),
        Err(Memory) => Outcome::Memory,
    }
}

/// Writes the netlist as it is, with its certificate.
fn write_netlist<F: Files>(alloc: Global, files: &mut F, front: &Front) -> Outcome
    requires apart { front.now.job.certificate ≢ front.now.job.output }
    requires met { IsMet (problem_of front.now.job.timing front.now.built.netlist) no_buffers }
    ensures answer { IsDelivery (F.told files.old) (F.told files.new) front.now.job front.now.built.netlist result }
    ensures goes_on { GoesOn (F.told files.old) (F.told files.new) }
{
    match write(alloc, &front.built.netlist) {
        Ok(text) => match write_repair(files, &front.job, text.as_slice()) {
            Ok(()) => Outcome::Repaired { cost: 0 },
            Err(Failed) => Outcome::WriteFault,
        },
        Err(Memory) => Outcome::Memory,
    }
}

/// Says the path that misses its check by so much.
fn ask_padding<F: Files>(
    alloc: Global,
    files: &mut F,
    front: &Front,
    path: Listed,
    short: i64,
) -> Outcome
    requires misses { Misses (problem_of front.now.job.timing front.now.built.netlist) no_buffers path short }
    ensures answer { IsDelivery (F.told files.old) (F.told files.new) front.now.job front.now.built.netlist result }
    ensures goes_on { GoesOn (F.told files.old) (F.told files.new) }
{
    match padding_line(alloc, &front.job, &front.built.netlist, &path, short) {
        Ok(line) => match say_line(files, line.as_slice()) {
            Ok(()) => Outcome::NeedsPadding { path, short },
            Err(Failed) => Outcome::WriteFault,
        },
        Err(Memory) => Outcome::Memory,
    }
}

fn refuse<F: Files>(alloc: Global, files: &mut F, fault: Fault) -> Outcome
    ensures answer { IsRefusal (F.told files.old) (F.told files.new) fault result }
    ensures goes_on { GoesOn (F.told files.old) (F.told files.new) }
{
    match refusal_line(alloc, &fault) {
        Ok(line) => match say_line(files, line.as_slice()) {
            Ok(()) => Outcome::Input(fault),
            Err(Failed) => Outcome::WriteFault,
        },
        Err(Memory) => Outcome::Memory,
    }
}
