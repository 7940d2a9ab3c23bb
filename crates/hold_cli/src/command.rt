ghost use Rattle.std.specs.Prelude.{◌≡◌, ◌↔◌, IsTrue, IfSome, IfNone, List, ℕ, [], codes};
ghost use Rattle.hold_cli.specs.Command.{IsRepair};

use hold_base::Name;

/// The job file that the words `repair JOB` name.
#[tactic(auto, using(crate::proofs::CommandLemmas::repair_words))]
pub fn repair_job(words: &[Name]) -> Option<&Name>
    ensures found { IfSome result (λ job. IsRepair words.now job.now) }
    ensures none { IfNone result ((job : List ℕ) → IsRepair words.now job → ⊥) }
{
    match words {
        [command, job] if is_repair(command) && !is_empty(job) => Some(job),
        _ => None,
    }
}

fn is_repair(word: &Name) -> bool
    ensures { IsTrue result ↔ (word.now ≡ codes "repair") }
{
    word.bytes() == b"repair".as_slice()
}

fn is_empty(name: &Name) -> bool
    ensures { IsTrue result ↔ (name.now ≡ []) }
{
    name.bytes().is_empty()
}
