ghost use Rattle.std.specs.Prelude.{◌≡◌, option_copied};
ghost use Rattle.hold_cli.specs.Outcome.{status_of, complaint_of};

use hold_base::Name;
use hold_graph::Listed;
use hold_vparse::VerilogFault;
use thiserror::Error;

/// Why an input is refused.
#[derive(Debug, Drop, PartialEq, Eq, Error)]
pub enum Fault {
    /// The file of this name has more than 2^26 bytes.
    #[error("an input file is too long")]
    TooLong(Name),
    /// The netlist's text isn't read, for this fault.
    #[error("the netlist isn't in the profile of Verilog that is read")]
    Verilog(VerilogFault),
    /// The file of this name is outside the form that is served today.
    #[error("an input file is outside the form that is served")]
    NotBuilt(Name),
}

/// What a run answers.
#[derive(Debug, Drop, PartialEq, Eq)]
pub enum Outcome {
    /// The netlist meets every check with buffers of this cost, and was written.
    Repaired { cost: u64 },
    /// Without buffers this path misses its check by so much, in fs.
    NeedsPadding { path: Listed, short: i64 },
    /// An input is refused.
    Input(Fault),
    /// The file of this name can't be read.
    ReadFault(Name),
    /// A file or standard output can't be written.
    WriteFault,
    /// Want of memory.
    Memory,
    /// The words are no command.
    Words,
}

/// The exit status that tells an outcome. Takes no memory.
pub fn status(outcome: &Outcome) -> u8
    ensures { result ≡ status_of outcome.now }
{
    match outcome {
        Outcome::Repaired { cost: _ } => 0,
        Outcome::Input(_) => 3,
        Outcome::ReadFault(_) => 4,
        Outcome::WriteFault => 5,
        Outcome::Memory => 6,
        Outcome::Words => 7,
        Outcome::NeedsPadding { path: _, short: _ } => 9,
    }
}

/// What standard error is told of an outcome that says no line. Takes no memory.
pub fn complaint(outcome: &Outcome) -> Option<&'static str>
    ensures { option_copied result ≡ complaint_of outcome.now }
{
    match outcome {
        Outcome::ReadFault(_) => Some("read fault"),
        Outcome::WriteFault => Some("write fault"),
        Outcome::Memory => Some("want of memory"),
        Outcome::Repaired { cost: _ }
        | Outcome::NeedsPadding { path: _, short: _ }
        | Outcome::Input(_)
        | Outcome::Words => None,
    }
}
