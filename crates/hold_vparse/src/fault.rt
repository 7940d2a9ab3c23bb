use hold_base::{Name, What};
use hold_vlex::LexFault;
use hold_vsyntax::SyntaxFault;
use thiserror::Error;

/// Why a text has no netlist. Places count bytes from 0. The variants stand in the order in which they are
/// looked for.
#[derive(Debug, Drop, PartialEq, Eq, Error)]
pub enum VerilogFault {
    /// The text has no tokens from some place on.
    #[error("a text that can't be cut into tokens")]
    Lex(LexFault),
    /// The piece that begins at this place can't stand there, or the text ends at this place too early.
    #[error("a piece that can't stand there")]
    Syntax(u64),
    /// The piece that can't stand where it stands has this word, at this place, which the profile leaves out.
    #[error("a word that is left out")]
    LeftOut(Name, u64),
    /// This name is declared twice, or one instance names this pin twice.
    #[error("a name that is declared twice")]
    DoubleName(Name),
    /// This port has no direction, or two ranges, or is in no list of ports.
    #[error("a port that isn't declared whole")]
    BadPort(Name),
    /// A bit or part of this net isn't there, or is too wide or too narrow where it stands.
    #[error("a bit that isn't there")]
    BadBit(Name),
    /// A bound or a count passes its limit.
    #[error("the netlist is too large")]
    Limit(What),
}

impl From<SyntaxFault> for VerilogFault {
    ghost use Rattle.std.specs.Prelude.{◌≡◌};
    ghost use Rattle.hold_vparse.specs.Reads.{verilog_fault};

    ghost from_gives = { λ fault e. e ≡ verilog_fault fault };

    fn from(fault: SyntaxFault) -> VerilogFault {
        match fault {
            SyntaxFault::Lex(fault) => VerilogFault::Lex(fault),
            SyntaxFault::Syntax(at) => VerilogFault::Syntax(at),
            SyntaxFault::LeftOut(word, at) => VerilogFault::LeftOut(word, at),
        }
    }
}
