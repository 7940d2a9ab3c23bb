use hold_base::Name;
use hold_vlex::LexFault;
use thiserror::Error;

/// Why a text has no syntax tree. Places count bytes from 0. The variants stand in the order in which they are
/// looked for; of the last two the text's first piece that can't stand tells which.
#[derive(Debug, Drop, PartialEq, Eq, Error)]
pub enum SyntaxFault {
    /// The text has no tokens from some place on.
    #[error("a text that can't be cut into tokens")]
    Lex(LexFault),
    /// The piece that begins at this place can't stand there, or the text ends at this place too early.
    #[error("a piece that can't stand there")]
    Syntax(u64),
    /// The piece that can't stand where it stands has this word, at this place, which the profile leaves out.
    #[error("a word that is left out")]
    LeftOut(Name, u64),
}

/// A piece that can't stand where it stands.
#[derive(Clone, Copy, Debug)]
pub struct BadPiece;
