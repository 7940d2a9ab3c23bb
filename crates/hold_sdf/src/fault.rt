use hold_base::Name;
use thiserror::Error;

/// Why an SDF text is refused. Places count bytes from 0.
#[derive(Debug, Drop, PartialEq, Eq, Error)]
pub enum SdfFault {
    /// The text isn't one whole group and nothing else, which goes before all other faults; or the group that
    /// opens at this place can't stand there, or its shape is wrong.
    #[error("a group that can't stand there")]
    Syntax(u64),
    /// The group that opens at this place has this word, which the profile leaves out.
    #[error("a word that is left out")]
    LeftOut(Name, u64),
    /// The atom at this place isn't a number, or passes the range of times.
    #[error("not a time")]
    Number(u64),
}
