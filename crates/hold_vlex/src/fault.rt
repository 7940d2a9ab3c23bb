use thiserror::Error;

/// Why a text has no tokens from some place on. Places count bytes from 0.
#[derive(Clone, Copy, Debug, PartialEq, Eq, Error)]
pub enum LexFault {
    /// At this place stands a byte that fits no rule.
    #[error("a byte that can't stand there")]
    BadByte(u64),
    /// The comment or attribute that opens at this place has no end.
    #[error("a comment or an attribute without an end")]
    OpenComment(u64),
    /// The escaped name that opens at this place is empty or reaches the end of the text.
    #[error("an escaped name that is empty or reaches the end of the text")]
    OpenName(u64),
}
