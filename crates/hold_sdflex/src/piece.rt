/// What a piece of a text is.
#[derive(Clone, Copy, Debug, PartialEq, Eq)]
pub enum Form {
    /// An opening parenthesis. `close` is the place, in the list of pieces, of the one that closes it.
    Open { close: u32 },
    /// A closing parenthesis.
    Close,
    /// A colon.
    Colon,
    /// A string with its quotes.
    Text,
    /// A word, a number or a sign: a run of bytes that none of the others takes. A backslash takes the next byte,
    /// whatever it is, so that byte belongs to the run too.
    Atom,
}

/// A piece of a text: its bytes from `from` up to but without `to`.
#[derive(Clone, Copy, Debug, PartialEq, Eq)]
pub struct Piece {
    pub form: Form,
    pub from: u32,
    pub to: u32,
}
