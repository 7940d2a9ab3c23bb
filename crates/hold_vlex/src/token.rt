ghost use Rattle.std.specs.Prelude.{IsTrue};
ghost use Rattle.hold_vlex.specs.Front.{fits_sort};

/// What a token is (a profile of IEEE 1364-2005).
#[derive(Clone, Copy, Debug, PartialEq, Eq)]
pub enum Sort {
    /// A simple identifier or a keyword.
    Word,
    /// An escaped identifier. Its text is without the backslash.
    Escaped,
    /// Digits alone.
    Number,
    /// A constant of one bit, and which.
    Constant(bool),
    /// A compiler directive that isn't read past. Its text is with the backquote.
    Directive,
    /// One byte of punctuation.
    Sign,
    /// Any other run that begins with a digit or an apostrophe.
    Other,
}

/// A token.
#[derive(Clone, Copy, Debug)]
pub struct Token<'a> {
    pub sort: Sort,
    /// Its bytes, which lie in the text that was read.
    pub text: &'a [u8],
    /// The place where it begins in the text that was read, from 0: that of its first byte, and of an escaped
    /// name that of the backslash, one before its first byte.
    pub at: u64,
    pub ghost fits: { IsTrue (fits_sort sort text.now) },
}
