ghost use Rattle.std.specs.Prelude.{◌≡◌, ◌==◌};
ghost use Rattle.hold_vsyntax.specs.Symbols.{word_mark, sign_mark};
ghost use Rattle.hold_vsyntax.specs.inner.Symbols.{mark_number};

use hold_words::{WordTable, match_words};

/// A word or a sign that the grammar asks for.
#[derive(Clone, Copy)]
pub enum Mark {
    Module,
    EndModule,
    Input,
    Output,
    Wire,
    Assign,
    Comma,
    Semicolon,
    Colon,
    Dot,
    Equals,
    LeftParenthesis,
    RightParenthesis,
    LeftBracket,
    RightBracket,
}

const WORDS: WordTable<6> = WordTable {
    rows: &[
        b"module",
        b"endmodule",
        b"input",
        b"output",
        b"wire",
        b"assign",
    ],
};

impl Mark {
    /// The mark of a word of the grammar.
    #[tactic(auto, unfolding(crate::specs::inner::Symbols::mark_words), using(crate::proofs::MarkLemmas::row_mark_is_word_mark))]
    pub fn of_word(word: &[u8]) -> Option<Mark>
        ensures { result ≡ word_mark word.now }
    {
        match_words!(WORDS, word;
            0 => Some(Mark::Module),
            1 => Some(Mark::EndModule),
            2 => Some(Mark::Input),
            3 => Some(Mark::Output),
            4 => Some(Mark::Wire),
            5 => Some(Mark::Assign);
            _ => None)
    }

    /// The mark of a sign of the grammar.
    #[tactic(auto, unfolding(crate::specs::Symbols::sign_mark))]
    pub fn of_sign(sign: &[u8]) -> Option<Mark>
        ensures { result ≡ sign_mark sign.now }
    {
        match sign {
            [b','] => Some(Mark::Comma),
            [b';'] => Some(Mark::Semicolon),
            [b':'] => Some(Mark::Colon),
            [b'.'] => Some(Mark::Dot),
            [b'='] => Some(Mark::Equals),
            [b'('] => Some(Mark::LeftParenthesis),
            [b')'] => Some(Mark::RightParenthesis),
            [b'['] => Some(Mark::LeftBracket),
            [b']'] => Some(Mark::RightBracket),
            _ => None,
        }
    }

    fn number(self) -> u8
        ensures { result ≡ mark_number self }
    {
        match self {
            Mark::Module => 0,
            Mark::EndModule => 1,
            Mark::Input => 2,
            Mark::Output => 3,
            Mark::Wire => 4,
            Mark::Assign => 5,
            Mark::Comma => 6,
            Mark::Semicolon => 7,
            Mark::Colon => 8,
            Mark::Dot => 9,
            Mark::Equals => 10,
            Mark::LeftParenthesis => 11,
            Mark::RightParenthesis => 12,
            Mark::LeftBracket => 13,
            Mark::RightBracket => 14,
        }
    }

    /// Whether the two are one mark.
    pub fn is(self, other: Mark) -> bool
        ensures { result ≡ (mark_number self == mark_number other) }
    {
        self.number() == other.number()
    }
}
