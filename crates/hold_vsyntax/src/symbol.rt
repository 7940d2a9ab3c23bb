ghost use Rattle.std.specs.Prelude.{◌≡◌};
ghost use Rattle.hold_vlex.specs.Lexed.{lexeme};
ghost use Rattle.hold_vsyntax.specs.Symbols.{symbol, word_symbol, marked};
ghost use Rattle.hold_vsyntax.specs.inner.Shown.{shown};

use crate::mark::Mark;
use crate::number::Digits;
use hold_netlist::is_keyword;
use hold_vlex::{Sort, Token};

/// What the grammar sees of a token.
#[derive(Clone, Copy)]
pub enum Symbol<'a> {
    /// A word or a sign that the grammar asks for.
    Mark(Mark),
    /// An identifier and its place.
    Name(&'a [u8], u64),
    /// The digits of a number.
    Number(Digits<'a>),
    /// A constant of one bit.
    Constant(bool),
    /// What stands in no piece of the grammar.
    Strange,
}

impl<'a> Symbol<'a> {
    /// The symbol of a token.
    pub fn of(token: Token<'a>) -> Symbol<'a>
        ensures { shown result ≡ symbol (lexeme token.entry) }
    {
        match token.sort {
            Sort::Word => Symbol::of_word(token.text, token.at),
            Sort::Escaped => Symbol::Name(token.text, token.at),
            Sort::Number => Symbol::Number(Digits { text: token.text }),
            Sort::Constant(value) => Symbol::Constant(value),
            Sort::Sign => Symbol::of_mark(Mark::of_sign(token.text)),
            Sort::Directive | Sort::Other => Symbol::Strange,
        }
    }

    #[tactic(auto, unfolding(crate::specs::Symbols::word_symbol))]
    fn of_word(word: &'a [u8], at: u64) -> Symbol<'a>
        ensures { shown result ≡ word_symbol word.now at }
    {
        if is_keyword(word) {
            Symbol::of_mark(Mark::of_word(word))
        } else {
            Symbol::Name(word, at)
        }
    }

    fn of_mark(mark: Option<Mark>) -> Symbol<'a>
        ensures { shown result ≡ marked mark }
    {
        match mark {
            Some(mark) => Symbol::Mark(mark),
            None => Symbol::Strange,
        }
    }
}
