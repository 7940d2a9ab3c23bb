ghost use Rattle.std.specs.Prelude.{◌≡◌, None};
ghost use Rattle.hold_vlex.specs.Lexed.{lexed};
ghost use Rattle.hold_vsyntax.specs.Text.{place_of};
ghost use Rattle.hold_vsyntax.specs.inner.Tokens.{IsPopped, IsFront, first_symbol, in_sight};

use crate::symbol::Symbol;
use hold_vlex::{Lexer, Token};
use std::marker::Model;

/// Reads the tokens of a text that has no lexical fault, with the first of them in sight. A contract sees the
/// tokens that are left.
#[derive(Drop)]
pub struct Reader<'a> {
    lexer: Lexer<'a>,
    front: Option<Front<'a>>,
}

/// The token that is in sight.
#[derive(Clone, Copy)]
pub struct Front<'a> {
    token: Token<'a>,
    symbol: Symbol<'a>,
}

impl<'a> Model for Reader<'a> {
    ghost use Rattle.std.specs.Prelude.{◌≡◌, List, None};
    ghost use Rattle.hold_vlex.specs.Lexed.{Lexeme};
    ghost use Rattle.hold_vsyntax.specs.inner.Tokens.{tokens_from, IsSeen};

    ghost Value = { List Lexeme };

    ghost view = { λ r. tokens_from r.front r.lexer };

    ghost invariant = { λ r. IsSeen r.front r.lexer };
}

impl<'a> Reader<'a> {
    /// A reader at the front of the text.
    pub fn new(text: &'a [u8]) -> Reader<'a>
        requires { (lexed text.now).fault ≡ None }
        ensures { result ≡ (lexed text.now).tokens }
    {
        let mut lexer = Lexer::new(text);
        let front = see(&mut lexer);
        Reader { lexer, front }
    }

    /// A reader that reads on from the same place. Takes no memory.
    pub fn fork(&self) -> Reader<'a>
        ensures { result ≡ self.now }
    {
        Reader {
            lexer: self.lexer.fork(),
            front: self.front,
        }
    }

    /// What the grammar sees of the token in sight; none at the end.
    pub fn peek(&self) -> Option<Symbol<'a>>
        ensures { first_symbol result ≡ in_sight self.now }
    {
        match self.front {
            Some(front) => Some(front.symbol),
            None => None,
        }
    }

    /// The place where the token in sight begins; 0 at the end.
    pub fn place(&self) -> u64
        ensures { result ≡ place_of self.now }
    {
        match self.front {
            Some(front) => front.token.at,
            None => 0,
        }
    }

    /// The token in sight, which is then read; none at the end.
    pub fn pop(&mut self) -> Option<Token<'a>>
        ensures { IsPopped self.old result self.new }
    {
        let front = self.front?;
        self.front = see(&mut self.lexer);
        Some(front.token)
    }
}

/// The next token and its symbol; none at the end.
fn see<'a>(lexer: &mut Lexer<'a>) -> Option<Front<'a>>
    requires { lexer.old.fault ≡ None }
    ensures { IsFront lexer.old.tokens result lexer.new }
{
    match lexer.next() {
        Ok(Some(token)) => Some(Front {
            token,
            symbol: Symbol::of(token),
        }),
        Ok(None) | Err(_) => None,
    }
}
