ghost use Rattle.std.specs.Prelude.{◌≡◌, ◌≤◌, ◌↔◌, None, Ok, Some, length, IfOk, IfErr, IfSome, []};
ghost use Rattle.std.specs.List.{AllByRecursion};
ghost use Rattle.hold_base.specs.NameBytes.{IsName};
ghost use Rattle.hold_vlex.specs.Lexed.{lexed, ended, with_token, lexeme, AreSlices};
ghost use Rattle.hold_vlex.specs.inner.Lexed.{lexed_at, IsNext};

use crate::fault::LexFault;
use crate::found::{Found, find_front};
use crate::token::Token;
use std::marker::Model;

/// Reads the tokens of a text, one a call. A contract sees what is still to be read: the tokens in order and
/// the fault that ends them, if there is one.
#[derive(Drop)]
pub struct Lexer<'a> {
    text: &'a [u8],
    place: usize,
}

impl<'a> Model for Lexer<'a> {
    ghost use Rattle.std.specs.Prelude.{◌≤◌, length};
    ghost use Rattle.hold_vlex.specs.Lexed.{Lexed};
    ghost use Rattle.hold_vlex.specs.inner.Lexed.{lexed_at};

    ghost Value = { Lexed };

    ghost view = { λ l. lexed_at l.place l.text.now };

    ghost invariant = { λ l. l.place ≤ length l.text.now };
}

impl<'a> Lexer<'a> {
    /// A lexer at the front of the text.
    pub fn new(text: &'a [u8]) -> Lexer<'a>
        ensures all { result ≡ lexed text.now }
        ensures slices { AreSlices text.now 0 result.tokens }
        ensures spelled { AllByRecursion (λ t. IsName t.text) result.tokens }
    {
        Lexer { text, place: 0 }
    }

    /// A lexer that reads on from the same place. Takes no memory.
    pub fn fork(&self) -> Lexer<'a>
        ensures { result ≡ self.now }
    {
        Lexer {
            text: self.text,
            place: self.place,
        }
    }

    /// The next token, or None at the end. A fault is the first one in the text, and is answered again by each
    /// later call. Takes no memory.
    pub fn next(&mut self) -> Result<Option<Token<'a>>, LexFault>
        ensures end { (result ≡ Ok None) ↔ (self.old ≡ ended None) }
        ensures token { IfOk result (λ o. IfSome o (λ t. self.old ≡ with_token (lexeme t) self.new)) }
        ensures fault { IfErr result (λ f. self.old ≡ ended (Some f)) }
        ensures stays { self.old.tokens ≡ [] → self.new ≡ self.old }
    {
        let (read, place) = next_at(self.text, self.place);
        self.place = place;
        read
    }
}

/// The next token from a place on, the end or the fault, and the place after the token; at the end and at a
/// fault the place where that stands.
fn next_at<'a>(text: &'a [u8], from: usize) -> (Result<Option<Token<'a>>, LexFault>, usize)
    requires { from ≤ length text.now }
    ensures next { IsNext (lexed_at from text.now) result.0 (lexed_at result.1 text.now) }
    ensures within { result.1 ≤ length text.now }
{
    let mut place = from;
    loop {
        let (_, rest) = text.split_at(place);
        let at = place as u64;
        match find_front(rest) {
            Found::Nothing => return (Ok(None), place),
            Found::Past(n) => place += n,
            Found::Read(sort, text, n) => return (Ok(Some(Token { sort, text, at })), place + n),
            Found::Bad(n) => return (Err(LexFault::BadByte(at + n as u64)), place),
            Found::NoEnd => return (Err(LexFault::OpenComment(at)), place),
            Found::NoName => return (Err(LexFault::OpenName(at)), place),
        }
    }
}
