ghost use Rattle.std.specs.Prelude.{◌≡◌};
ghost use Rattle.hold_vlex.specs.Lexed.{lexeme};
ghost use Rattle.hold_vsyntax.specs.Symbols.{is_left_out, is_left_out_sign, is_in_profile};

use crate::mark::Mark;
use hold_netlist::is_keyword;
use hold_vlex::{Sort, Token};

/// Whether the token is a word, a directive or a sign that the profile leaves out. The word `module` is.
#[tactic(auto, unfolding(crate::specs::Symbols::is_left_out))]
pub fn is_left_out(token: Token<'_>) -> bool
    ensures { result ≡ is_left_out (lexeme token.entry) }
{
    match token.sort {
        Sort::Word => is_keyword(token.text) && !is_in_profile(Mark::of_word(token.text)),
        Sort::Directive => true,
        Sort::Sign => is_left_out_sign(token.text),
        Sort::Escaped | Sort::Number | Sort::Constant(_) | Sort::Other => false,
    }
}

fn is_in_profile(mark: Option<Mark>) -> bool
    ensures { result ≡ is_in_profile mark }
{
    !matches!(mark, None | Some(Mark::Module))
}

fn is_left_out_sign(sign: &[u8]) -> bool
    ensures { result ≡ is_left_out_sign sign.now }
{
    sign == b"{".as_slice() || sign == b"#".as_slice()
}
