//! The tokens of Verilog text.
#![tactic(auto)]

mod bytes;
mod fault;
mod found;
mod lexer;
mod number;
mod past;
mod table;
mod token;

pub use fault::LexFault;
pub use lexer::Lexer;
pub use token::{Sort, Token};
