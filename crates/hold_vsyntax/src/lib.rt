//! Reads structural Verilog text as the tree of its pieces, or as the first fault for which it has none.
#![tactic(auto)]

mod assignments;
mod body;
mod connection;
mod fault;
mod header;
mod idents;
mod instances;
mod item;
mod left_out;
mod mark;
pub mod number;
mod part;
mod passing;
mod port;
mod range;
mod reader;
mod steps;
mod symbol;
mod syntax;
pub mod tree;

pub use fault::SyntaxFault;
pub use mark::Mark;
pub use syntax::syntax_tree;
