//! Tables of words, in which a text is looked up by its bytes.
#![tactic(auto)]

mod arms;
mod table;
#[cfg(test)]
mod tests;

pub use table::WordTable;
