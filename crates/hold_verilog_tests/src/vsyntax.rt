//! The trees of texts and the texts without one, each by hand from the rules of the language that is read; and numbers.

mod numbers;
mod syntax;
mod tree;
