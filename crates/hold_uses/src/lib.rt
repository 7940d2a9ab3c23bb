//! Which pins and arcs of a timing graph checked paths use.
#![tactic(auto)]

mod marks;
mod uses;

pub use uses::{used_captures, used_launches, used_steps};
