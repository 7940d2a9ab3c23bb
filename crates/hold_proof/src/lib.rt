//! Proofs that no cheaper buffers do: trees of splits and leaves over boxes of counts, and what a tree bounds.
#![tactic(auto)]

mod basis;
mod certificate;
mod claim;
mod closing;
mod cost;
mod excess;
mod factors;
mod fitness;
mod flaw;
mod gaps;
mod judging;
mod node;
mod paths;
mod places;
mod scratch;
mod settling;
mod shape;
mod short;
mod walk;
mod weighing;
mod wide;

pub use certificate::Certificate;
pub use claim::Claim;
pub use closing::closes;
pub use fitness::is_fit;
pub use flaw::TreeFlaw;
pub use judging::judge;
pub use node::{Leaf, Node};
pub use scratch::Scratch;
pub use shape::Shape;
pub use short::Short;
