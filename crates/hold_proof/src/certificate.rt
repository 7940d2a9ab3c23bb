use crate::claim::Claim;
use crate::shape::Shape;
use hold_base::List;
use hold_graph::Listed;

/// A claim, and the proof of it.
#[derive(Drop)]
pub struct Certificate {
    pub claim: Claim,
    /// The paths that the leaves of the tree name, numbered from 0.
    pub paths: List<Listed>,
    /// The proof: a tree over all counts.
    pub tree: Shape,
}
