/// Why listed paths and a tree are no proof. Paths, and nodes in preorder, are numbered from 0.
#[derive(Clone, Copy, Debug, PartialEq, Eq)]
pub enum TreeFlaw {
    /// The listed path isn't a checked path, or the problem hasn't its corner.
    NotPath(u64),
    /// The node is a split that has no place in its box.
    BadSplit(u64),
    /// The node is a leaf that doesn't close its box.
    OpenLeaf(u64),
}
