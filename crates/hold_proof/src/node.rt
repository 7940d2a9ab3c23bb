use crate::short::Short;
use hold_base::{PathNo, SiteNo, VarNo};

/// Weights of checks, which bound the cost over a box when they are summed.
#[derive(Clone, Debug, Drop, PartialEq, Eq)]
pub struct Leaf {
    /// How often the cost is taken.
    pub scale: u64,
    /// How often each of these listed paths is taken.
    pub paths: Short<(PathNo, u64), 4>,
    /// How often the chain limit of each of these sites is taken.
    pub chains: Short<(SiteNo, u64), 2>,
}

/// A node of a proof tree. The trees of a split stand behind it: first the one for at most `at` of the variable, then the
/// one for more.
#[derive(Clone, Debug, Drop, PartialEq, Eq)]
pub enum Node {
    Leaf(Leaf),
    Split { var: VarNo, at: u8 },
}
