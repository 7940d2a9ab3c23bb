use hold_base::{List, VarNo};

/// What a proof is given for.
#[derive(Clone, Debug, Drop, PartialEq, Eq)]
pub enum Claim {
    /// These counts, and 0 of every other variable, meet every check, and nothing that does costs less.
    Repaired {
        cost: u64,
        counts: List<(VarNo, u8)>,
    },
    /// Nothing meets every check.
    Infeasible,
}
