use crate::name::Name;
use thiserror::Error;

/// One line of a plan: put `count` buffers of this kind in front of the pin.
#[derive(Clone, Debug, Drop, PartialEq, Eq)]
pub struct PlanLine {
    /// The number of the line in its text, from 1.
    pub line: u32,
    pub inst: Name,
    pub pin: Name,
    pub kind: Name,
    pub count: u8,
}

/// Why a plan is refused. Each names a line of the plan's text, from 1.
#[derive(Clone, Copy, Debug, PartialEq, Eq, Error)]
pub enum PlanFault {
    #[error("a line of the plan can't stand there")]
    Line(u32),
    #[error("a line of the plan names no site or no kind")]
    NoSite(u32),
    #[error("a line of the plan repeats an earlier site and kind")]
    Doubled(u32),
    #[error("a chain of the plan is too long")]
    TooMany(u32),
}
