//! The limits that a job has beside those of `hold_base`. The definitions have them in `specs/Limits` there and here.

/// Corners.
pub const CORNERS: usize = 8;

/// Kinds of buffers.
pub const KINDS: usize = 8;

/// The cost of one buffer.
pub const COST: u64 = 1_000_000;

/// Buffers at one site.
pub const CHAIN: u64 = 16;

/// Cuts of the search.
pub const NODES: u64 = 1_000_000;

/// Searchers.
pub const SEARCHERS: u64 = 8;

/// The number that the order of the searchers' turns is drawn from.
pub const ORDER: u64 = (1 << 63) - 1;
