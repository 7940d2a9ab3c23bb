use hold_base::{Interval, List, Name};

/// A kind of buffer: its cell, the cell's input and output pin, its cost, and its delay in each corner, in
/// fs.
#[derive(Clone, Debug, Drop)]
pub struct Kind {
    pub cell: Name,
    pub input: Name,
    pub output: Name,
    pub cost: u64,
    pub spans: List<Interval>,
}
