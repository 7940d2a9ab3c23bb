use crate::graph::Graph;
use hold_base::{CornerNo, Interval, List, PinNo, Side};

/// The delays and checks of one corner, in fs. Each list goes by the places in the graph's list of that
/// name, `setup` and `hold` by those in `captures`, and `kinds` by the kinds of buffers.
#[derive(Clone, Debug, Drop, PartialEq, Eq)]
pub struct Spans {
    pub arcs: List<Interval>,
    /// When the output of a register changes: its clock arrival plus its delay from clock to output.
    pub launch: List<Interval>,
    /// When the clock arrives at the register that captures.
    pub capture: List<Interval>,
    pub setup: List<i64>,
    pub hold: List<i64>,
    /// What one buffer of each kind adds.
    pub kinds: List<Interval>,
}

/// A padding problem: a timing graph with the delays of each corner, and what buffers may be put.
#[derive(Drop)]
pub struct Problem {
    pub graph: Graph,
    /// The clock period, in fs.
    pub period: i64,
    /// The most buffers in front of one pin.
    pub max_chain: u8,
    /// The cost of one buffer, by kind.
    pub costs: List<u64>,
    pub corners: List<Spans>,
}

/// A path, with the check and the corner that it is listed for.
#[derive(Clone, Debug, Drop, PartialEq, Eq)]
pub struct Listed {
    pub side: Side,
    pub corner: CornerNo,
    pub pins: List<PinNo>,
}
