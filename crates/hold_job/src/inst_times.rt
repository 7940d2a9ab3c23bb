use hold_base::{Interval, List, Name};

/// When the clock comes to the register of this name, in each corner, in fs.
#[derive(Clone, Debug, Drop)]
pub struct Clock {
    pub inst: Name,
    pub arrivals: List<Interval>,
}

/// A pin of an instance in front of which no buffer may be put.
#[derive(Clone, Debug, Drop)]
pub struct Keep {
    pub inst: Name,
    pub pin: Name,
}
