//! Problems as a test writes them down.

/// A problem: an arc is its two pins and whether it is a wire. Nothing is kept, and no pin is a clock pin.
#[derive(Clone, Copy)]
pub struct Sketch<'a> {
    pub pins: u32,
    pub arcs: &'a [(u32, u32, bool)],
    pub launches: &'a [u32],
    pub captures: &'a [u32],
    /// In fs.
    pub period: i64,
    /// How many kinds of buffers there are. One of the first kind costs 1, one of the second 2, and so on.
    pub kinds: usize,
    pub corners: &'a [Corner<'a>],
}

/// The times of a corner in fs, by place in the lists of the sketch. A span is its two ends, in either order. What a list is too
/// short for is 0, and an end of a kind that is below 0 counts as 0.
#[derive(Clone, Copy)]
pub struct Corner<'a> {
    pub arcs: &'a [(i32, i32)],
    pub launch: &'a [(i32, i32)],
    pub capture: &'a [(i32, i32)],
    pub setup: &'a [i32],
    pub hold: &'a [i32],
    pub kinds: &'a [(i32, i32)],
}
