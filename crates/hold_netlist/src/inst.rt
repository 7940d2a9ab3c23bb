use hold_base::{List, Name, NetNo};

/// What a connection or the right side of an assignment is tied to.
#[derive(Clone, Copy, Debug, PartialEq, Eq)]
pub enum Source {
    Net(NetNo),
    /// The constant `1'b0`.
    Zero,
    /// The constant `1'b1`.
    One,
    /// Nothing, as in `.P()`.
    Empty,
}

/// A connection of an instance.
#[derive(Clone, Debug, Drop, PartialEq, Eq)]
pub struct Pin {
    pub name: Name,
    pub source: Source,
}

/// An instance of a type, with its connections in the order written.
#[derive(Clone, Debug, Drop)]
pub struct Inst {
    pub name: Name,
    pub kind: Name,
    pub pins: List<Pin>,
}

/// An assignment of a single bit.
#[derive(Clone, Copy, Debug, PartialEq, Eq)]
pub struct Assign {
    pub left: NetNo,
    pub right: Source,
}
