use hold_base::Name;

/// Which way a port leads.
#[derive(Clone, Copy, Debug, PartialEq, Eq)]
pub enum Direction {
    Input,
    Output,
}

/// A port of the module. The wire of its name has its width.
#[derive(Clone, Debug, Drop, PartialEq, Eq)]
pub struct Port {
    pub name: Name,
    pub direction: Direction,
}

/// A wire: a scalar, or a vector with its left and its right bound, which may run either way.
#[derive(Clone, Debug, Drop, PartialEq, Eq)]
pub struct Wire {
    pub name: Name,
    pub range: Option<(u32, u32)>,
}
