/// The number of an instance, from 0 in the order of the netlist.
#[derive(Clone, Copy, Debug, PartialEq, Eq, PartialOrd, Ord, Default)]
pub struct InstNo(pub u32);

/// The number of a pin: the connections in the order of instances and, within one, in the order written;
/// then the bits of the ports.
#[derive(Clone, Copy, Debug, PartialEq, Eq, PartialOrd, Ord, Default)]
pub struct PinNo(pub u32);

/// The number of a net bit: wire by wire, each from its left bound to its right.
#[derive(Clone, Copy, Debug, PartialEq, Eq, PartialOrd, Ord, Default)]
pub struct NetNo(pub u32);

/// The number of a site, a pin at which buffers may be put, in the order of pins.
#[derive(Clone, Copy, Debug, PartialEq, Eq, PartialOrd, Ord, Default)]
pub struct SiteNo(pub u32);

/// The number of a variable, a site and a kind: `site * kinds + kind`.
#[derive(Clone, Copy, Debug, PartialEq, Eq, PartialOrd, Ord, Default)]
pub struct VarNo(pub u32);

/// The number of a node of a search.
#[derive(Clone, Copy, Debug, PartialEq, Eq, PartialOrd, Ord, Default)]
pub struct NodeNo(pub u64);

/// The place of a path in a list of paths, from 0.
#[derive(Clone, Copy, Debug, PartialEq, Eq, PartialOrd, Ord, Default)]
pub struct PathNo(pub u64);

/// The number of a corner, from 0 in the order of the job.
#[derive(Clone, Copy, Debug, PartialEq, Eq, PartialOrd, Ord, Default)]
pub struct CornerNo(pub u8);

/// The number of a kind of buffer, from 0 in the order of the job.
#[derive(Clone, Copy, Debug, PartialEq, Eq, PartialOrd, Ord, Default)]
pub struct KindNo(pub u8);

/// The number of a searcher.
#[derive(Clone, Copy, Debug, PartialEq, Eq, PartialOrd, Ord, Default)]
pub struct SearcherNo(pub u8);
