//! The limits that this project sets to what it reads, each the most that may be. The definitions have them in `specs/Limits`.

/// The magnitude of a time, in fs.
pub const TIME: i64 = 10_000_000_000;

/// A bound of a range.
pub const BOUND: u32 = (1 << 20) - 1;

/// Net bits of a netlist.
pub const BITS: u64 = 1 << 25;

/// Instances of a netlist.
pub const INSTANCES: u64 = 1 << 25;

/// Pins of a netlist.
pub const PINS: u64 = 1 << 26;

/// Assigned bits of a netlist.
pub const ASSIGNS: u64 = 1 << 25;

/// Bytes of a job, a netlist, an SDF file or a plan.
pub const FILE_BYTES: u64 = 1 << 26;

/// Bytes of a name in a job.
pub const NAME_BYTES: usize = 4096;

/// Bytes of a corner's name.
pub const CORNER_NAME_BYTES: usize = 64;

/// Cell types of a job.
pub const TYPES: usize = 4096;

/// Net bits of a netlist whose cells have roles.
pub const BOUND_BITS: u64 = 1 << 21;

/// Instances of a netlist whose cells have roles.
pub const BOUND_INSTANCES: u64 = 1 << 18;

/// Pins of a netlist whose cells have roles.
pub const BOUND_PINS: u64 = 1 << 20;
