use crate::cell_times::{TypeArc, TypeCheck};
use crate::corner::Corner;
use crate::inst_times::{Clock, Keep};
use hold_base::{Interval, List, Name};
use hold_netlist::Kind;
use hold_roles::Library;

/// What the user asks for. All times are in fs.
#[derive(Drop)]
pub struct Job {
    /// The file that is read.
    pub netlist: Name,
    /// The files that are written.
    pub output: Name,
    pub certificate: Name,
    /// The file with a plan of buffers, where there is one.
    pub plan: Option<Name>,
    /// The clock's period.
    pub period: i64,
    /// The most buffers at one site.
    pub max_chain: u8,
    /// The most cuts of the search.
    pub nodes: u32,
    /// How many searchers take turns.
    pub searchers: u8,
    /// The number that the order of their turns is drawn from.
    pub order: u64,
    pub corners: List<Corner>,
    /// The types of cells.
    pub library: Library,
    /// What the types say of delays and of checks, type by type.
    pub arcs: List<TypeArc>,
    pub checks: List<TypeCheck>,
    /// The kinds of buffers.
    pub kinds: List<Kind>,
    /// When the clock comes to a register that `clocks` doesn't name, in each corner.
    pub arrival: Option<List<Interval>>,
    pub clocks: List<Clock>,
    pub keeps: List<Keep>,
}
