ghost use Rattle.std.specs.Prelude.{◌≡◌, ◌++◌, ◌∷◌, [], is_none, slice_get, IfOk, OnOk, if◌then◌else◌};
ghost use Rattle.std.specs.Option.{option_copied};
ghost use Rattle.hold_netlist.specs.NameTable.{number_of};
ghost use Rattle.hold_plain.specs.Cells.{cell_named, arrival_in, clock_arrival};
ghost use Rattle.hold_plain.specs.inner.Tables.{cell_names, clock_names, AreTables, TellsPlaces};

use crate::cell::Cell;
use crate::seeds::{cells_seed, clocks_seed};
use crate::timing::{Clock, Timing};
use hold_base::{Interval, Memory, Name};
use hold_netlist::NameTable;
use std::alloc::Global;

/// Where cells and clock entries stand, by their names. Made once, so that finding one takes the same
/// time, however many there are.
#[derive(Drop)]
pub(crate) struct Tables {
    cells: NameTable,
    clocks: NameTable,
}

/// Gives a name its place, where it has none yet. A place past the numbers that a table can hold is want
/// of memory.
pub(crate) fn put(
    alloc: Global,
    table: &mut NameTable,
    name: &Name,
    place: usize,
) -> Result<(), Memory>
    ensures { OnOk result (table.new ≡ (if is_none (number_of name.now table.old) then table.old ++ (name.now, place) ∷ [] else table.old)) }
{
    let Ok(number) = u32::try_from(place) else {
        return Err(Memory);
    };
    table.add(alloc, name.bytes(), number)?;
    Ok(())
}

/// The item at that place.
fn item_at<T>(items: &[T], place: u32) -> Option<&T>
    ensures { option_copied result ≡ slice_get items.now place }
{
    items.get(place as usize)
}

fn cell_places(alloc: Global, cells: &[Cell]) -> Result<NameTable, Memory>
    ensures { IfOk result (λ table. TellsPlaces (cell_names cells.now) table) }
{
    let mut table = NameTable::new(alloc, cells_seed(cells));
    for (place, cell) in cells.iter().enumerate() {
        put(alloc, &mut table, &cell.name, place)?;
    }
    Ok(table)
}

fn clock_places(alloc: Global, clocks: &[Clock]) -> Result<NameTable, Memory>
    ensures { IfOk result (λ table. TellsPlaces (clock_names clocks.now) table) }
{
    let mut table = NameTable::new(alloc, clocks_seed(clocks));
    for (place, clock) in clocks.iter().enumerate() {
        put(alloc, &mut table, &clock.inst, place)?;
    }
    Ok(table)
}

impl Tables {
    /// The tables of these cells and clock entries.
    pub(crate) fn make(alloc: Global, timing: &Timing) -> Result<Tables, Memory>
        ensures { IfOk result (λ tables. AreTables timing.now tables.cells tables.clocks) }
    {
        let cells = cell_places(alloc, timing.cells.as_slice())?;
        let clocks = clock_places(alloc, timing.clocks.as_slice())?;
        Ok(Tables { cells, clocks })
    }

    /// The first cell of that name.
    pub(crate) fn cell<'a>(&self, timing: &'a Timing, name: &Name) -> Option<&'a Cell>
        requires { AreTables timing.now self.now.cells self.now.clocks }
        ensures { option_copied result ≡ cell_named name.now timing.now.cells }
    {
        match self.cells.find(name.bytes()) {
            Some(place) => item_at(timing.cells.as_slice(), place),
            None => None,
        }
    }

    /// The arrival of the first clock entry of that instance, in fs.
    fn own_arrival(&self, timing: &Timing, inst: &Name) -> Option<Interval>
        requires { AreTables timing.now self.now.cells self.now.clocks }
        ensures { result ≡ arrival_in inst.now timing.now.clocks }
    {
        let Some(place) = self.clocks.find(inst.bytes()) else {
            return None;
        };
        match item_at(timing.clocks.as_slice(), place) {
            Some(clock) => Some(clock.arrival),
            None => None,
        }
    }

    /// When the clock arrives at an instance of that name, in fs.
    pub(crate) fn arrival(&self, timing: &Timing, inst: &Name) -> Option<Interval>
        requires { AreTables timing.now self.now.cells self.now.clocks }
        ensures { result ≡ clock_arrival timing.now inst.now }
    {
        match self.own_arrival(timing, inst) {
            Some(arrival) => Some(arrival),
            None => timing.arrival,
        }
    }
}
