ghost use Rattle.std.specs.Prelude.{◌≡◌, ◌++◌, ◌<◌, ◌+◌, ◌≤◌, OnOk, length};
ghost use Rattle.hold_base.specs.Limits.{pins_limit};
ghost use Rattle.hold_build.specs.inner.CellArcs.{sort_count};
ghost use Rattle.hold_build.specs.inner.Sorts.{is_empty, is_of_sort, register_pins, sort_pins};

use crate::type_pins::{is_clock_pin, is_data_pin, is_output_pin};
use hold_base::{Memory, PinNo};
use hold_netlist::{Pin, Source};
use hold_roles::{CellType, Role};

/// Which connections of an instance are looked for.
#[derive(Clone, Copy, Debug)]
pub(crate) enum Sort {
    /// The clock pin.
    Clock,
    /// Inputs, of a register its data pins.
    Data,
    Output,
    /// Inputs that aren't written empty.
    Tied,
}

fn is_empty(source: Source) -> bool
    ensures { result ≡ is_empty source }
{
    matches!(source, Source::Empty)
}

/// Whether a connection, of an instance of the type, is of that sort.
fn is_of_sort(sort: Sort, cell: &CellType, pin: &Pin) -> bool
    ensures { result ≡ is_of_sort sort cell.now pin.now }
{
    match sort {
        Sort::Clock => is_clock_pin(cell, &pin.name),
        Sort::Data => is_data_pin(cell, &pin.name),
        Sort::Output => is_output_pin(cell, &pin.name),
        Sort::Tied => is_data_pin(cell, &pin.name) && !is_empty(pin.source),
    }
}

/// Appends those of the connections that are of that sort. The first of all has that number.
pub(crate) fn put_sort_pins(
    out: &mut Vec<PinNo>,
    sort: Sort,
    cell: &CellType,
    first: u32,
    pins: &[Pin],
) -> Result<(), Memory>
    requires { first + length pins.now ≤ pins_limit }
    ensures { OnOk result (out.new.items ≡ out.old.items ++ sort_pins sort cell.now first pins.now) }
{
    for (place, pin) in pins.iter().enumerate() {
        if is_of_sort(sort, cell, pin) {
            out.push(PinNo(first + place as u32))?;
        }
    }
    Ok(())
}

/// Appends those of the connections that are of that sort, where the instance is a register.
pub(crate) fn put_register_pins(
    out: &mut Vec<PinNo>,
    sort: Sort,
    cell: &CellType,
    first: u32,
    pins: &[Pin],
) -> Result<(), Memory>
    requires { first + length pins.now ≤ pins_limit }
    ensures { OnOk result (out.new.items ≡ out.old.items ++ register_pins sort cell.now first pins.now) }
{
    match cell.role {
        Role::Register => put_sort_pins(out, sort, cell, first, pins),
        Role::Comb | Role::Opaque => Ok(()),
    }
}

/// How many of the connections are of that sort.
pub(crate) fn sort_count(sort: Sort, cell: &CellType, pins: &[Pin]) -> usize
    ensures { result ≡ sort_count sort cell.now pins.now }
{
    pins.iter()
        .filter(|pin| is_of_sort(sort, cell, *pin))
        .count()
}
