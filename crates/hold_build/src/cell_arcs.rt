ghost use Rattle.std.specs.Prelude.{◌≡◌, ◌++◌, ◌+◌, ◌≤◌, ◌<◌, OnOk, IfSome, IsNone, length};
ghost use Rattle.hold_base.specs.Limits.{arcs_limit, pins_limit};
ghost use Rattle.hold_build.specs.inner.CellArcs.{arcs_between, arcs_to, cell_arcs, over_count, role_count};
ghost use Rattle.hold_build.specs.inner.Insts.{over_insts};

use crate::sort::{Sort, put_sort_pins, sort_count};
use hold_base::{InstNo, Memory, PinNo};
use hold_graph::Arc;
use hold_netlist::Pin;
use hold_roles::{Bound, CellType, Role};
use std::alloc::Global;

/// The most arcs of a timing graph.
const ARCS: usize = 1 << 22;

/// Appends the arcs from each of these pins to the one.
fn put_arcs_to(arcs: &mut Vec<Arc>, froms: &[PinNo], to: PinNo) -> Result<(), Memory>
    ensures { OnOk result (arcs.new.items ≡ arcs.old.items ++ arcs_to froms.now to) }
{
    for from in froms {
        arcs.push(Arc {
            from: *from,
            to,
            wire: false,
        })?;
    }
    Ok(())
}

/// Appends the arcs from each of the first pins to each of the second.
fn put_arcs_between(arcs: &mut Vec<Arc>, froms: &[PinNo], tos: &[PinNo]) -> Result<(), Memory>
    ensures { OnOk result (arcs.new.items ≡ arcs.old.items ++ arcs_between froms.now tos.now) }
{
    for to in tos {
        put_arcs_to(arcs, froms, *to)?;
    }
    Ok(())
}

/// Appends the arcs through an instance of the type with these connections, the first of which has that number.
fn put_cell_arcs(
    alloc: Global,
    arcs: &mut Vec<Arc>,
    cell: &CellType,
    first: u32,
    pins: &[Pin],
) -> Result<(), Memory>
    requires { first + length pins.now ≤ pins_limit }
    ensures { OnOk result (arcs.new.items ≡ arcs.old.items ++ cell_arcs cell.now first pins.now) }
{
    match cell.role {
        Role::Comb => {
            let mut froms = Vec::new(alloc);
            put_sort_pins(&mut froms, Sort::Tied, cell, first, pins)?;
            let mut tos = Vec::new(alloc);
            put_sort_pins(&mut tos, Sort::Output, cell, first, pins)?;
            put_arcs_between(arcs, &froms, &tos)
        }
        Role::Register | Role::Opaque => Ok(()),
    }
}

/// Appends the arcs through the instances.
pub(crate) fn put_inst_arcs(alloc: Global, arcs: &mut Vec<Arc>, bound: &Bound) -> Result<(), Memory>
    ensures { OnOk result (arcs.new.items ≡ arcs.old.items ++ over_insts cell_arcs bound.now.types 0 bound.now.netlist.insts) }
{
    let netlist = bound.netlist();
    netlist.know_valid();
    let mut first = 0;
    for (place, inst) in netlist.insts().iter().enumerate() {
        let cell = bound.cell(InstNo(place as u32));
        let pins = inst.pins.as_slice();
        put_cell_arcs(alloc, arcs, cell, first, pins)?;
        first += pins.len() as u32;
    }
    Ok(())
}

/// How many arcs lead through an instance of the type with these connections.
fn cell_count(cell: &CellType, pins: &[Pin]) -> usize
    requires { length pins.now ≤ pins_limit }
    ensures is { result ≡ role_count cell.now.role cell.now pins.now }
    ensures few { result ≤ 4503599627370496 }
{
    match cell.role {
        Role::Comb => sort_count(Sort::Tied, cell, pins) * sort_count(Sort::Output, cell, pins),
        Role::Register | Role::Opaque => 0,
    }
}

/// How many arcs lead through the instances; none where these and `others` more are too many.
pub(crate) fn inst_count(bound: &Bound, others: usize) -> Option<usize>
    ensures few { IfSome result (λ count. others + over_count bound.now.types bound.now.netlist.insts ≤ arcs_limit) }
    ensures many { IsNone result → arcs_limit < others + over_count bound.now.types bound.now.netlist.insts }
{
    let netlist = bound.netlist();
    netlist.know_valid();
    let Some(room) = ARCS.checked_sub(others) else {
        return None;
    };
    let mut count = 0;
    for (place, inst) in netlist.insts().iter().enumerate() {
        let cell = bound.cell(InstNo(place as u32));
        count += cell_count(cell, inst.pins.as_slice());
        if room < count {
            return None;
        }
    }
    Some(count)
}
