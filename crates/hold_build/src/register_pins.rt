ghost use Rattle.std.specs.Prelude.{◌≡◌, IfOk};
ghost use Rattle.hold_build.specs.inner.Insts.{over_insts};
ghost use Rattle.hold_build.specs.inner.Sorts.{register_pins as sort_of_register};

use crate::sort::{Sort, put_register_pins};
use hold_base::{InstNo, Memory, PinNo};
use hold_roles::Bound;
use std::alloc::Global;

/// The pins of registers that are of that sort, in order.
pub(crate) fn register_pins(alloc: Global, bound: &Bound, sort: Sort) -> Result<Vec<PinNo>, Memory>
    ensures { IfOk result (λ pins. pins.items ≡ over_insts (sort_of_register sort) bound.now.types 0 bound.now.netlist.insts) }
{
    let netlist = bound.netlist();
    netlist.know_valid();
    let mut out = Vec::new(alloc);
    let mut first = 0;
    for (place, inst) in netlist.insts().iter().enumerate() {
        let cell = bound.cell(InstNo(place as u32));
        let pins = inst.pins.as_slice();
        put_register_pins(&mut out, sort, cell, first, pins)?;
        first += pins.len() as u32;
    }
    Ok(out)
}
