ghost use Rattle.std.specs.Prelude.{◌≡◌, None, Some, IfOk, OnOk};
ghost use Rattle.std.specs.Option.{option_map};
ghost use Rattle.hold_base.specs.Answers.{IfFault};
ghost use Rattle.hold_roles.specs.declared.fault.RoleFault.{RoleFault};
ghost use Rattle.hold_roles.specs.Faults.{first_unknown};
ghost use Rattle.hold_roles.specs.inner.Cells.{cell_places};

use crate::fault::RoleFault;
use crate::library::Library;
use hold_base::Stop;
use hold_netlist::Inst;
use std::alloc::Global;

/// The place of each instance's type in the library, which must have it.
pub(crate) fn cells_of(
    alloc: Global,
    library: &Library,
    insts: &[Inst],
) -> Result<Vec<u32>, Stop<RoleFault>>
    ensures known { OnOk result (first_unknown library.now insts.now ≡ None) }
    ensures cells { IfOk result (λ cells. cells.items ≡ cell_places library.now insts.now) }
    ensures fault { IfFault result (λ fault. option_map RoleFault.NoRole (first_unknown library.now insts.now) ≡ Some fault) }
{
    let mut cells = Vec::with_capacity(alloc, insts.len())?;
    for inst in insts {
        let Some(place) = library.place(inst.kind.bytes()) else {
            return Err(Stop::Fault(RoleFault::NoRole(inst.kind.clone()?)));
        };
        cells.push(place)?;
    }
    Ok(cells)
}
