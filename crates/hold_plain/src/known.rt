ghost use Rattle.std.specs.Prelude.{◌≡◌, ◌↔◌, length, All, IfOk, IfSome, IfNone, IsTrue};
ghost use Rattle.hold_plain.specs.inner.Known.{IsKnown};
ghost use Rattle.hold_plain.specs.inner.Limits.{IsTimed};
ghost use Rattle.hold_plain.specs.Limits.{KeepsLimits};
ghost use Rattle.hold_plain.specs.PinUses.{uses_of};
ghost use Rattle.hold_plain.specs.Served.{IsScalar};
ghost use Rattle.hold_plain.specs.inner.Served.{IsUseWithin};
ghost use Rattle.hold_plain.specs.inner.Tables.{AreTables};

use crate::pin_use::PinUse;
use crate::served_insts::{serves_clocks, serves_insts};
use crate::tables::Tables;
use crate::timing::Timing;
use crate::uses::uses_of;
use hold_base::Memory;
use hold_netlist::Netlist;
use std::alloc::Global;

/// Whether each instance has a known cell, and its arrival where it is a register, and each clock entry
/// names a register.
fn is_known(
    alloc: Global,
    tables: &Tables,
    timing: &Timing,
    netlist: &Netlist,
) -> Result<bool, Memory>
    requires { AreTables timing.now tables.now.cells tables.now.clocks }
    ensures { IfOk result (λ known. IsTrue known ↔ IsKnown timing.now netlist.now) }
{
    if !serves_insts(tables, timing, netlist) {
        return Ok(false);
    }
    serves_clocks(alloc, tables, timing, netlist)
}

/// What each pin of the netlist is, None exactly where its instances or the clock entries aren't known.
pub(crate) fn known_uses(
    alloc: Global,
    timing: &Timing,
    netlist: &Netlist,
) -> Result<Option<Vec<PinUse>>, Memory>
    ensures known { IfOk result (λ found. IfSome found (λ uses. IsKnown timing.now netlist.now)) }
    ensures is { IfOk result (λ found. IfSome found (λ uses. uses.items ≡ uses_of timing.now netlist.now)) }
    ensures timed { KeepsLimits timing.now → IfOk result (λ found. IfSome found (λ uses. All IsTimed uses.items)) }
    ensures within { IsScalar netlist.now → IfOk result (λ found. IfSome found (λ uses.
        All (IsUseWithin (length netlist.now.wires) (length netlist.now.insts)) uses.items)) }
    ensures none { IfOk result (λ found. IfNone found (IsKnown timing.now netlist.now → ⊥)) }
{
    let tables = Tables::make(alloc, timing)?;
    if !is_known(alloc, &tables, timing, netlist)? {
        return Ok(None);
    }
    let uses = uses_of(alloc, &tables, timing, netlist)?;
    Ok(Some(uses))
}
