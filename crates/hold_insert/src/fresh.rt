ghost use Rattle.std.specs.Prelude.{◌≡◌, ◌<◌, ◌≤◌, ◌++◌, ◌∷◌, [], ◌^◌, ℕ, List as Items, IfOk, length, true, false, slice_index_or};
ghost use Rattle.std.specs.List.{count_by};
ghost use Rattle.hold_netlist.specs.Names.{wire_names};
ghost use Rattle.hold_insert.specs.NewNames.{inst_names, IsFresh};
ghost use Rattle.hold_insert.specs.inner.Used.{AreUsed};

use crate::number::number_of;
use hold_base::{Memory, Name};
use hold_netlist::{Inst, Netlist, Wire};
use std::alloc::Global;

/// Notes the number that a name takes, if it takes one that there is a flag for.
fn mark(used: &mut Vec<bool>, name: &Name)
    requires { length used.old.items < 2 ^ 32 }
    ensures used { (names : Items (Items ℕ)) → AreUsed names used.old.items → AreUsed (names ++ name.now ∷ []) used.new.items }
    ensures len { length used.new.items ≡ length used.old.items }
{
    if let Some(n) = number_of(name.bytes()) {
        if (n as usize) < used.len() {
            used[n as usize] = true;
        }
    }
}

/// Notes those that the names of wires take.
fn mark_wires(used: &mut Vec<bool>, wires: &[Wire])
    requires { length used.old.items < 2 ^ 32 }
    ensures used { (names : Items (Items ℕ)) → AreUsed names used.old.items → AreUsed (names ++ wire_names wires.now) used.new.items }
    ensures len { length used.new.items ≡ length used.old.items }
{
    for wire in wires {
        mark(used, &wire.name);
    }
}

/// Notes those that the names of instances take.
fn mark_insts(used: &mut Vec<bool>, insts: &[Inst])
    requires { length used.old.items < 2 ^ 32 }
    ensures used { (names : Items (Items ℕ)) → AreUsed names used.old.items → AreUsed (names ++ inst_names insts.now) used.new.items }
    ensures len { length used.new.items ≡ length used.old.items }
{
    for inst in insts {
        mark(used, &inst.name);
    }
}

/// The first flag that isn't set.
fn first_unset(used: &[bool]) -> usize
    requires { count_by (λ flag. flag) used.now < length used.now }
    ensures there { result < length used.now }
    ensures unset { slice_index_or used.now result true ≡ false }
    ensures before { (n : ℕ) → n < result → slice_index_or used.now n false ≡ true }
{
    for (n, flag) in used.iter().enumerate() {
        if !*flag {
            return n;
        }
    }
    used.len()
}

/// The least number whose new names are free in a netlist: one pass over the names, with a flag for each number up to how many names
/// there are.
pub(crate) fn fresh_number(alloc: Global, netlist: &Netlist) -> Result<u32, Memory>
    ensures { IfOk result (IsFresh netlist.now) }
{
    netlist.know_valid();
    let names = netlist.wires().len() + netlist.insts().len();
    let mut used = vec![in alloc; false; names + 1]?;
    mark_wires(&mut used, netlist.wires());
    mark_insts(&mut used, netlist.insts());
    Ok(first_unset(&used) as u32)
}
