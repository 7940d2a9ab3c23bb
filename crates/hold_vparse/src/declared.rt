ghost use Rattle.std.specs.Prelude.{IfOk};
ghost use Rattle.hold_base.specs.Answers.{IfFault};
ghost use Rattle.hold_vsyntax.specs.Named.{IsNamedModule};
ghost use Rattle.hold_vparse.specs.inner.DeclaredNetlist.{IsDeclared, IsFirstNameFault};

use crate::fault::VerilogFault;
use crate::netlist::netlist_of;
use crate::tables::{parts_in, tables_of};
use hold_base::Stop;
use hold_netlist::{Netlist, Seed};
use hold_vsyntax::tree::Module;
use std::alloc::Global;

/// The netlist that a module declares, or the first fault in its names and limits. Its tables hash by
/// this seed, which is the text's.
pub(crate) fn declared(
    alloc: Global,
    seed: Seed,
    tree: &Module,
) -> Result<Netlist, Stop<VerilogFault>>
    requires { IsNamedModule tree.now }
    ensures declared { IfOk result (IsDeclared tree.now) }
    ensures refused { IfFault result (IsFirstNameFault tree.now) }
{
    let tables = tables_of(alloc, seed, tree)?;
    netlist_of(alloc, &parts_in(&tables))
}
