ghost use Rattle.std.specs.Prelude.{Ok, Err, IfOk};
ghost use Rattle.hold_base.specs.Answers.{Answers, IfFault};
ghost use Rattle.hold_netlist.specs.Design.{Design};
ghost use Rattle.hold_vparse.specs.declared.fault.VerilogFault.{VerilogFault as TheFault};
ghost use Rattle.hold_vparse.specs.Reads.{Reads, IsFirstFault};

use crate::declared::declared;
use crate::fault::VerilogFault;
use hold_base::Stop;
use hold_netlist::{Netlist, Seed};
use hold_vsyntax::syntax_tree;
use std::alloc::Global;

/// Reads a text of structural Verilog, a profile of IEEE 1364-2005: one module of scalar and vector ports and wires,
/// assignments of nets, parts and constant bits, and instances whose pins are connected by name. Comments,
/// attributes and directives that don't change the netlist are passed over.
///
/// The answer is the netlist that the text declares. A text that declares none is refused, for the first fault in
/// the order of [`VerilogFault`]'s variants: for a place where it has no token, for the first piece that can't
/// stand where it stands, for the first place at which a name, a port or a bit is at fault, or for the first limit
/// that it passes. Either is the only answer but for want of memory, which may come at any text.
pub fn read(alloc: Global, text: &[u8]) -> Result<Netlist, Stop<VerilogFault>>
    ensures read { IfOk result (Reads text.now) }
    ensures refused { IfFault result (IsFirstFault text.now) }
    ensures only_read { (d : Design) → Reads text.now d → Answers result (Ok d) }
    ensures only_refused { (fault : TheFault) → IsFirstFault text.now fault → Answers result (Err fault) }
{
    netlist_of_text(alloc, text)
}

/// Reads the netlist that the text declares.
fn netlist_of_text(alloc: Global, text: &[u8]) -> Result<Netlist, Stop<VerilogFault>>
    ensures read { IfOk result (Reads text.now) }
    ensures refused { IfFault result (IsFirstFault text.now) }
{
    match syntax_tree(alloc, text) {
        Ok(tree) => declared(alloc, Seed::of(text), &tree),
        Err(Stop::Memory) => Err(Stop::Memory),
        Err(Stop::Fault(fault)) => Err(Stop::Fault(VerilogFault::from(fault))),
    }
}
