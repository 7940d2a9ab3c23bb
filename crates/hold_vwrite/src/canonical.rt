ghost use Rattle.std.specs.Prelude.{◌≡◌, IfOk};
ghost use Rattle.hold_netlist.specs.CanonicalText.{canonical_text};

use crate::insts::put_inst_lines;
use crate::lines::{put_assign_lines, put_port_lines, put_wire_lines};
use crate::module::put_module_line;
use hold_base::Memory;
use hold_netlist::Netlist;
use std::alloc::Global;

/// The canonical Verilog text of a netlist. The time is linear in the text, but for the search for the wire
/// of each net bit, which is logarithmic in the number of wires.
pub fn write(alloc: Global, netlist: &Netlist) -> Result<Vec<u8>, Memory>
    ensures { IfOk result (λ text. text.items ≡ canonical_text netlist.now) }
{
    netlist.know_valid();
    let ports = netlist.ports();
    let wires = netlist.wires();
    let (_, others) = wires.split_at(ports.len());
    let mut out = Vec::new(alloc);
    put_module_line(&mut out, netlist.name(), ports)?;
    put_port_lines(&mut out, ports, wires)?;
    put_wire_lines(&mut out, others)?;
    put_assign_lines(&mut out, netlist, netlist.assigns())?;
    put_inst_lines(&mut out, netlist, netlist.insts())?;
    out.extend_from_slice(b"endmodule\n")?;
    Ok(out)
}
