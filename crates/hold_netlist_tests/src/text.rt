//! The canonical text of a netlist.

use crate::parts::small;
use hold_base::Stop;
use hold_netlist::NetFault;
use hold_vwrite::write;

#[test]
fn a_small_netlist(rt: HostRuntime) -> Result<(), Stop<NetFault>> {
    let netlist = small(rt.alloc())?;
    let text = write(rt.alloc(), &netlist)?;
    assert_eq!(rt;
        text.as_slice(),
        b"module \\u+1 (a, b);\n  input a;\n  output [3:2] b;\n  wire \\and ;\n  assign b[2] = \\and ;\n  INV u(.A(a), .Y(b[3]));\nendmodule\n".as_slice()
    );
    Ok(())
}
