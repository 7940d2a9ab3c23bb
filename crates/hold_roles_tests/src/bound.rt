//! What a bound netlist lends.

use crate::library::small;
use hold_base::InstNo;
use hold_roles::{Role, bind};
use hold_vparse::read;
use std::test::Fail;

#[test]
fn a_bound_netlist_lends_what_it_was_made_of(rt: HostRuntime) -> Result<(), Fail> {
    let alloc = rt.alloc();
    let library = small(alloc)?;
    let netlist = read(
        alloc,
        b"module m(a); input a; INV u(.A(a)); LAT v(); DFF w(.C(a)); endmodule",
    )?;
    let copy = netlist.clone()?;
    let bound = bind(alloc, netlist, &library)?;
    assert!(rt; bound.netlist().same(&copy));
    assert_eq!(rt; bound.library().types().len(), 5);
    assert!(rt; bound.library().find(b"NAND").is_some());
    if bound.netlist().insts().len() == 3 {
        assert_eq!(rt; bound.role(InstNo(0)), Role::Comb);
        assert_eq!(rt; bound.role(InstNo(1)), Role::Opaque);
        assert_eq!(rt; bound.cell(InstNo(2)).name.bytes(), b"DFF".as_slice());
    } else {
        assert!(rt; false);
    }
    Ok(())
}
