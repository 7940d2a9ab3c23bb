ghost use Rattle.std.specs.Prelude.{◌≡◌, ◌<◌, length};
ghost use Rattle.hold_netlist.specs.Bits.{bits_of};
ghost use Rattle.hold_roles.specs.Binding.{binding};
ghost use Rattle.hold_roles.specs.Drivers.{drivers};
ghost use Rattle.hold_roles.specs.Faults.{IsSound};
ghost use Rattle.hold_roles.specs.declared.roots.Root.{Root};
ghost use Rattle.hold_roles.specs.Roots.{IsRoot};
ghost use Rattle.hold_roles.specs.Types.{IsTypeOf, IsRoleOf};
ghost use Rattle.hold_roles.specs.inner.Cells.{cell_places};
ghost use Rattle.hold_roles.specs.inner.Marks.{AreRoots};

use crate::library::Library;
use crate::role::{CellType, Role};
use crate::roots::Root;
use hold_base::{InstNo, NetNo};
use hold_netlist::Netlist;
use std::marker::Model;

/// A netlist whose instances have types of a library, and whose net bits have one root each. Nothing of it is at fault.
#[derive(Drop)]
pub struct Bound {
    netlist: Netlist,
    library: Library,
    /// The place of each instance's type.
    cells: Vec<u32>,
    /// The root of each net bit.
    roots: Vec<Root>,
}

impl Model for Bound {
    ghost use Rattle.std.specs.Prelude.{◌≡◌};
    ghost use Rattle.hold_netlist.specs.Bits.{bits_of};
    ghost use Rattle.hold_roles.specs.Binding.{Binding, binding};
    ghost use Rattle.hold_roles.specs.Drivers.{drivers};
    ghost use Rattle.hold_roles.specs.Faults.{IsSound};
    ghost use Rattle.hold_roles.specs.inner.Cells.{cell_places};
    ghost use Rattle.hold_roles.specs.inner.Marks.{AreRoots};

    ghost Value = { Binding };

    ghost view = { λ b. binding b.library b.netlist };

    ghost invariant = { λ b. IsSound b.library b.netlist × (b.cells.items ≡ cell_places b.library b.netlist.insts) × AreRoots (drivers b.library b.netlist) (bits_of b.netlist.wires) b.roots.items };
}

impl Bound {
    /// The netlist of these parts, which are taken over.
    pub(crate) fn new(
        netlist: Netlist,
        library: Library,
        cells: Vec<u32>,
        roots: Vec<Root>,
    ) -> Bound
        requires sound { IsSound library netlist }
        requires cells { cells.items ≡ cell_places library netlist.insts }
        requires roots { AreRoots (drivers library netlist) (bits_of netlist.wires) roots.items }
        ensures { result ≡ binding library netlist }
    {
        Bound {
            netlist,
            library,
            cells,
            roots,
        }
    }

    /// The netlist.
    pub fn netlist(&self) -> &Netlist
        ensures { result.now ≡ self.now.netlist }
    {
        &self.netlist
    }

    /// The library.
    pub fn library(&self) -> &Library
        ensures { result.now ≡ self.now.types }
    {
        &self.library
    }

    /// The root of a net bit.
    pub fn root(&self, net: NetNo) -> Root
        requires { net.0 < bits_of self.now.netlist.wires }
        ensures is { IsRoot (drivers self.now.types self.now.netlist) net.0 result }
        ensures one { (root : Root) → IsRoot (drivers self.now.types self.now.netlist) net.0 root → root ≡ result }
    {
        let roots = self.roots.as_slice();
        roots[net.0 as usize]
    }

    /// The type of an instance.
    pub fn cell(&self, inst: InstNo) -> &CellType
        requires { inst.0 < length self.now.netlist.insts }
        ensures { IsTypeOf self.now.types self.now.netlist.insts inst.0 result.now }
    {
        let cells = self.cells.as_slice();
        &self.library.types()[cells[inst.0 as usize] as usize]
    }

    /// The role of an instance.
    pub fn role(&self, inst: InstNo) -> Role
        requires { inst.0 < length self.now.netlist.insts }
        ensures { IsRoleOf self.now.types self.now.netlist.insts inst.0 result }
    {
        self.cell(inst).role
    }

    /// Does nothing. A proof learns from the call that nothing of the netlist is at fault.
    pub fn know_sound(&self)
        ensures { IsSound self.now.types self.now.netlist }
    {
        let _netlist = &self.netlist;
    }
}
