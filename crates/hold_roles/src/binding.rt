ghost use Rattle.std.specs.Prelude.{◌≡◌, Ok, Err, IfOk, OnOk};
ghost use Rattle.hold_base.specs.Answers.{Answers, IfFault};
ghost use Rattle.hold_netlist.specs.PinText.{bit_name};
ghost use Rattle.hold_roles.specs.declared.fault.RoleFault.{RoleFault};
ghost use Rattle.hold_roles.specs.Binding.{binding};
ghost use Rattle.hold_roles.specs.Faults.{IsFirstFault, IsSound};

use crate::bound::Bound;
use crate::cells::cells_of;
use crate::drivers::{first_double, slots_of};
use crate::fault::RoleFault;
use crate::library::Library;
use crate::limits::passed_limit;
use crate::marks::{first_ring, marks_of, roots_of};
use crate::pins::test_pins;
use hold_base::{Memory, Name, NetNo, Stop};
use hold_netlist::Netlist;
use std::alloc::Global;

/// How a net bit is said.
fn bit_name(alloc: Global, netlist: &Netlist, net: u32) -> Result<Name, Memory>
    ensures { IfOk result (λ name. name ≡ bit_name netlist.now.wires net) }
{
    let mut text = Vec::new(alloc);
    netlist.put_net_bit(&mut text, NetNo(net))?;
    Name::from_bytes(alloc, &text)
}

/// The bound netlist, or its first fault.
fn bound(alloc: Global, netlist: Netlist, library: &Library) -> Result<Bound, Stop<RoleFault>>
    ensures made { IfOk result (λ bound. bound ≡ binding library.now netlist) }
    ensures sound { OnOk result (IsSound library.now netlist) }
    ensures fault { IfFault result (λ fault. IsFirstFault library.now netlist fault) }
{
    netlist.know_valid();
    if let Some(what) = passed_limit(&netlist) {
        return Err(Stop::Fault(RoleFault::Limit(what)));
    }
    let cells = cells_of(alloc, library, netlist.insts())?;
    test_pins(library, netlist.insts())?;
    let slots = slots_of(alloc, library, &netlist)?;
    if let Some(net) = first_double(&slots) {
        let name = bit_name(alloc, &netlist, net)?;
        return Err(Stop::Fault(RoleFault::DoubleDriver(name)));
    }
    let marks = marks_of(alloc, &slots)?;
    if let Some(net) = first_ring(&marks) {
        let name = bit_name(alloc, &netlist, net)?;
        return Err(Stop::Fault(RoleFault::AssignRing(name)));
    }
    let roots = roots_of(alloc, &marks)?;
    let library = library.copy(alloc)?;
    Ok(Bound::new(netlist, library, cells, roots))
}

/// Binds a netlist, which is taken over, to the types of a library, of which a copy is kept. Refused for a passed limit, else for an
/// instance of no listed type, for a pin that isn't one of its type's or an output tied to a constant, for a net bit with two
/// drivers, or for a ring of assignments, each at its first place.
pub fn bind(alloc: Global, netlist: Netlist, library: &Library) -> Result<Bound, Stop<RoleFault>>
    ensures made { IfOk result (λ bound. bound ≡ binding library.now netlist) }
    ensures sound { OnOk result (IsSound library.now netlist) }
    ensures fault { IfFault result (λ fault. IsFirstFault library.now netlist fault) }
    ensures bound { IsSound library.now netlist → Answers result (Ok (binding library.now netlist)) }
    ensures refused { (fault : RoleFault) → IsFirstFault library.now netlist fault → Answers result (Err fault) }
{
    bound(alloc, netlist, library)
}
