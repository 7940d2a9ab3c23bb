ghost use Rattle.std.specs.Prelude.{◌≡◌, None, Some, ℕ, IfSome};
ghost use Rattle.hold_build.specs.Pins.{IsPinOf};
ghost use Rattle.hold_netlist.specs.declared.inst.Pin.{Pin as Connection};
ghost use Rattle.hold_roles.specs.declared.role.CellType.{CellType as Cell};
ghost use Rattle.hold_values.specs.inner.Found.{IsPinFound};

use hold_base::{InstNo, PinNo};
use hold_netlist::{Netlist, Pin};
use hold_roles::{Bound, CellType};

/// The instance and the connection that a pin is; None of a bit of a port.
fn connection(netlist: &Netlist, pin: PinNo) -> Option<(InstNo, &Pin)>
    ensures some { IfSome result (λ found. IsPinFound netlist.now.insts pin found.0.0 found.1.now) }
    ensures none { result ≡ None → (inst : ℕ) (found : Connection) → IsPinFound netlist.now.insts pin inst found → ⊥ }
{
    let Some((inst, place)) = netlist.pin(pin) else {
        return None;
    };
    let pins = netlist.insts()[inst.0 as usize].pins.as_slice();
    Some((inst, &pins[place as usize]))
}

/// The instance, its type and the connection that a pin is; None of a bit of a port.
pub(crate) fn pin_of(bound: &Bound, pin: PinNo) -> Option<(InstNo, &CellType, &Pin)>
    ensures some { IfSome result (λ found. IsPinOf bound.now pin found.0.0 found.1.now found.2.now) }
    ensures none { result ≡ None → (inst : ℕ) (t : Cell) (found : Connection) → IsPinOf bound.now pin inst t found → ⊥ }
{
    let Some((inst, found)) = connection(bound.netlist(), pin) else {
        return None;
    };
    Some((inst, bound.cell(inst), found))
}
