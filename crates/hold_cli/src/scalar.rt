ghost use Rattle.std.specs.Prelude.{◌≡◌, ◌↔◌, All, [], None, IsTrue};
ghost use Rattle.hold_plain.specs.Served.{IsScalar};

use hold_netlist::{Assign, Netlist, Wire};

/// Whether each wire is a scalar and nothing is assigned.
pub fn is_scalar(netlist: &Netlist) -> bool
    ensures { IsTrue result ↔ IsScalar netlist.now }
{
    are_scalar(netlist.wires()) && is_empty(netlist.assigns())
}

fn are_scalar(wires: &[Wire]) -> bool
    ensures { IsTrue result ↔ All (λ w. w.range ≡ None) wires.now }
{
    wires.iter().all(|wire| wire.range.is_none())
}

fn is_empty(assigns: &[Assign]) -> bool
    ensures { IsTrue result ↔ (assigns.now ≡ []) }
{
    assigns.is_empty()
}
