ghost use Rattle.std.specs.Prelude.{◌≡◌, IfOk, map};
ghost use Rattle.hold_plain.specs.Keys.{driven, fed, net_of};
ghost use Rattle.hold_plain.specs.PinUses.{is_tied};

use crate::pin_use::{PinRole, PinUse};
use hold_base::Memory;
use hold_netlist::Source;
use std::alloc::Global;

/// The net that a source names.
pub(crate) fn net_of(source: Source) -> Option<u32>
    ensures { result ≡ net_of source }
{
    match source {
        Source::Net(net) => Some(net.0),
        Source::Zero | Source::One | Source::Empty => None,
    }
}

/// Whether a source is a net or a constant.
fn is_tied(source: Source) -> bool
    ensures { result ≡ is_tied source }
{
    match source {
        Source::Net(_) | Source::Zero | Source::One => true,
        Source::Empty => false,
    }
}

/// The net that a pin drives.
fn driven(pin: &PinUse) -> Option<u32>
    ensures { result ≡ driven pin.now }
{
    match pin.role {
        PinRole::Output | PinRole::Launch | PinRole::InPort => net_of(pin.source),
        _ => None,
    }
}

/// The combinational instance that a pin, a connected input of it, leads into.
fn fed(pin: &PinUse) -> Option<u32>
    ensures { result ≡ fed pin.now }
{
    match pin.role {
        PinRole::Input if is_tied(pin.source) => Some(pin.inst),
        _ => None,
    }
}

/// The net that each pin drives.
pub(crate) fn nets_driven(alloc: Global, uses: &[PinUse]) -> Result<Vec<Option<u32>>, Memory>
    ensures { IfOk result (λ nets. nets.items ≡ map driven uses.now) }
{
    Ok(uses.iter().map(driven).collect(alloc)?)
}

/// The combinational instance that each pin leads into.
pub(crate) fn insts_fed(alloc: Global, uses: &[PinUse]) -> Result<Vec<Option<u32>>, Memory>
    ensures { IfOk result (λ insts. insts.items ≡ map fed uses.now) }
{
    Ok(uses.iter().map(fed).collect(alloc)?)
}
