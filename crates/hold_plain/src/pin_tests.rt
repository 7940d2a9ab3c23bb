ghost use Rattle.std.specs.Prelude.{◌≡◌, ◌≢◌, ◌↔◌, IsTrue, None, slice_index_or};
ghost use Rattle.hold_plain.specs.declared.pin_use.PinRole.{PinRole};
ghost use Rattle.hold_plain.specs.Served.{HasCheck, IsNoConstant, HasNoConstant};
ghost use Rattle.hold_plain.specs.inner.Tested.{HasDelayIn, IsAfterDriver, IsBefore, input_net};

use crate::keys::net_of;
use crate::pin_use::{PinRole, PinUse};
use crate::places::place_at;
use hold_netlist::Source;

/// Whether the cell of a pin's instance is known, and has the pin.
pub(crate) fn is_known(pin: &PinUse) -> bool
    ensures { IsTrue result ↔ (pin.now.role ≢ PinRole.Stray) }
{
    !matches!(pin.role, PinRole::Stray)
}

/// Whether a source is no constant.
fn is_no_constant(source: Source) -> bool
    ensures { IsTrue result ↔ IsNoConstant source }
{
    !matches!(source, Source::Zero | Source::One)
}

/// Whether a pin isn't an output that is tied to a constant.
pub(crate) fn has_no_constant(pin: &PinUse) -> bool
    ensures { IsTrue result ↔ HasNoConstant pin.now }
{
    match pin.role {
        PinRole::Output | PinRole::Launch => is_no_constant(pin.source),
        _ => true,
    }
}

/// Whether a data pin has its check.
pub(crate) fn has_check(pin: &PinUse) -> bool
    ensures { IsTrue result ↔ HasCheck pin.now }
{
    match pin.role {
        PinRole::Data => pin.check.is_some(),
        _ => true,
    }
}

/// The net that an input of a combinational instance is tied to, None at every other pin.
fn input_net(pin: &PinUse) -> Option<u32>
    ensures { result ≡ input_net pin.now }
{
    match pin.role {
        PinRole::Input => net_of(pin.source),
        _ => None,
    }
}

/// Whether the combinational instance of an output stands before the instance of another pin. True of a
/// pin that is no such output.
fn is_before(from: &PinUse, to: &PinUse) -> bool
    ensures { IsTrue result ↔ IsBefore from.now to.now }
{
    match from.role {
        PinRole::Output => from.inst < to.inst,
        _ => true,
    }
}

/// Whether the combinational instance that drives an input, if one does, stands before the input's own.
pub(crate) fn is_after_driver(uses: &[PinUse], drivers: &[Option<u32>], pin: &PinUse) -> bool
    ensures { IsTrue result ↔ IsAfterDriver uses.now drivers.now pin.now }
{
    let Some(net) = input_net(pin) else {
        return true;
    };
    let Some(place) = place_at(drivers, net) else {
        return true;
    };
    match uses.get(place as usize) {
        Some(from) => is_before(from, pin),
        None => true,
    }
}

/// Whether an output has its delay, where one is used.
pub(crate) fn has_delay(feeders: &[Option<u32>], pin: &PinUse) -> bool
    ensures { IsTrue result ↔ HasDelayIn feeders.now pin.now }
{
    match pin.role {
        PinRole::Output => place_at(feeders, pin.inst).is_none() || pin.delay.is_some(),
        PinRole::Launch => pin.delay.is_some(),
        _ => true,
    }
}
