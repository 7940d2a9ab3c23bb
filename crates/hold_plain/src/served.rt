ghost use Rattle.std.specs.Prelude.{◌≡◌, ◌≢◌, ◌↔◌, ◌<◌, ◌^◌, All, IfNone, IfOk, IfSome, IsTrue, length, map};
ghost use Rattle.hold_plain.specs.declared.pin_use.PinRole.{PinRole};
ghost use Rattle.hold_plain.specs.inner.Keys.{ArePlaces};
ghost use Rattle.hold_plain.specs.Keys.{OneEach, driven, fed};
ghost use Rattle.hold_plain.specs.Served.{HasCheck, IsServedUses, HasNoConstant};
ghost use Rattle.hold_plain.specs.inner.Served.{IsUseWithin};
ghost use Rattle.hold_plain.specs.inner.Tested.{HasDelayIn, IsAfterDriver, IsInOrder, IsSoundList};

use crate::keys::{insts_fed, nets_driven};
use crate::pin_tests::{has_check, has_delay, has_no_constant, is_after_driver, is_known};
use crate::pin_use::PinUse;
use crate::places::places_of;
use hold_base::{Memory, limits};
use std::alloc::Global;

/// The places of the pins that drive each net, and of the connected input of each instance.
#[derive(Drop)]
pub(crate) struct Places {
    pub drivers: Vec<Option<u32>>,
    pub feeders: Vec<Option<u32>>,
}

/// Whether each pin is one of a known cell.
fn are_known(uses: &[PinUse]) -> bool
    ensures { IsTrue result ↔ All (λ u. u.role ≢ PinRole.Stray) uses.now }
{
    uses.iter().all(is_known)
}

/// Whether no output is tied to a constant.
fn have_no_constants(uses: &[PinUse]) -> bool
    ensures { IsTrue result ↔ All HasNoConstant uses.now }
{
    uses.iter().all(has_no_constant)
}

/// Whether each data pin has its check.
fn have_checks(uses: &[PinUse]) -> bool
    ensures { IsTrue result ↔ All HasCheck uses.now }
{
    uses.iter().all(has_check)
}

/// Whether each combinational instance is driven only by such instances as stand before it.
fn are_after_drivers(uses: &[PinUse], drivers: &[Option<u32>]) -> bool
    ensures { IsTrue result ↔ All (IsAfterDriver uses.now drivers.now) uses.now }
{
    uses.iter().all(|pin| is_after_driver(uses, drivers, pin))
}

/// Whether each output has its delay, where one is used.
fn have_delays(uses: &[PinUse], feeders: &[Option<u32>]) -> bool
    ensures { IsTrue result ↔ All (HasDelayIn feeders.now) uses.now }
{
    uses.iter().all(|pin| has_delay(feeders, pin))
}

/// Whether there aren't too many pins, and each is fine by itself.
fn is_sound(uses: &[PinUse]) -> bool
    ensures { IsTrue result ↔ IsSoundList uses.now }
{
    uses.len() as u64 <= limits::BOUND_PINS
        && are_known(uses)
        && have_no_constants(uses)
        && have_checks(uses)
}

/// The tables of places, None exactly where two pins drive one net, or two lead into one instance.
fn tables_of(
    alloc: Global,
    nets: usize,
    insts: usize,
    uses: &[PinUse],
) -> Result<Option<Places>, Memory>
    requires within { All (IsUseWithin nets insts) uses.now }
    requires count { length uses.now < 2 ^ 32 }
    ensures drivers { IfOk result (λ found. IfSome found (λ places. OneEach (map driven uses.now))) }
    ensures one_input { IfOk result (λ found. IfSome found (λ places. OneEach (map fed uses.now))) }
    ensures places { IfOk result (λ found. IfSome found (λ places. ArePlaces nets insts uses.now places.drivers.items places.feeders.items)) }
    ensures none { IfOk result (λ found. IfNone found (OneEach (map driven uses.now) → OneEach (map fed uses.now) → ⊥)) }
{
    let driven = nets_driven(alloc, uses)?;
    let Some(drivers) = places_of(alloc, nets, driven.as_slice())? else {
        return Ok(None);
    };
    let fed = insts_fed(alloc, uses)?;
    let Some(feeders) = places_of(alloc, insts, fed.as_slice())? else {
        return Ok(None);
    };
    Ok(Some(Places { drivers, feeders }))
}

/// Whether instances are driven only by those before them, and each delay that is used is known.
fn is_in_order(uses: &[PinUse], places: &Places) -> bool
    ensures { IsTrue result ↔ IsInOrder uses.now places.now.drivers.items places.now.feeders.items }
{
    are_after_drivers(uses, places.drivers.as_slice())
        && have_delays(uses, places.feeders.as_slice())
}

/// The tables of places of a list of pins that is served, None exactly where it isn't.
pub(crate) fn served_places(
    alloc: Global,
    nets: usize,
    insts: usize,
    uses: &[PinUse],
) -> Result<Option<Places>, Memory>
    requires within { All (IsUseWithin nets insts) uses.now }
    ensures served { IfOk result (λ found. IfSome found (λ places. IsServedUses uses.now)) }
    ensures places { IfOk result (λ found. IfSome found (λ places. ArePlaces nets insts uses.now places.drivers.items places.feeders.items)) }
    ensures none { IfOk result (λ found. IfNone found (IsServedUses uses.now → ⊥)) }
{
    if !is_sound(uses) {
        return Ok(None);
    }
    let Some(places) = tables_of(alloc, nets, insts, uses)? else {
        return Ok(None);
    };
    if !is_in_order(uses, &places) {
        return Ok(None);
    }
    Ok(Some(places))
}
