ghost use Rattle.std.specs.Prelude.{◌≡◌, ◌≤◌, ◌^◌, All, IfOk, length};
ghost use Rattle.hold_plain.specs.inner.Limits.{IsTimed};
ghost use Rattle.hold_plain.specs.inner.RegisterPins.{check_time, is_of};
ghost use Rattle.hold_plain.specs.Problem.{clock_span, is_clock_pin, is_data, is_launch, launch_span, pins_with, uses_with};

use crate::pin_use::{PinRole, PinUse};
use crate::times::{clock_span, hold_of, launch_span, setup_of};
use hold_base::{Interval, Memory, PinNo, Side};
use std::alloc::Global;

/// A kind of pin that a register has.
#[derive(Clone, Copy)]
pub(crate) enum RegisterPin {
    Clock,
    Data,
    Output,
}

/// Whether a role is that of a pin of the kind.
fn is_of(kind: RegisterPin, role: PinRole) -> bool
    ensures { result ≡ is_of kind role }
{
    match kind {
        RegisterPin::Clock => matches!(role, PinRole::Clock),
        RegisterPin::Data => matches!(role, PinRole::Data),
        RegisterPin::Output => matches!(role, PinRole::Launch),
    }
}

/// The numbers of the pins of a kind, in their order.
pub(crate) fn pins_of(
    alloc: Global,
    kind: RegisterPin,
    uses: &[PinUse],
) -> Result<Vec<PinNo>, Memory>
    requires { length uses.now ≤ 2 ^ 20 }
    ensures { IfOk result (λ pins. pins.items ≡ pins_with (is_of kind) uses.now) }
{
    let mut pins = Vec::new(alloc);
    for (place, pin) in uses.iter().enumerate() {
        if is_of(kind, pin.role) {
            pins.push(PinNo(place as u32))?;
        }
    }
    Ok(pins)
}

/// When the outputs of registers change, in fs, in the order of these pins.
pub(crate) fn launch_spans(alloc: Global, uses: &[PinUse]) -> Result<Vec<Interval>, Memory>
    requires { All IsTimed uses.now }
    ensures { IfOk result (λ spans. spans.items ≡ uses_with is_launch launch_span uses.now) }
{
    let mut spans = Vec::new(alloc);
    for pin in uses {
        if is_of(RegisterPin::Output, pin.role) {
            spans.push(launch_span(pin))?;
        }
    }
    Ok(spans)
}

/// When the clock arrives at the registers of data pins, in fs, in the order of these pins.
pub(crate) fn capture_spans(alloc: Global, uses: &[PinUse]) -> Result<Vec<Interval>, Memory>
    ensures { IfOk result (λ spans. spans.items ≡ uses_with is_data clock_span uses.now) }
{
    let mut spans = Vec::new(alloc);
    for pin in uses {
        if is_of(RegisterPin::Data, pin.role) {
            spans.push(clock_span(pin))?;
        }
    }
    Ok(spans)
}

/// What the check of a side asks of a data pin, in fs.
fn check_time(side: Side, pin: &PinUse) -> i64
    ensures { result ≡ check_time side pin.now }
{
    match side {
        Side::Early => hold_of(pin),
        Side::Late => setup_of(pin),
    }
}

/// What the check of a side asks of data pins, in fs, in the order of these pins.
pub(crate) fn check_times(alloc: Global, side: Side, uses: &[PinUse]) -> Result<Vec<i64>, Memory>
    ensures { IfOk result (λ times. times.items ≡ uses_with is_data (check_time side) uses.now) }
{
    let mut times = Vec::new(alloc);
    for pin in uses {
        if is_of(RegisterPin::Data, pin.role) {
            times.push(check_time(side, pin))?;
        }
    }
    Ok(times)
}
