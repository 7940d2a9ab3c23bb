//! What a graph is by its definition, slowly: sets of up to 64 pins, as bits, that walks lead to or from.

use crate::parts::Shape;

/// Whether the set has the pin.
pub(crate) fn has(set: u64, pin: u32) -> bool {
    pin < 64 && (set >> pin) & 1 == 1
}

fn with(set: u64, pin: u32) -> u64 {
    if pin < 64 { set | (1 << pin) } else { set }
}

/// The set of these pins.
pub(crate) fn set_of(pins: &[u32]) -> u64 {
    let mut set = 0;
    for pin in pins {
        set = with(set, *pin);
    }
    set
}

fn step_on(arcs: &[(u32, u32, bool)], set: u64) -> u64 {
    let mut more = set;
    for (from, to, _wire) in arcs {
        if has(set, *from) {
            more = with(more, *to);
        }
    }
    more
}

/// The pins to which walks of zero or more arcs lead from the set.
pub(crate) fn led_to(arcs: &[(u32, u32, bool)], set: u64) -> u64 {
    let mut led = set;
    for _step in 0..64 {
        led = step_on(arcs, led);
    }
    led
}

/// Whether some arc closes a cycle.
pub(crate) fn has_cycle(shape: Shape<'_>) -> bool {
    shape.arcs.iter().any(|(from, to, _wire)| has(led_to(shape.arcs, with(0, *to)), *from))
}

/// Whether the pin ends a wire arc to which a launch leads.
fn ends_led_wire(shape: Shape<'_>, pin: u32) -> bool {
    let led = led_to(shape.arcs, set_of(shape.launches));
    shape
        .arcs
        .iter()
        .any(|(from, to, wire)| *wire && *to == pin && has(led, *from))
}

/// Whether the pin is a site.
pub(crate) fn is_site(shape: Shape<'_>, pin: u32) -> bool {
    let on = led_to(shape.arcs, with(0, pin));
    ends_led_wire(shape, pin)
        && on & set_of(shape.captures) != 0
        && on & set_of(shape.clocks) == 0
        && !has(set_of(shape.keeps), pin)
}
