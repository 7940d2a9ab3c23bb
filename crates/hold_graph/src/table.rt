ghost use Rattle.std.specs.Prelude.{◌≡◌, ◌<◌, IfOk, length};
ghost use Rattle.hold_graph.specs.Graph.{AreBelow};
ghost use Rattle.hold_graph.specs.inner.Arrival.{lesser, IsLeastByPin};

use hold_base::{Memory, PinNo};
use std::alloc::Global;

/// The lesser of two numbers, either of which may be missing.
pub(crate) fn lesser(a: Option<i64>, b: Option<i64>) -> Option<i64>
    ensures { result ≡ lesser a b }
{
    match (a, b) {
        (None, _) => b,
        (Some(x), None) => Some(x),
        (Some(x), Some(y)) => Some(x.min(y)),
    }
}

/// By pin, the least of the numbers at the places where the pin is listed.
pub(crate) fn least_by_pin(
    alloc: Global,
    pins: u32,
    listed: &[PinNo],
    numbers: &[i64],
) -> Result<Vec<Option<i64>>, Memory>
    requires below { AreBelow pins listed.now }
    requires each { length numbers.now ≡ length listed.now }
    ensures len { IfOk result (λ table. length table.items ≡ pins) }
    ensures least { IfOk result (λ table. IsLeastByPin pins listed.now numbers.now table.items) }
{
    let mut table = vec![in alloc; None; pins as usize]?;
    for (place, pin) in listed.iter().enumerate() {
        let at = pin.0 as usize;
        table[at] = lesser(table[at], Some(numbers[place]));
    }
    Ok(table)
}
