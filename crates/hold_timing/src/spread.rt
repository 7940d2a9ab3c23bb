ghost use Rattle.std.specs.Prelude.{◌≡◌, ◌<◌, length, replicate, slice_index_or, IfOk, None};
ghost use Rattle.hold_graph.specs.Graph.{AreBelow};
ghost use Rattle.hold_graph.specs.Sums.{end_of};
ghost use Rattle.hold_base.specs.declared.number.PinNo.{PinNo as Pin};
ghost use Rattle.hold_timing.specs.inner.Pass.{spread};

use crate::worse::{end_of, worse};
use hold_base::{Interval, Memory, PinNo, Side};
use std::alloc::Global;

/// By pin, no time.
pub(crate) fn no_times(alloc: Global, pins: u32) -> Result<Vec<Option<i64>>, Memory>
    ensures { IfOk result (λ table. table.items ≡ replicate pins None) }
{
    Ok(vec![in alloc; None; pins as usize]?)
}

/// To each listed pin in the table, the worse of what stands there and of the ends of its spans.
pub(crate) fn spread_spans(
    table: &mut Vec<Option<i64>>,
    side: Side,
    listed: &[PinNo],
    spans: &[Interval],
)
    requires below { AreBelow (length table.old.items) listed.now }
    requires each { length spans.now ≡ length listed.now }
    ensures len { length table.new.items ≡ length table.old.items }
    ensures each { (pin : Pin) → pin.0 < length table.old.items →
        slice_index_or table.new.items pin.0 None
        ≡ spread side (end_of side) (slice_index_or table.old.items pin.0 None) listed.now spans.now pin }
{
    for (place, pin) in listed.iter().enumerate() {
        let at = pin.0 as usize;
        table[at] = worse(side, table[at], Some(end_of(side, spans[place])));
    }
}

/// The same with times.
pub(crate) fn spread_times(
    table: &mut Vec<Option<i64>>,
    side: Side,
    listed: &[PinNo],
    times: &[i64],
)
    requires below { AreBelow (length table.old.items) listed.now }
    requires each { length times.now ≡ length listed.now }
    ensures len { length table.new.items ≡ length table.old.items }
    ensures each { (pin : Pin) → pin.0 < length table.old.items →
        slice_index_or table.new.items pin.0 None
        ≡ spread side (λ time. time) (slice_index_or table.old.items pin.0 None) listed.now times.now pin }
{
    for (place, pin) in listed.iter().enumerate() {
        let at = pin.0 as usize;
        table[at] = worse(side, table[at], Some(times[place]));
    }
}
