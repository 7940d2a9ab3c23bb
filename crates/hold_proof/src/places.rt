ghost use Rattle.std.specs.Prelude.{◌≡◌, ◌<◌, length, IfOk};
ghost use Rattle.hold_base.specs.Interval.{hull_of};
ghost use Rattle.hold_graph.specs.Graph.{AreBelow};
ghost use Rattle.hold_graph.specs.Sums.{items_at, greatest_of};
ghost use Rattle.hold_proof.specs.inner.Places.{ArePlaces, IsPlacesOf, joined_to, greater, hull_or_none, time_or_none};

use hold_base::{Interval, Memory, PinNo};
use std::alloc::Global;

/// By pin, the places at which a list names it, each with a link to the next.
#[derive(Drop)]
pub(crate) struct Places {
    pub listed: Vec<PinNo>,
    /// By pin, the first of its places.
    pub first: Vec<Option<usize>>,
    /// By place, the next place of the same pin.
    pub next: Vec<Option<usize>>,
}

/// The places of a list of pins, of which there are so many.
pub(crate) fn places_of(alloc: Global, pins: u32, listed: &[PinNo]) -> Result<Places, Memory>
    requires { AreBelow pins listed.now }
    ensures { IfOk result (IsPlacesOf pins listed.now) }
{
    let mut first = vec![in alloc; None; pins as usize]?;
    let mut next = vec![in alloc; None; listed.len()]?;
    let mut place = listed.len();
    while place > 0 {
        place -= 1;
        let pin = listed[place].0 as usize;
        next[place] = first[pin];
        first[pin] = Some(place);
    }
    let listed = Vec::from_slice(alloc, listed)?;
    Ok(Places {
        listed,
        first,
        next,
    })
}

/// The least interval that has both, where there is a first one.
pub(crate) fn joined(hull: Option<Interval>, span: Interval) -> Option<Interval>
    ensures { result ≡ joined_to hull span }
{
    match hull {
        None => Some(span),
        Some(hull) => Some(hull.hull(span)),
    }
}

/// The interval, and 0 to 0 where there is none.
pub(crate) fn or_nothing(hull: Option<Interval>) -> Interval
    ensures { result ≡ hull_or_none hull }
{
    match hull {
        None => Interval {
            least: 0,
            greatest: 0,
        },
        Some(hull) => hull,
    }
}

/// The greater of two times, where there is a first one.
fn greater(greatest: Option<i64>, time: i64) -> Option<i64>
    ensures { result ≡ greater greatest time }
{
    match greatest {
        None => Some(time),
        Some(greatest) => Some(greatest.max(time)),
    }
}

/// The time, and 0 where there is none.
fn time_or_nothing(time: Option<i64>) -> i64
    ensures { result ≡ time_or_none time }
{
    match time {
        None => 0,
        Some(time) => time,
    }
}

impl Places {
    /// The hull of the spans that stand at the pin's places, and 0 to 0 where it has none.
    pub(crate) fn hull_at(&self, spans: &[Interval], pin: PinNo) -> Interval
        requires places { ArePlaces self.now }
        requires each { length spans.now ≡ length self.now.listed.items }
        requires there { pin.0 < length self.now.first.items }
        ensures { result ≡ hull_of (items_at self.now.listed.items spans.now pin) }
    {
        let mut hull = None;
        let mut at = self.first[pin.0 as usize];
        while let Some(place) = at {
            hull = joined(hull, spans[place]);
            at = self.next[place];
        }
        or_nothing(hull)
    }

    /// The greatest of the times that stand at the pin's places, and 0 where it has none.
    pub(crate) fn greatest_at(&self, times: &[i64], pin: PinNo) -> i64
        requires places { ArePlaces self.now }
        requires each { length times.now ≡ length self.now.listed.items }
        requires there { pin.0 < length self.now.first.items }
        ensures { result ≡ greatest_of (items_at self.now.listed.items times.now pin) }
    {
        let mut greatest = None;
        let mut at = self.first[pin.0 as usize];
        while let Some(place) = at {
            greatest = greater(greatest, times[place]);
            at = self.next[place];
        }
        time_or_nothing(greatest)
    }
}
