ghost use Rattle.std.specs.Prelude.{◌≡◌, ◌↔◌, ◌⊎◌, IsTrue};
ghost use Rattle.hold_timing.specs.declared.end.End.{End as Ending};
ghost use Rattle.hold_timing.specs.Ends.{GoesBefore, IsBefore};
ghost use Rattle.hold_timing.specs.inner.Search.{end_at};

use hold_base::PinNo;

/// Where checked paths end, and the least slack of those that end there, in fs: below 0 where a check is missed.
#[derive(Clone, Copy, Debug, PartialEq, Eq)]
pub struct End {
    pub capture: PinNo,
    pub slack: i64,
}

/// The end at a capture with that slack, none where no path ends there.
pub(crate) fn end_at(capture: PinNo, slack: Option<i64>) -> Option<End>
    ensures { result ≡ end_at capture slack }
{
    match slack {
        Some(slack) => Some(End { capture, slack }),
        None => None,
    }
}

/// Whether the first end has the lesser slack, or the same slack and no greater pin.
fn goes_before(a: End, b: End) -> bool
    ensures { IsTrue result ↔ GoesBefore a b }
{
    a.slack < b.slack || a.slack == b.slack && a.capture.0 <= b.capture.0
}

/// The one of two ends that goes before the other.
fn first_of(a: End, b: End) -> End
    ensures one { (result ≡ a) ⊎ (result ≡ b) }
    ensures left { GoesBefore result a }
    ensures right { GoesBefore result b }
{
    if goes_before(a, b) { a } else { b }
}

/// The same of ends either of which may be missing.
pub(crate) fn worse_end(a: Option<End>, b: Option<End>) -> Option<End>
    ensures one { (result ≡ a) ⊎ (result ≡ b) }
    ensures left { (end : Ending) → IsBefore a end → IsBefore result end }
    ensures right { (end : Ending) → IsBefore b end → IsBefore result end }
{
    match (a, b) {
        (None, _) => b,
        (Some(x), None) => Some(x),
        (Some(x), Some(y)) => Some(first_of(x, y)),
    }
}
