use crate::named::Named;
use hold_base::Interval;

/// Where what an entry says belongs, and what it says, in fs.
#[derive(Clone, Copy, Debug)]
pub(crate) enum Place {
    /// The arc between two pins; and the delay to the second of them, where the first is the clock pin of its instance.
    Arc {
        from: Named,
        to: Named,
        wire: bool,
        clocked: bool,
        span: Option<Interval>,
    },
    /// The check of a pin.
    Check {
        pin: Named,
        setup: Option<i64>,
        hold: Option<i64>,
    },
}
