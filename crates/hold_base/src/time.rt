ghost use Rattle.std.specs.Prelude.{◌≡◌};
ghost use Rattle.hold_base.specs.Interval.{IsOrdered, hull};

/// Which end of the clock cycle a check looks at: hold looks at early arrivals, setup at late ones.
#[derive(Clone, Copy, Debug, PartialEq, Eq, PartialOrd, Ord)]
pub enum Side {
    Early,
    Late,
}

/// The times from `least` to `greatest`, both ends among them, in fs. Whoever makes one keeps the ends in
/// order, and says so by `IsOrdered`.
#[derive(Clone, Copy, Debug, PartialEq, Eq)]
pub struct Interval {
    pub least: i64,
    pub greatest: i64,
}

impl Interval {
    /// The least interval that has both: the lesser least end and the greater greatest end, in fs.
    pub fn hull(self, other: Interval) -> Interval
        ensures hull { result ≡ hull self other }
        ensures ordered { IsOrdered self → IsOrdered other → IsOrdered result }
    {
        Interval {
            least: self.least.min(other.least),
            greatest: self.greatest.max(other.greatest),
        }
    }
}
