ghost use Rattle.std.specs.Prelude.{◌≡◌};
ghost use Rattle.hold_vparse.specs.BitFaults.{reach};
ghost use Rattle.hold_vparse.specs.inner.Measured.{seen_reach};
ghost use Rattle.hold_vparse.specs.inner.Index.{at_place};
ghost use Rattle.hold_vparse.specs.inner.Ranges.{net_ranges};

use crate::measured::Measured;
use crate::nets::Nets;
use crate::ranges::Ranges;
use hold_base::Name;

/// All nets, with what is known of their ranges.
#[derive(Clone, Copy)]
pub(crate) struct RangedNets<'a> {
    pub nets: &'a Nets<'a>,
    pub ranges: &'a Ranges<'a>,
    ghost same: { ranges.now.nets ≡ net_ranges nets.now },
}

impl RangedNets<'_> {
    /// The place of the net of this name.
    pub(crate) fn place(&self, name: &Name) -> Option<u32>
        ensures { at_place self.now.ranges.now.nets result ≡ reach self.now.nets.now name.now }
    {
        self.nets.place(name)
    }

    /// Whether there is a net of this name, and what is known of its range where it has one.
    pub(crate) fn reach(&self, name: &Name) -> Option<Option<&Measured<'_>>>
        ensures { seen_reach result ≡ reach self.now.nets.now name.now }
    {
        self.ranges.reach(self.place(name))
    }
}
