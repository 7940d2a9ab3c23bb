ghost use Rattle.std.specs.Prelude.{◌≤◌};

/// The unit of a number: 10 ^ `exponent` fs, from 1 fs at 0 to 100 s at 17.
#[derive(Clone, Copy, Debug, PartialEq, Eq)]
pub struct Scale {
    pub exponent: u8,
    ghost within: { exponent ≤ 17 },
}
