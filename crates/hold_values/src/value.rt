use hold_base::Interval;

/// The values of a corner, in fs; None where none is given.
#[derive(Drop)]
pub struct Values {
    /// By arc, its span.
    pub spans: Vec<Option<Interval>>,
    /// By launch, the delay from the clock to it.
    pub delays: Vec<Option<Interval>>,
    /// By launch, when the clock arrives at its register.
    pub launch_clocks: Vec<Option<Interval>>,
    /// By capture, when the clock arrives at its register.
    pub capture_clocks: Vec<Option<Interval>>,
    /// By capture, its setup.
    pub setups: Vec<Option<i64>>,
    /// By capture, its hold.
    pub holds: Vec<Option<i64>>,
}
