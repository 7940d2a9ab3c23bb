use hold_base::Interval;

/// What the entries of a corner tell, in fs; None where they say nothing.
#[derive(Drop)]
pub struct Told {
    /// By arc, the hull of its spans.
    pub spans: Vec<Option<Interval>>,
    /// By pin, the hull of the delays from the clock to it.
    pub delays: Vec<Option<Interval>>,
    /// By pin, its greatest setup.
    pub setups: Vec<Option<i64>>,
    /// By pin, its greatest hold.
    pub holds: Vec<Option<i64>>,
}
