ghost use Rattle.std.specs.Prelude.{◌≡◌, ◌<◌, ◌≤◌, IfSome, option_map};
ghost use Rattle.hold_proof.specs.Closing.{weight_limit};
ghost use Rattle.hold_certtext.specs.inner.Parsing.{after, is_within, term_in};
ghost use Rattle.hold_certtext.specs.inner.Words.{left};

use crate::words::Words;

/// The greatest weight of a leaf: its scale and all its multipliers, summed.
pub(crate) const WEIGHT: u64 = 1 << 60;

/// What the next term of a leaf may be: its number is at least `least` and below `limit`, and it is taken at least once and no
/// more often than the weight so far lets it.
#[derive(Clone, Copy)]
pub(crate) struct Bounds {
    pub(crate) least: u64,
    pub(crate) limit: u64,
    pub(crate) weight: u64,
}

impl Bounds {
    fn let_stand(self, number: u64, times: u64) -> bool
        requires { self.weight ≤ weight_limit }
        ensures { result ≡ is_within self number times }
    {
        self.least <= number && number < self.limit && 1 <= times && times <= WEIGHT - self.weight
    }

    /// The number of the next term and how often it is taken, None where no term may stand there that is written so.
    pub(crate) fn term(&mut self, words: &mut Words<'_>) -> Option<(u64, u64)>
        requires { self.old.weight ≤ weight_limit }
        ensures value { term_in self.old (left words.old) ≡ option_map (λ term. (term, left words.new)) result }
        ensures after { IfSome result (λ term. self.new ≡ after self.old term) }
        ensures below { IfSome result (λ term. term.0 < self.old.limit) }
        ensures weight { self.new.weight ≤ weight_limit }
    {
        let Some(number) = words.number(u64::MAX) else {
            return None;
        };
        let Some(times) = words.number(u64::MAX) else {
            return None;
        };
        if !self.let_stand(number, times) {
            return None;
        }
        self.least = number + 1;
        self.weight += times;
        Some((number, times))
    }
}
