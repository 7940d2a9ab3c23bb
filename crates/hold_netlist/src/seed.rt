ghost use Rattle.std.specs.Prelude.{◌≡◌};
ghost use Rattle.std.specs.Hash.DefaultHasher as sip;
ghost use Rattle.hold_netlist.specs.Seed.{start_of};

use std::hash::{BuildHasher, DefaultHasher, Hasher};

/// What the hashes of a table of names go on from: the state of a hasher that texts were written into. A table's seed
/// should be of all that its names come from. Names can then not be chosen first so that they collide, and make the
/// table slow, since each choice changes the hashes of all.
#[derive(Clone, Copy)]
pub struct Seed {
    start: DefaultHasher,
}

impl Seed {
    /// The seed of no text.
    pub fn new() -> Seed
        ensures { start_of result ≡ sip.initial }
    {
        Seed {
            start: DefaultHasher::new(),
        }
    }

    /// The seed of one text.
    pub fn of(text: &[u8]) -> Seed
        ensures { start_of result ≡ sip.write sip.initial text.now }
    {
        let mut seed = Seed::new();
        seed.add(text);
        seed
    }

    /// Writes a text behind those that the seed is of.
    pub fn add(&mut self, text: &[u8])
        ensures { start_of self.new ≡ sip.write (start_of self.old) text.now }
    {
        self.start.write(text);
    }
}

impl BuildHasher for Seed {
    type Hasher = DefaultHasher;

    ghost build_hasher = { start_of };

    fn build_hasher(&self) -> DefaultHasher {
        self.start
    }
}
