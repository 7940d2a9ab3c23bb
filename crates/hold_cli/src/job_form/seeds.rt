//! The seeds of sets of names, each of the names that its set is made of.
ghost use Rattle.std.specs.Prelude.{◌≡◌, map};
ghost use Rattle.std.specs.Hash.DefaultHasher as sip;
ghost use Rattle.hold_netlist.specs.Seed.{start_of};
ghost use Rattle.hold_netlist.specs.inner.Seed.{with_texts};

use crate::job_form::doubles::Named;
use hold_netlist::Seed;

/// Writes the names of these items behind what the seed is of.
pub fn add_names<T: Named>(seed: &mut Seed, items: &[T])
    ensures { start_of seed.new ≡ with_texts (start_of seed.old) (map T.name_in items.now) }
{
    for item in items {
        seed.add(item.name());
    }
}

/// The seed of the names of these items.
pub fn seed_of<T: Named>(items: &[T]) -> Seed
    ensures { start_of result ≡ with_texts sip.initial (map T.name_in items.now) }
{
    let mut seed = Seed::new();
    add_names(&mut seed, items);
    seed
}
