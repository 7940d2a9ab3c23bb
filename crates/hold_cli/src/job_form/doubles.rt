//! Names that stand twice.
ghost use Rattle.std.specs.Prelude.{◌≡◌, ℕ, ◌++◌, List, map, true, is_none, IfOk};
ghost use Rattle.hold_netlist.specs.Doubles.{first_repeat};
ghost use Rattle.hold_cli.specs.JobFormNames.{names_differ};

use crate::job_form::name_set::NameSet;
use crate::job_form::seeds::seed_of;
use hold_base::{Memory, Name};
use std::alloc::Global;

/// What is told from its like by a name.
pub trait Named {
    ghost name_in: { Self → List ℕ };

    fn name(&self) -> &[u8]
        ensures { result.now ≡ name_in self.now };
}

impl Named for Name {
    ghost name_in = { λ name. name };

    fn name(&self) -> &[u8] {
        self.bytes()
    }
}

/// Sees the names of these items up to the first that isn't new, and answers whether there is none.
pub fn see_all<T: Named>(alloc: Global, seen: &mut NameSet, items: &[T]) -> Result<bool, Memory>
    ensures new { IfOk result (λ all_new. all_new ≡ is_none (first_repeat seen.old (map T.name_in items.now))) }
    ensures seen { IfOk result (λ all_new. all_new ≡ true → seen.new ≡ seen.old ++ map T.name_in items.now) }
{
    for item in items {
        if !seen.add(alloc, item.name())? {
            return Ok(false);
        }
    }
    Ok(true)
}

/// Whether no two of the items have the same name.
pub fn differ<T: Named>(alloc: Global, items: &[T]) -> Result<bool, Memory>
    ensures { IfOk result (λ differ. differ ≡ names_differ (map T.name_in items.now)) }
{
    let mut seen = NameSet::new(alloc, seed_of(items));
    see_all(alloc, &mut seen, items)
}
