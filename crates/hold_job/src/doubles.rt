//! What stands a second time in a job.
ghost use Rattle.std.specs.Prelude.{◌≡◌, ℕ, List, [], map, bytes_eq, codes, IfOk};
ghost use Rattle.hold_base.specs.Answers.{Answers, IfStopFault};
ghost use Rattle.hold_job.specs.declared.fault.JobFault.{JobFault};
ghost use Rattle.hold_job.specs.Outcome.{at};
ghost use Rattle.hold_job.specs.Doubles.{again, second, once, same_ends, arcs_once, checks_once, of_each, no_doubles};

use crate::cell_times::{TypeArc, TypeCheck};
use crate::ends::{Ends, ends_of, ends_seed};
use crate::fault::JobFault;
use crate::inst_times::Clock;
use crate::listed_type::ListedType;
use crate::name_set::NameSet;
use crate::path::{told_from, told_from_item};
use hold_base::{Memory, Name, Stop};
use hold_netlist::{Kind, Seed};
use indexmap::IndexSet;
use std::alloc::Global;

/// What is told from its like by a name.
trait Named {
    ghost name_in: { Self → List ℕ };

    fn name(&self) -> &[u8]
        ensures { result.now ≡ name_in self.now };
}

impl Named for ListedType {
    ghost name_in = { λ listed. listed.cell.name };

    fn name(&self) -> &[u8] {
        self.cell.name.bytes()
    }
}

impl Named for Kind {
    ghost name_in = { λ kind. kind.cell };

    fn name(&self) -> &[u8] {
        self.cell.bytes()
    }
}

impl Named for Clock {
    ghost name_in = { λ clock. clock.inst };

    fn name(&self) -> &[u8] {
        self.inst.bytes()
    }
}

impl Named for TypeCheck {
    ghost name_in = { λ entry. entry.pin };

    fn name(&self) -> &[u8] {
        self.pin.bytes()
    }
}

/// The seed of the names of these items.
fn names_seed<T: Named>(items: &[T]) -> Seed {
    let mut seed = Seed::new();
    for item in items {
        seed.add(item.name());
    }
    seed
}

/// The place of the first item whose name stands a second time.
#[tactic(auto, using(crate::proofs::Again::again_new, crate::proofs::Again::again_old))]
fn again<T: Named>(alloc: Global, items: &[T]) -> Result<Option<usize>, Memory>
    ensures { IfOk result (λ place. place ≡ again bytes_eq [] (map T.name_in items.now)) }
{
    let mut seen = NameSet::new(alloc, names_seed(items));
    for (place, item) in items.iter().enumerate() {
        if !seen.add(alloc, item.name())? {
            return Ok(Some(place));
        }
    }
    Ok(None)
}

/// The fault of what stands a second time.
fn doubled(alloc: Global) -> Stop<JobFault>
    ensures { IfStopFault result (λ fault. fault ≡ JobFault.Double []) }
{
    match Name::from_bytes(alloc, b"") {
        Ok(path) => Stop::Fault(JobFault::Double(path)),
        Err(_) => Stop::Memory,
    }
}

/// The fault of the entry that stands a second time, where one does, told of that key of it.
fn test_second(alloc: Global, key: &str, place: Option<usize>) -> Result<(), Stop<JobFault>>
    ensures { Answers result (second key.now place) }
{
    match place {
        Some(place) => {
            let told = told_from(alloc, key.as_bytes(), doubled(alloc));
            Err(told_from_item(alloc, place, told))
        }
        None => Ok(()),
    }
}

/// Tests that no two entries of a list have one name, which stands at that key of them.
fn test_once<T: Named>(
    alloc: Global,
    list: &str,
    key: &str,
    items: &[T],
) -> Result<(), Stop<JobFault>>
    ensures { Answers result (at list.now (once key.now (map T.name_in items.now))) }
{
    let place = again(alloc, items)?;
    match test_second(alloc, key, place) {
        Ok(()) => Ok(()),
        Err(stop) => Err(told_from(alloc, list.as_bytes(), stop)),
    }
}

/// The place of the first arc whose ends stand a second time.
#[tactic(auto, using(crate::proofs::Again::again_ends))]
fn arc_again(alloc: Global, arcs: &[TypeArc]) -> Result<Option<usize>, Memory>
    ensures { IfOk result (λ place. place ≡ again same_ends [] arcs.now) }
{
    let mut seen: IndexSet<Ends, Seed> = IndexSet::with_hasher(alloc, ends_seed(arcs));
    for (place, arc) in arcs.iter().enumerate() {
        if !seen.insert(ends_of(arc)?)? {
            return Ok(Some(place));
        }
    }
    Ok(None)
}

/// Tests that no two arcs of a type have the same ends.
fn test_arcs_of(alloc: Global, listed: &ListedType) -> Result<(), Stop<JobFault>>
    ensures { Answers result (arcs_once listed.now) }
{
    let place = arc_again(alloc, listed.arcs.as_slice())?;
    match test_second(alloc, "from", place) {
        Ok(()) => Ok(()),
        Err(stop) => Err(told_from(alloc, b"arcs", stop)),
    }
}

/// Tests that no two checks of a type are at one pin.
fn test_checks_of(alloc: Global, listed: &ListedType) -> Result<(), Stop<JobFault>>
    ensures { Answers result (checks_once listed.now) }
{
    test_once::<TypeCheck>(alloc, "checks", "pin", listed.checks.as_slice())
}

/// Tests the arcs of each type.
fn test_arcs(alloc: Global, types: &[ListedType]) -> Result<(), Stop<JobFault>>
    ensures { Answers result (at (codes "type") (of_each arcs_once 0 types.now)) }
{
    for (place, listed) in types.iter().enumerate() {
        if let Err(stop) = test_arcs_of(alloc, listed) {
            return Err(told_from(alloc, b"type", told_from_item(alloc, place, stop)));
        }
    }
    Ok(())
}

/// Tests the checks of each type.
fn test_checks(alloc: Global, types: &[ListedType]) -> Result<(), Stop<JobFault>>
    ensures { Answers result (at (codes "type") (of_each checks_once 0 types.now)) }
{
    for (place, listed) in types.iter().enumerate() {
        if let Err(stop) = test_checks_of(alloc, listed) {
            return Err(told_from(alloc, b"type", told_from_item(alloc, place, stop)));
        }
    }
    Ok(())
}

/// Tests that nothing stands a second time.
#[tactic(auto, unfolding(crate::specs::Doubles::no_doubles))]
pub fn test_doubles(
    alloc: Global,
    types: &[ListedType],
    kinds: &[Kind],
    clocks: &[Clock],
) -> Result<(), Stop<JobFault>>
    ensures { Answers result (no_doubles types.now kinds.now clocks.now) }
{
    test_once::<ListedType>(alloc, "type", "name", types)?;
    test_once::<Kind>(alloc, "kind", "type", kinds)?;
    test_once::<Clock>(alloc, "clock", "inst", clocks)?;
    test_arcs(alloc, types)?;
    test_checks(alloc, types)
}
