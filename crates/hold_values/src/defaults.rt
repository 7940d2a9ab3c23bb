ghost use Rattle.std.specs.Prelude.{◌≡◌, IfOk};
ghost use Rattle.hold_roles.specs.inner.NamePlaces.{TellsPlaces, first_at};
ghost use Rattle.hold_values.specs.inner.Found.{AreDefaults};
ghost use Rattle.hold_values.specs.inner.Keys.{arc_text, arc_texts, check_text, check_texts, clock_names};

use crate::keys::{make_arc_key, make_check_key};
use hold_base::Memory;
use hold_job::{Clock, Job, TypeArc, TypeCheck};
use hold_netlist::{NameTable, Seed};
use std::alloc::Global;

/// What finds what a job says of types and of instances.
#[derive(Drop)]
pub(crate) struct Defaults {
    /// The place of each arc of a type, by the type and the arc's pins.
    pub arcs: NameTable,
    /// The place of each check, by its type and its pin.
    pub checks: NameTable,
    /// The place of each clock entry, by its instance.
    pub clocks: NameTable,
}

/// The place as a number of a table. A list of 2^32 items is too long for one, as it is for the memory.
fn number_of(place: usize) -> Result<u32, Memory>
    ensures { IfOk result (λ number. number ≡ place) }
{
    match u32::try_from(place) {
        Ok(number) => Ok(number),
        Err(_) => Err(Memory),
    }
}

/// The seed of what a job's arcs name.
fn arcs_seed(arcs: &[TypeArc]) -> Seed {
    let mut seed = Seed::new();
    for arc in arcs {
        seed.add(arc.kind.bytes());
        seed.add(arc.from.bytes());
        seed.add(arc.to.bytes());
    }
    seed
}

/// The place of each arc.
fn arc_places(alloc: Global, arcs: &[TypeArc]) -> Result<NameTable, Memory>
    ensures { IfOk result (λ places. TellsPlaces (arc_texts arcs.now) places) }
{
    let mut places = NameTable::new(alloc, arcs_seed(arcs));
    let mut key = Vec::new(alloc);
    for (place, arc) in arcs.iter().enumerate() {
        make_arc_key(&mut key, arc.kind.bytes(), arc.from.bytes(), arc.to.bytes())?;
        let _is_new = places.add(alloc, key.as_slice(), number_of(place)?)?;
    }
    Ok(places)
}

/// The seed of what a job's checks name.
fn checks_seed(checks: &[TypeCheck]) -> Seed {
    let mut seed = Seed::new();
    for check in checks {
        seed.add(check.kind.bytes());
        seed.add(check.pin.bytes());
    }
    seed
}

/// The place of each check.
fn check_places(alloc: Global, checks: &[TypeCheck]) -> Result<NameTable, Memory>
    ensures { IfOk result (λ places. TellsPlaces (check_texts checks.now) places) }
{
    let mut places = NameTable::new(alloc, checks_seed(checks));
    let mut key = Vec::new(alloc);
    for (place, check) in checks.iter().enumerate() {
        make_check_key(&mut key, check.kind.bytes(), check.pin.bytes())?;
        let _is_new = places.add(alloc, key.as_slice(), number_of(place)?)?;
    }
    Ok(places)
}

/// The seed of what a job's clock entries name.
fn clocks_seed(clocks: &[Clock]) -> Seed {
    let mut seed = Seed::new();
    for clock in clocks {
        seed.add(clock.inst.bytes());
    }
    seed
}

/// The place of each clock entry.
fn clock_places(alloc: Global, clocks: &[Clock]) -> Result<NameTable, Memory>
    ensures { IfOk result (λ places. TellsPlaces (clock_names clocks.now) places) }
{
    let mut places = NameTable::new(alloc, clocks_seed(clocks));
    for (place, clock) in clocks.iter().enumerate() {
        let _is_new = places.add(alloc, clock.inst.bytes(), number_of(place)?)?;
    }
    Ok(places)
}

impl Defaults {
    /// What finds what this job says.
    pub(crate) fn of(alloc: Global, job: &Job) -> Result<Defaults, Memory>
        ensures { IfOk result (AreDefaults job.now) }
    {
        Ok(Defaults {
            arcs: arc_places(alloc, job.arcs.as_slice())?,
            checks: check_places(alloc, job.checks.as_slice())?,
            clocks: clock_places(alloc, job.clocks.as_slice())?,
        })
    }

    /// The place of the type's arc between two pins. The key is room for their text.
    pub(crate) fn arc(
        &self,
        key: &mut Vec<u8>,
        job: &Job,
        kind: &[u8],
        from: &[u8],
        to: &[u8],
    ) -> Result<Option<u32>, Memory>
        requires { AreDefaults job.now self.now }
        ensures { IfOk result (λ place. place ≡ first_at 0 (arc_text kind.now from.now to.now) (arc_texts job.now.arcs)) }
    {
        make_arc_key(key, kind, from, to)?;
        Ok(self.arcs.find(key.as_slice()))
    }

    /// The place of the type's check of a pin. The key is room for their text.
    pub(crate) fn check(
        &self,
        key: &mut Vec<u8>,
        job: &Job,
        kind: &[u8],
        pin: &[u8],
    ) -> Result<Option<u32>, Memory>
        requires { AreDefaults job.now self.now }
        ensures { IfOk result (λ place. place ≡ first_at 0 (check_text kind.now pin.now) (check_texts job.now.checks)) }
    {
        make_check_key(key, kind, pin)?;
        Ok(self.checks.find(key.as_slice()))
    }

    /// The place of the clock entry of an instance.
    pub(crate) fn clock(&self, job: &Job, inst: &[u8]) -> Option<u32>
        requires { AreDefaults job.now self.now }
        ensures { result ≡ first_at 0 inst.now (clock_names job.now.clocks) }
    {
        self.clocks.find(inst)
    }
}
