ghost use Rattle.std.specs.Prelude.{◌≡◌, ◌<◌, ◌^◌, ◌↔◌, IfOk, OnOk, IsTrue, codes, length};
ghost use Rattle.hold_base.specs.Answers.{IfFault};
ghost use Rattle.hold_roles.specs.declared.role.Role.{Role};
ghost use Rattle.hold_roles.specs.Faults.{HasNone};
ghost use Rattle.hold_build.specs.declared.fault.BuildFault.{BuildFault};
ghost use Rattle.hold_build.specs.Faults.{HasKnownEntries, IsListFault, IsRegisterNamed, IsUnknownClock, IsUnknownKeep, entry_path};
ghost use Rattle.hold_build.specs.Listing.{ListsEach};
ghost use Rattle.hold_build.specs.NetlistGraph.{IsKept};
ghost use Rattle.hold_build.specs.inner.Names.{AreFlags, AreNames, IsEntryFault, IsMarked};

use crate::counts::pin_count;
use crate::fault::BuildFault;
use crate::names::Names;
use hold_base::{Memory, Name, PinNo, Stop, put_number};
use hold_job::Job;
use hold_roles::{Bound, Role};
use std::alloc::Global;

/// The fault that names an entry of the list of that key.
fn entry_fault(alloc: Global, key: &[u8], place: usize) -> Result<BuildFault, Memory>
    requires { place < 2 ^ 63 }
    ensures { IfOk result (λ fault. fault ≡ BuildFault.Unknown (entry_path key.now place)) }
{
    let mut path = Vec::from_slice(alloc, key)?;
    path.push(b'.')?;
    put_number(&mut path, place as i64)?;
    Ok(BuildFault::Unknown(Name::from_bytes(alloc, &path)?))
}

fn is_register(role: Role) -> bool
    ensures { IsTrue result ↔ (role ≡ Role.Register) }
{
    matches!(role, Role::Register)
}

/// Whether some instance of that name is a register.
fn is_register_named(bound: &Bound, names: &Names, name: &[u8]) -> bool
    requires { AreNames bound.now.netlist.insts names.now }
    ensures { IsTrue result ↔ IsRegisterNamed bound.now name.now }
{
    match names.inst(bound.netlist(), name) {
        Some(inst) => is_register(bound.role(inst)),
        None => false,
    }
}

/// Tests that each entry of `clock` names a register.
fn test_clocks(
    alloc: Global,
    bound: &Bound,
    names: &Names,
    job: &Job,
) -> Result<(), Stop<BuildFault>>
    requires { AreNames bound.now.netlist.insts names.now }
    ensures known { OnOk result (HasNone (IsUnknownClock bound.now job.now)) }
    ensures fault { IfFault result (IsEntryFault (IsUnknownClock bound.now job.now) (codes "clock")) }
{
    for (place, clock) in job.clocks.as_slice().iter().enumerate() {
        if !is_register_named(bound, names, clock.inst.bytes()) {
            return Err(Stop::Fault(entry_fault(alloc, b"clock", place)?));
        }
    }
    Ok(())
}

/// Appends a pin that isn't among these yet, which its flag tells.
fn mark(flags: &mut Vec<bool>, pins: &mut Vec<PinNo>, pin: PinNo) -> Result<(), Memory>
    requires within { pin.0 < length flags.old.items }
    requires flags { AreFlags pins.old.items flags.old.items }
    ensures flags { OnOk result (AreFlags pins.new.items flags.new.items) }
    ensures long { length flags.new.items ≡ length flags.old.items }
    ensures pins { OnOk result (IsMarked pins.old.items pins.new.items pin) }
{
    let place = pin.0 as usize;
    if !flags[place] {
        pins.push(pin)?;
        flags[place] = true;
    }
    Ok(())
}

/// The pins that the entries of `keep` name.
fn kept_pins(
    alloc: Global,
    bound: &Bound,
    names: &mut Names,
    job: &Job,
) -> Result<Vec<PinNo>, Stop<BuildFault>>
    requires { AreNames bound.now.netlist.insts names.old }
    ensures each { IfOk result (λ pins. ListsEach (IsKept bound.now job.now) pins.items) }
    ensures known { OnOk result (HasNone (IsUnknownKeep bound.now job.now)) }
    ensures fault { IfFault result (IsEntryFault (IsUnknownKeep bound.now job.now) (codes "keep")) }
{
    let netlist = bound.netlist();
    let mut flags = vec![in alloc; false; pin_count(netlist) as usize]?;
    let mut pins = Vec::new(alloc);
    for (place, keep) in job.keeps.as_slice().iter().enumerate() {
        let Some(pin) = names.kept_pin(alloc, netlist, keep)? else {
            return Err(Stop::Fault(entry_fault(alloc, b"keep", place)?));
        };
        mark(&mut flags, &mut pins, pin)?;
    }
    Ok(pins)
}

/// The pins that the job keeps, each once, where all its entries name something of the netlist.
pub(crate) fn keeps(alloc: Global, bound: &Bound, job: &Job) -> Result<Vec<PinNo>, Stop<BuildFault>>
    ensures each { IfOk result (λ pins. ListsEach (IsKept bound.now job.now) pins.items) }
    ensures known { OnOk result (HasKnownEntries bound.now job.now) }
    ensures fault { IfFault result (IsListFault bound.now job.now) }
{
    let mut names = Names::of(alloc, bound.netlist())?;
    test_clocks(alloc, bound, &names, job)?;
    kept_pins(alloc, bound, &mut names, job)
}
