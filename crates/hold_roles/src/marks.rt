ghost use Rattle.std.specs.Prelude.{◌≡◌, ◌<◌, ◌^◌, ◌↔◌, ℕ, List, [], length, map, slice_index_or, slice_set, IfOk, IfSome, IfNone, OnOk, IsTrue, if◌then◌else◌};
ghost use Rattle.std.specs.List.{AllByRecursion};
ghost use Rattle.hold_roles.specs.declared.drivers.Driver.{Driver};
ghost use Rattle.hold_roles.specs.declared.marks.Mark.{Mark};
ghost use Rattle.hold_roles.specs.Faults.{HasNone, IsFirst};
ghost use Rattle.hold_roles.specs.Roots.{IsAssigned};
ghost use Rattle.hold_roles.specs.inner.Marks.{drivers_in, ending, first_mark, is_open, root_in, source_in, AreDone, AreLinks, AreMarked, CanSettle, Falls, IsAt, IsEnd, IsWalked, OpensIn};

use crate::drivers::{Driver, Slot};
use crate::roots::Root;
use hold_base::{Memory, NetNo};
use std::alloc::Global;

/// What is known of a net bit on the way to its root. Each assignment is followed once.
#[derive(Clone, Copy, Debug)]
pub(crate) enum Mark {
    /// It is assigned from another net bit, and nothing more is known.
    New,
    /// It is on the trail that is followed now.
    Open,
    /// It has this root.
    Ends(Root),
    /// It leads into a ring, and isn't on one.
    Lost,
    /// It is on a ring.
    Ring,
}

/// What is known of a net bit by its own drivers.
fn first_mark(slot: &Slot) -> Mark
    ensures { result ≡ first_mark slot.now }
{
    match *slot {
        Slot::Only(Driver::Pin(pin)) => Mark::Ends(Root::Pin(pin)),
        Slot::Only(Driver::Net(_)) => Mark::New,
        Slot::Only(Driver::Zero) => Mark::Ends(Root::Zero),
        Slot::Only(Driver::One) => Mark::Ends(Root::One),
        Slot::Free | Slot::Several => Mark::Ends(Root::Nothing),
    }
}

/// The same of each net bit.
fn first_marks(alloc: Global, slots: &[Slot]) -> Result<Vec<Mark>, Memory>
    ensures { IfOk result (λ marks. marks.items ≡ map first_mark slots.now) }
{
    Ok(slots.iter().map(first_mark).collect(alloc)?)
}

/// The net bit that a net bit is assigned from.
fn source_in(slot: Slot) -> Option<NetNo>
    ensures { result ≡ source_in slot }
{
    match slot {
        Slot::Only(Driver::Net(from)) => Some(from),
        _ => None,
    }
}

/// The net bit that this one is assigned from, where this one is new.
fn onward_if_new(slots: &[Slot], marks: &[Mark], at: NetNo) -> Option<NetNo>
    requires slot { at.0 < length slots.now }
    requires mark { at.0 < length marks.now }
    ensures some { IfSome result (λ next. IsAt marks.now at.0 Mark.New × IsAssigned (drivers_in slots.now) at.0 next.0) }
    ensures none { IfNone result (IsAt marks.now at.0 Mark.New → (b : ℕ) → IsAssigned (drivers_in slots.now) at.0 b → ⊥) }
{
    match marks[at.0 as usize] {
        Mark::New => source_in(slots[at.0 as usize]),
        _ => None,
    }
}

/// The net bit that this one is assigned from, where this one is open.
fn onward_if_open(slots: &[Slot], marks: &[Mark], at: NetNo) -> Option<NetNo>
    requires slot { at.0 < length slots.now }
    requires mark { at.0 < length marks.now }
    ensures some { IfSome result (λ next. IsAt marks.now at.0 Mark.Open × IsAssigned (drivers_in slots.now) at.0 next.0) }
    ensures none { IfNone result (IsAt marks.now at.0 Mark.Open → (b : ℕ) → IsAssigned (drivers_in slots.now) at.0 b → ⊥) }
{
    match marks[at.0 as usize] {
        Mark::Open => source_in(slots[at.0 as usize]),
        _ => None,
    }
}

fn set(marks: &mut [Mark], at: NetNo, mark: Mark)
    requires { at.0 < length marks.old }
    ensures { marks.new ≡ slice_set marks.old at.0 mark }
{
    marks[at.0 as usize] = mark;
}

/// Follows assignments from a net bit as long as they lead to new ones, and answers where that ends.
fn walk(
    slots: &[Slot],
    marks: &mut [Mark],
    trail: &mut Vec<NetNo>,
    start: NetNo,
) -> Result<NetNo, Memory>
    requires links { AreLinks slots.now }
    requires each { length marks.old ≡ length slots.now }
    requires start { start.0 < length slots.now }
    requires clear { trail.old.items ≡ [] }
    requires marked { AreMarked (drivers_in slots.now) marks.old }
    ensures each { OnOk result (length marks.new ≡ length marks.old) }
    ensures walked { IfOk result (λ at. IsWalked (drivers_in slots.now) marks.new at.0) }
    ensures trail { OnOk result (OpensIn trail.new.items marks.new) }
    ensures within { OnOk result (AllByRecursion (λ net. net.0 < length slots.now) trail.new.items) }
    ensures news { OnOk result (Falls Mark.New marks.old marks.new) }
    ensures start { OnOk result (IsAt marks.new start.0 Mark.New → ⊥) }
{
    let mut at = start;
    while let Some(next) = onward_if_new(slots, marks, at) {
        set(marks, at, Mark::Open);
        trail.push(at)?;
        at = next;
    }
    Ok(at)
}

/// Marks the ring that an open net bit is on.
fn mark_ring(slots: &[Slot], marks: &mut [Mark], start: NetNo)
    requires links { AreLinks slots.now }
    requires each { length marks.old ≡ length slots.now }
    requires walked { IsWalked (drivers_in slots.now) marks.old start.0 }
    requires open { IsAt marks.old start.0 Mark.Open }
    ensures each { length marks.new ≡ length marks.old }
    ensures settles { CanSettle (drivers_in slots.now) marks.new Mark.Lost }
    ensures opens { Falls Mark.Open marks.old marks.new }
    ensures news { Falls Mark.New marks.old marks.new }
{
    let mut at = start;
    while let Some(next) = onward_if_open(slots, marks, at) {
        set(marks, at, Mark::Ring);
        at = next;
    }
}

fn is_open(mark: Mark) -> bool
    ensures { result ≡ is_open mark }
{
    matches!(mark, Mark::Open)
}

/// Gives a net bit this mark, where it is still open.
fn settle_one(marks: &mut [Mark], net: NetNo, mark: Mark)
    requires { net.0 < length marks.old }
    ensures { marks.new ≡ (if is_open (slice_index_or marks.old net.0 Mark.New) then slice_set marks.old net.0 mark else marks.old) }
{
    if is_open(marks[net.0 as usize]) {
        set(marks, net, mark);
    }
}

/// Gives those of the trail that are still open this mark.
fn settle(marks: &mut [Mark], trail: &[NetNo], mark: Mark)
    requires end { IsEnd mark }
    requires within { AllByRecursion (λ net. net.0 < length marks.old) trail.now }
    ensures each { length marks.new ≡ length marks.old }
    ensures marked { (drivers : ℕ → List Driver) → CanSettle drivers marks.old mark → OpensIn trail.now marks.old → AreMarked drivers marks.new }
    ensures news { Falls Mark.New marks.old marks.new }
{
    for net in trail {
        settle_one(marks, *net, mark);
    }
}

/// What a net bit has that leads to one with that mark.
fn ending(mark: Mark) -> Mark
    ensures { result ≡ ending mark }
{
    match mark {
        Mark::Ends(root) => Mark::Ends(root),
        _ => Mark::Lost,
    }
}

/// Finds out about a net bit and all that it leads to.
fn trace(
    slots: &[Slot],
    marks: &mut [Mark],
    trail: &mut Vec<NetNo>,
    start: NetNo,
) -> Result<(), Memory>
    requires links { AreLinks slots.now }
    requires each { length marks.old ≡ length slots.now }
    requires start { start.0 < length slots.now }
    requires marked { AreMarked (drivers_in slots.now) marks.old }
    ensures each { OnOk result (length marks.new ≡ length marks.old) }
    ensures marked { OnOk result (AreMarked (drivers_in slots.now) marks.new) }
    ensures news { OnOk result (Falls Mark.New marks.old marks.new) }
    ensures start { OnOk result (IsAt marks.new start.0 Mark.New → ⊥) }
{
    trail.clear();
    let at = walk(slots, marks, trail, start)?;
    if is_open(marks[at.0 as usize]) {
        mark_ring(slots, marks, at);
        settle(marks, trail, Mark::Lost);
        return Ok(());
    }
    let mark = ending(marks[at.0 as usize]);
    settle(marks, trail, mark);
    Ok(())
}

/// What each net bit leads to.
pub(crate) fn marks_of(alloc: Global, slots: &[Slot]) -> Result<Vec<Mark>, Memory>
    requires links { AreLinks slots.now }
    requires few { length slots.now < 2 ^ 32 }
    ensures each { IfOk result (λ marks. length marks.items ≡ length slots.now) }
    ensures marked { IfOk result (λ marks. AreMarked (drivers_in slots.now) marks.items) }
    ensures done { IfOk result (λ marks. AreDone (length slots.now) marks.items) }
{
    let mut marks = first_marks(alloc, slots)?;
    let mut trail = Vec::new(alloc);
    for net in 0..slots.len() {
        trace(slots, &mut marks, &mut trail, NetNo(net as u32))?;
    }
    Ok(marks)
}

fn is_ring(mark: Mark) -> bool
    ensures { IsTrue result ↔ (mark ≡ Mark.Ring) }
{
    matches!(mark, Mark::Ring)
}

/// The first net bit that is on a ring.
pub(crate) fn first_ring(marks: &[Mark]) -> Option<u32>
    requires { length marks.now < 2 ^ 32 }
    ensures some { IfSome result (IsFirst (λ n. IsAt marks.now n Mark.Ring)) }
    ensures none { IfNone result (HasNone (λ n. IsAt marks.now n Mark.Ring)) }
{
    for (place, mark) in marks.iter().enumerate() {
        if is_ring(*mark) {
            return Some(place as u32);
        }
    }
    None
}

/// The root that a mark tells.
fn root_in(mark: &Mark) -> Root
    ensures { result ≡ root_in mark.now }
{
    match *mark {
        Mark::Ends(root) => root,
        _ => Root::Nothing,
    }
}

/// The root of each net bit.
pub(crate) fn roots_of(alloc: Global, marks: &[Mark]) -> Result<Vec<Root>, Memory>
    ensures { IfOk result (λ roots. roots.items ≡ map root_in marks.now) }
{
    Ok(marks.iter().map(root_in).collect(alloc)?)
}
