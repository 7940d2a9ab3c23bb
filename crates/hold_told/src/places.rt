ghost use Rattle.std.specs.Prelude.{◌≡◌, ◌<◌, Some, None, IfSome};
ghost use Rattle.hold_base.specs.declared.number.PinNo.{PinNo as Pin};
ghost use Rattle.hold_netlist.specs.Pins.{pins_of};
ghost use Rattle.hold_sdf.specs.declared.entry.Entry.TheVariants.{Cell as CellEntry, Wire as WireEntry, Check as CheckEntry};
ghost use Rattle.hold_told.specs.Places.{HasPath, IsPathTo};
ghost use Rattle.hold_told.specs.Entries.{IsPlaced, IsStray};
ghost use Rattle.hold_told.specs.inner.Names.{AreNames};
ghost use Rattle.hold_told.specs.inner.Told.{IsFound, IsPlaceOf, NamesPin};

use crate::named::{Named, is_nothing};
use crate::names::Names;
use crate::place::Place;
use crate::port_bits::port_pin;
use hold_base::{Interval, Name};
use hold_roles::Bound;
use hold_sdf::{Entry, PinPath};

/// What a path names.
fn path_pin(names: &Names, bound: &Bound, path: &PinPath) -> Named
    requires { AreNames bound.now.netlist names.now }
    ensures found { IsFound (HasPath bound.now path.now) (IsPathTo bound.now.netlist path.now) result }
    ensures within { (p : Pin) → NamesPin result p → p.0 < pins_of bound.now.netlist }
{
    match &path.inst {
        Some(inst) => names.pin(bound, inst, &path.pin),
        None => port_pin(names, bound.netlist(), path.pin.bytes()),
    }
}

/// Where a delay through an instance belongs; None where the entry is stray.
fn cell_place(
    names: &Names,
    bound: &Bound,
    inst: &Name,
    from: &Name,
    to: &Name,
    span: Option<Interval>,
) -> Option<Place>
    requires { AreNames bound.now.netlist names.now }
    ensures placed { IfSome result (λ place. IsPlaced bound.now (CellEntry 0 (Some inst.now) from.now to.now span)) }
    ensures some { IfSome result (λ place. IsPlaceOf bound.now (CellEntry 0 (Some inst.now) from.now to.now span) place) }
    ensures none { result ≡ None → IsStray bound.now (CellEntry 0 (Some inst.now) from.now to.now span) }
{
    bound.netlist().know_valid();
    let clocked = names.has_clock(bound, inst, from);
    let from = names.pin(bound, inst, from);
    let to = names.pin(bound, inst, to);
    if is_nothing(from) || is_nothing(to) {
        return None;
    }
    Some(Place::Arc {
        from,
        to,
        wire: false,
        clocked,
        span,
    })
}

/// Where a delay of a wire belongs; None where the entry is stray.
fn wire_place(
    names: &Names,
    bound: &Bound,
    from: &PinPath,
    to: &PinPath,
    span: Option<Interval>,
) -> Option<Place>
    requires { AreNames bound.now.netlist names.now }
    ensures placed { IfSome result (λ place. IsPlaced bound.now (WireEntry 0 None from.now to.now span)) }
    ensures some { IfSome result (λ place. IsPlaceOf bound.now (WireEntry 0 None from.now to.now span) place) }
    ensures none { result ≡ None → IsStray bound.now (WireEntry 0 None from.now to.now span) }
{
    let from = path_pin(names, bound, from);
    let to = path_pin(names, bound, to);
    if is_nothing(from) || is_nothing(to) {
        return None;
    }
    Some(Place::Arc {
        from,
        to,
        wire: true,
        clocked: false,
        span,
    })
}

/// Where a check of an instance belongs; None where the entry is stray.
fn check_place(
    names: &Names,
    bound: &Bound,
    inst: &Name,
    pin: &Name,
    clock: &Name,
    setup: Option<i64>,
    hold: Option<i64>,
) -> Option<Place>
    requires { AreNames bound.now.netlist names.now }
    ensures placed { IfSome result (λ place. IsPlaced bound.now (CheckEntry 0 (Some inst.now) pin.now clock.now setup hold)) }
    ensures some { IfSome result (λ place. IsPlaceOf bound.now (CheckEntry 0 (Some inst.now) pin.now clock.now setup hold) place) }
    ensures none { result ≡ None → IsStray bound.now (CheckEntry 0 (Some inst.now) pin.now clock.now setup hold) }
{
    let pin = names.pin(bound, inst, pin);
    let clock = names.pin(bound, inst, clock);
    if is_nothing(pin) || is_nothing(clock) {
        return None;
    }
    Some(Place::Check { pin, setup, hold })
}

/// Where what an entry says belongs; None where the entry is stray.
pub(crate) fn entry_place(names: &Names, bound: &Bound, entry: &Entry) -> Option<Place>
    requires { AreNames bound.now.netlist names.now }
    ensures placed { IfSome result (λ place. IsPlaced bound.now entry.now) }
    ensures some { IfSome result (λ place. IsPlaceOf bound.now entry.now place) }
    ensures none { result ≡ None → IsStray bound.now entry.now }
{
    match entry {
        Entry::Cell {
            inst,
            from,
            to,
            span,
            ..
        } => match inst {
            Some(inst) => cell_place(names, bound, inst, from, to, *span),
            None => None,
        },
        Entry::Wire {
            inst,
            from,
            to,
            span,
            ..
        } => match inst {
            Some(_) => None,
            None => wire_place(names, bound, from, to, *span),
        },
        Entry::Check {
            inst,
            pin,
            clock,
            setup,
            hold,
            ..
        } => match inst {
            Some(inst) => check_place(names, bound, inst, pin, clock, *setup, *hold),
            None => None,
        },
    }
}
