ghost use Rattle.std.specs.Prelude.{◌≡◌, option_map};
ghost use Rattle.hold_sdflex.specs.Items.{items_in, first_group, behind};
ghost use Rattle.hold_sdflex.specs.ItemsRead.{word_read, group_read};
ghost use Rattle.hold_sdf.specs.Shapes.{atoms, value_of, conditions, is_condition, setup_only, hold_only, setup_and_hold, check_values, check_pins, check_of};
ghost use Rattle.hold_sdf.specs.inner.Shown.{shown_check};

use crate::items::{behind_keyword, is_empty, keyword};
use crate::keyword::{CheckKind, is_condition};
use crate::pin::next_spec;
use crate::value::is_value;
use hold_sdflex::{Atom, Group, Items};

/// The pins of a SETUP, HOLD or SETUPHOLD, and its values.
#[derive(Drop)]
pub(crate) struct Check<'a> {
    pub(crate) pin: Atom<'a>,
    pub(crate) clock: Atom<'a>,
    pub(crate) setup: Option<Items<'a>>,
    pub(crate) hold: Option<Items<'a>>,
}

/// The check of such a group's items; None where they have another shape.
#[tactic(auto, unfolding(crate::specs::Shapes::check_of))]
pub(crate) fn check_of<'a>(kind: CheckKind, inner: &Items<'a>) -> Option<Check<'a>>
    ensures { option_map shown_check result ≡ check_of kind (items_in inner.now) }
{
    let mut rest = behind_keyword(inner);
    let pin = next_spec(&mut rest);
    let clock = next_spec(&mut rest);
    check_pins(kind, pin, clock, rest)
}

fn check_pins<'a>(
    kind: CheckKind,
    pin: Option<Atom<'a>>,
    clock: Option<Atom<'a>>,
    rest: Items<'a>,
) -> Option<Check<'a>>
    ensures { option_map shown_check result
        ≡ check_pins kind (option_map word_read pin.entry) (option_map word_read clock.entry) (items_in rest.entry) }
{
    let Some(pin) = pin else {
        return None;
    };
    let Some(clock) = clock else {
        return None;
    };
    match kind {
        CheckKind::Setup => setup_only(pin, clock, rest),
        CheckKind::Hold => hold_only(pin, clock, rest),
        CheckKind::SetupHold => setup_and_hold(pin, clock, rest),
        CheckKind::ReadPast | CheckKind::Other => None,
    }
}

fn setup_only<'a>(pin: Atom<'a>, clock: Atom<'a>, rest: Items<'a>) -> Option<Check<'a>>
    ensures { option_map shown_check result
        ≡ setup_only (word_read pin.entry) (word_read clock.entry) (value_of (first_group (items_in rest.entry))) (behind (items_in rest.entry)) }
{
    let mut rest = rest;
    let Some(setup) = next_value(&mut rest) else {
        return None;
    };
    if !is_empty(&rest) {
        return None;
    }
    Some(Check {
        pin,
        clock,
        setup: Some(setup),
        hold: None,
    })
}

fn hold_only<'a>(pin: Atom<'a>, clock: Atom<'a>, rest: Items<'a>) -> Option<Check<'a>>
    ensures { option_map shown_check result
        ≡ hold_only (word_read pin.entry) (word_read clock.entry) (value_of (first_group (items_in rest.entry))) (behind (items_in rest.entry)) }
{
    let mut rest = rest;
    let Some(hold) = next_value(&mut rest) else {
        return None;
    };
    if !is_empty(&rest) {
        return None;
    }
    Some(Check {
        pin,
        clock,
        setup: None,
        hold: Some(hold),
    })
}

fn setup_and_hold<'a>(pin: Atom<'a>, clock: Atom<'a>, rest: Items<'a>) -> Option<Check<'a>>
    ensures { option_map shown_check result
        ≡ setup_and_hold (word_read pin.entry) (word_read clock.entry) (value_of (first_group (items_in rest.entry)))
        (value_of (first_group (behind (items_in rest.entry)))) (behind (behind (items_in rest.entry))) }
{
    let mut rest = rest;
    let Some(setup) = next_value(&mut rest) else {
        return None;
    };
    let Some(hold) = next_value(&mut rest) else {
        return None;
    };
    if !are_conditions(&rest) {
        return None;
    }
    Some(Check {
        pin,
        clock,
        setup: Some(setup),
        hold: Some(hold),
    })
}

// The next item where it is a value's group. Whatever it is, it is then read.
fn next_value<'a>(rest: &mut Items<'a>) -> Option<Items<'a>>
    ensures value { option_map (λ value. atoms (items_in value)) result ≡ value_of (first_group (items_in rest.old)) }
    ensures rest { items_in rest.new ≡ behind (items_in rest.old) }
{
    let Some(group) = rest.next_group() else {
        return None;
    };
    if is_value(&group.inner) {
        Some(group.inner)
    } else {
        None
    }
}

// Whether each item is a condition of a check: an SCOND or CCOND group.
#[tactic(auto, using(crate::proofs::ShapeLemmas::conditions_of))]
fn are_conditions(inner: &Items<'_>) -> bool
    ensures { result ≡ conditions (items_in inner.now) }
{
    let mut rest = inner.fork();
    while !is_empty(&rest) {
        let group = rest.next_group();
        if !has_condition(&group) {
            return false;
        }
    }
    true
}

fn has_condition(group: &Option<Group<'_>>) -> bool
    ensures { result ≡ is_condition (option_map group_read group.now) }
{
    match group {
        Some(group) => is_condition(keyword(&group.inner)),
        None => false,
    }
}
