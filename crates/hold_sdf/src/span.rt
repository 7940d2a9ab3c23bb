ghost use Rattle.std.specs.Prelude.{◌≡◌, ◌∷◌, [], Some, option_map};
ghost use Rattle.std.specs.Option.{option_to_list};
ghost use Rattle.hold_base.specs.Answers.{Answers};
ghost use Rattle.hold_sdflex.specs.Items.{items_in, atom_of};
ghost use Rattle.hold_sdflex.specs.ItemsRead.{item_read, word_read};
ghost use Rattle.hold_sdf.specs.Entries.{spanned, latest};
ghost use Rattle.hold_sdf.specs.Shapes.{atoms, delay_numbers, numbers_of};
ghost use Rattle.hold_sdf.specs.inner.Hulls.{widened, hulled};

use crate::fault::SdfFault;
use crate::number::number;
use crate::value::is_value;
use hold_base::{Interval, Stop};
use hold_decimal::Scale;
use hold_sdflex::{Atom, Item, Items};

/// The hull of the numbers of a path's delays, in fs; None where they have none.
#[tactic(auto, unfolding(crate::specs::Entries::spanned), using(crate::proofs::HullLemmas::delay_steps))]
pub(crate) fn span_of_delays(
    delays: &Items<'_>,
    scale: Scale,
) -> Result<Option<Interval>, Stop<SdfFault>>
    ensures { Answers result (spanned scale.exponent (numbers_of (items_in delays.now))) }
{
    let mut rest = delays.fork();
    let mut span = None;
    while let Some(delay) = rest.next_group() {
        span = with_delay(span, &delay.inner, scale)?;
    }
    Ok(span)
}

/// The greatest end of the hull of a value's numbers, in fs; None where it has none.
#[tactic(auto, unfolding(crate::specs::Entries::spanned))]
pub(crate) fn latest_of_value(
    value: Option<Items<'_>>,
    scale: Scale,
) -> Result<Option<i64>, Stop<SdfFault>>
    ensures { Answers result (latest scale.exponent (option_map (λ v. atoms (items_in v)) value.entry)) }
{
    let Some(value) = value else {
        return Ok(None);
    };
    let span = with_value(None, value, scale)?;
    Ok(greatest(span))
}

fn greatest(span: Option<Interval>) -> Option<i64>
    ensures { result ≡ option_map (λ i. i.greatest) span }
{
    match span {
        Some(span) => Some(span.greatest),
        None => None,
    }
}

// The hull of a span and of a delay's numbers.
#[tactic(auto, unfolding(crate::specs::Shapes::delay_numbers))]
fn with_delay(
    span: Option<Interval>,
    delay: &Items<'_>,
    scale: Scale,
) -> Result<Option<Interval>, Stop<SdfFault>>
    ensures { Answers result (hulled scale.exponent span (delay_numbers (items_in delay.now))) }
{
    let mut values = delay.fork();
    if is_value(delay) {
        return with_value(span, values, scale);
    }
    match values.next_group() {
        Some(value) => with_value(span, value.inner, scale),
        None => Ok(span),
    }
}

// The hull of a span and of a value's numbers.
#[tactic(auto, using(crate::proofs::HullLemmas::value_steps))]
fn with_value(
    span: Option<Interval>,
    value: Items<'_>,
    scale: Scale,
) -> Result<Option<Interval>, Stop<SdfFault>>
    ensures { Answers result (hulled scale.exponent span (atoms (items_in value.entry))) }
{
    let mut span = span;
    let mut rest = value;
    while let Some(item) = rest.next() {
        span = with_item(span, &item, scale)?;
    }
    Ok(span)
}

// The hull of a span and of an item's number, where it is an atom.
fn with_item(
    span: Option<Interval>,
    item: &Item<'_>,
    scale: Scale,
) -> Result<Option<Interval>, Stop<SdfFault>>
    ensures { Answers result (hulled scale.exponent span (option_to_list (atom_of (item_read item.now)))) }
{
    match item {
        Item::Atom(atom) => with_number(span, *atom, scale),
        Item::Text | Item::Colon | Item::Group(_) => Ok(span),
    }
}

#[tactic(auto, using(crate::proofs::HullLemmas::number_steps))]
fn with_number(
    span: Option<Interval>,
    atom: Atom<'_>,
    scale: Scale,
) -> Result<Option<Interval>, Stop<SdfFault>>
    ensures { Answers result (hulled scale.exponent span (word_read atom.entry ∷ [])) }
{
    let time = number(atom, scale)?;
    Ok(Some(widened(span, time)))
}

fn widened(span: Option<Interval>, time: Interval) -> Interval
    ensures { Some result ≡ widened span (time ∷ []) }
{
    match span {
        Some(span) => span.hull(time),
        None => time,
    }
}
