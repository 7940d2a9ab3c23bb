ghost use Rattle.std.specs.Prelude.{◌≡◌, List, [], ◌∷◌, ◌++◌, OnOk, IfOk, if◌then◌else◌};
ghost use Rattle.hold_vparse.specs.inner.Barred.{is_barred, barred_in, Bars};
ghost use Rattle.hold_vparse.specs.DoubleNames.{Mention as Mentioned, mentions as mentions_of, doubles, doubled as doubled_in};
ghost use Rattle.hold_vparse.specs.inner.Flat.{seen_mention};
ghost use Rattle.hold_vparse.specs.inner.Found.{found_ident};
ghost use Rattle.hold_vparse.specs.Soonest.{soonest};

use crate::barred_names::BarredNames;
use crate::mentions::Mention;
use crate::parts::Parts;
use crate::pin_faults::repeated_in_instances;
use crate::soonest::soonest_of;
use hold_base::Memory;
use hold_vsyntax::tree::Ident;
use std::alloc::Global;

/// The identifier of a mention in a role that is barred to its name.
fn double_name<'a>(seen: &BarredNames, mention: &Mention<'a>) -> Option<&'a Ident>
    ensures { found_ident result ≡ soonest (if is_barred (barred_in seen.now mention.now.name.now.name) (seen_mention mention.now).role then mention.now.name.now ∷ [] else []) }
{
    if seen.find(&mention.name.name).has(mention.role) {
        Some(mention.name)
    } else {
        None
    }
}

/// Bars to a mention's name the roles that clash with the mention's one.
fn note(
    alloc: Global,
    parts: &Parts<'_>,
    seen: &mut BarredNames,
    mention: &Mention<'_>,
) -> Result<(), Memory>
    ensures { (before : List Mentioned) → Bars parts.now.tree.now seen.old before → OnOk result (Bars parts.now.tree.now seen.new (before ++ seen_mention mention.now ∷ [])) }
{
    let name = &mention.name.name;
    let listed = parts.listed.has(name);
    let net = parts.declared.has(name);
    let barred = seen.find(name);
    let more = barred.after(listed, net, mention.role);
    // Most mentions use a net again, and bar nothing new: no copy of the name is made for those.
    if more.is_same(barred) {
        return Ok(());
    }
    seen.put(alloc, name, more)?;
    Ok(())
}

/// The first of the identifiers at which a name is declared again.
fn first_double_name<'a>(alloc: Global, parts: &Parts<'a>) -> Result<Option<&'a Ident>, Memory>
    ensures { IfOk result (λ found. found_ident found ≡ soonest (doubles parts.now.tree.now [] (mentions_of parts.now.tree.now))) }
{
    let mut seen = BarredNames::new(alloc, parts.seed);
    let mut found = None;
    for mention in parts.mentions {
        found = soonest_of(found, double_name(&seen, mention));
        note(alloc, parts, &mut seen, mention)?;
    }
    Ok(found)
}

/// The identifier, soonest in the text, at which a name is declared again or an instance names a pin again.
pub(crate) fn doubled<'a>(alloc: Global, parts: &Parts<'a>) -> Result<Option<&'a Ident>, Memory>
    ensures { IfOk result (λ found. found_ident found ≡ soonest (doubled_in parts.now.tree.now)) }
{
    let name = first_double_name(alloc, parts)?;
    let pin = repeated_in_instances(alloc, parts.seed, parts.instances)?;
    Ok(soonest_of(name, pin))
}
