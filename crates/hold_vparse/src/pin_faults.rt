ghost use Rattle.std.specs.Prelude.{◌≡◌, ◌++◌, ◌∷◌, [], flat_map, IfOk, if◌then◌else◌};
ghost use Rattle.hold_netlist.specs.Names.{is_among};
ghost use Rattle.hold_netlist.specs.inner.NameTable.{names_of};
ghost use Rattle.hold_vparse.specs.DoubleNames.{repeated_pins, repeated_in};
ghost use Rattle.hold_vparse.specs.inner.Flat.{seen_instances};
ghost use Rattle.hold_vparse.specs.inner.Found.{found_ident};
ghost use Rattle.hold_vparse.specs.Soonest.{soonest};

use crate::soonest::soonest_of;
use hold_base::Memory;
use hold_netlist::{NameTable, Seed};
use hold_vsyntax::tree::{Connection, Ident, Instance};
use std::alloc::Global;

/// This pin, where its name is among those seen; else its name is put there. The numbers in the table mean
/// nothing.
fn repeated_pin<'a>(
    alloc: Global,
    seen: &mut NameTable,
    pin: &'a Ident,
) -> Result<Option<&'a Ident>, Memory>
    ensures found { IfOk result (λ found. found_ident found ≡ soonest (if is_among pin.now.name (names_of seen.old) then pin.now ∷ [] else [])) }
    ensures seen { IfOk result (λ found. names_of seen.new ≡ (if is_among pin.now.name (names_of seen.old) then names_of seen.old else names_of seen.old ++ pin.now.name ∷ [])) }
{
    match seen.add(alloc, pin.name.bytes(), 0) {
        Ok(true) => Ok(None),
        Ok(false) => Ok(Some(pin)),
        Err(error) => Err(error),
    }
}

/// The first pin that these connections name again.
fn repeated_in_connections<'a>(
    alloc: Global,
    seed: Seed,
    connections: &'a [Connection],
) -> Result<Option<&'a Ident>, Memory>
    ensures { IfOk result (λ found. found_ident found ≡ soonest (repeated_pins [] connections.now)) }
{
    let mut seen = NameTable::new(alloc, seed);
    let mut found = None;
    for connection in connections {
        let again = repeated_pin(alloc, &mut seen, &connection.pin)?;
        found = soonest_of(found, again);
    }
    Ok(found)
}

/// The first pin that one of these instances names again.
pub(crate) fn repeated_in_instances<'a>(
    alloc: Global,
    seed: Seed,
    instances: &[(&'a Ident, &'a Instance)],
) -> Result<Option<&'a Ident>, Memory>
    ensures { IfOk result (λ found. found_ident found ≡ soonest (flat_map repeated_in (seen_instances instances.now))) }
{
    let mut found = None;
    for named in instances {
        let again = repeated_in_connections(alloc, seed, named.1.connections.as_slice())?;
        found = soonest_of(found, again);
    }
    Ok(found)
}
