//! Tables from names to numbers.

use hold_base::Memory;
use hold_netlist::{NameTable, Seed};
use std::alloc::Global;

/// Whether a table of this seed keeps the first number of a name.
fn keeps_the_first_number(alloc: Global, seed: Seed) -> Result<bool, Memory> {
    let mut table = NameTable::new(alloc, seed);
    let new = table.add(alloc, b"a", 3)?;
    let again = table.add(alloc, b"a", 4)?;
    let found = table.find(b"a") == Some(3) && table.find(b"b").is_none();
    Ok(new && !again && found)
}

#[test]
fn tables_of_different_seeds_answer_alike(rt: HostRuntime) -> Result<(), Memory> {
    assert!(rt; keeps_the_first_number(rt.alloc(), Seed::new())?);
    assert!(rt; keeps_the_first_number(rt.alloc(), Seed::of(b"module"))?);
    Ok(())
}
