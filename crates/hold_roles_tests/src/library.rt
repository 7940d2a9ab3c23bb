//! A small library, and libraries that name a type twice.

use hold_base::{List, Memory, Name, Stop};
use hold_roles::{CellType, Library, LibraryFault, Role};
use std::alloc::Global;

fn names(alloc: Global, texts: &[&[u8]]) -> Result<List<Name>, Memory> {
    let mut names = Vec::new(alloc);
    for text in texts {
        names.push(Name::from_bytes(alloc, text)?)?;
    }
    Ok(List::from_vec(names))
}

fn comb(alloc: Global, name: &[u8], inputs: &[&[u8]]) -> Result<CellType, Memory> {
    Ok(CellType {
        name: Name::from_bytes(alloc, name)?,
        role: Role::Comb,
        inputs: names(alloc, inputs)?,
        clock: None,
        quiet: names(alloc, &[])?,
        outputs: names(alloc, &[b"Y"])?,
    })
}

/// A register with a clock `C`, data `D`, reset `R` and outputs `Q` and `QN`.
fn register(alloc: Global) -> Result<CellType, Memory> {
    Ok(CellType {
        name: Name::from_bytes(alloc, b"DFF")?,
        role: Role::Register,
        inputs: names(alloc, &[b"D"])?,
        clock: Some(Name::from_bytes(alloc, b"C")?),
        quiet: names(alloc, &[b"R"])?,
        outputs: names(alloc, &[b"Q", b"QN"])?,
    })
}

/// A latch with inputs `G` and `D` and an output `Q`.
fn opaque(alloc: Global) -> Result<CellType, Memory> {
    Ok(CellType {
        name: Name::from_bytes(alloc, b"LAT")?,
        role: Role::Opaque,
        inputs: names(alloc, &[b"G", b"D"])?,
        clock: None,
        quiet: names(alloc, &[])?,
        outputs: names(alloc, &[b"Q"])?,
    })
}

/// The library of `INV`, `NAND`, `TIE`, `DFF` and `LAT`.
pub(crate) fn small(alloc: Global) -> Result<Library, Stop<LibraryFault>> {
    let types = Vec::from_array(
        alloc,
        [
            comb(alloc, b"INV", &[b"A"])?,
            comb(alloc, b"NAND", &[b"A", b"B"])?,
            comb(alloc, b"TIE", &[])?,
            register(alloc)?,
            opaque(alloc)?,
        ],
    )?;
    Library::make(alloc, types)
}

/// Makes a library of types of these names.
fn make(alloc: Global, names: &[&[u8]]) -> Result<Library, Stop<LibraryFault>> {
    let mut types = Vec::new(alloc);
    for name in names {
        types.push(comb(alloc, name, &[])?)?;
    }
    Library::make(alloc, types)
}

/// The number of the type that is refused.
fn double(made: Result<Library, Stop<LibraryFault>>) -> Option<u32> {
    match made {
        Err(Stop::Fault(LibraryFault::Double(place))) => Some(place),
        _ => None,
    }
}

#[test]
fn a_type_is_found_by_its_whole_name(rt: HostRuntime) -> Result<(), Stop<LibraryFault>> {
    let library = small(rt.alloc())?;
    assert_eq!(rt; library.types().len(), 5);
    assert!(rt;
        matches!(library.find(b"DFF"), Some(cell) if cell.name.bytes() == b"DFF".as_slice())
    );
    assert!(rt; matches!(library.find(b"INV"), Some(cell) if cell.role == Role::Comb));
    assert!(rt; library.find(b"IN").is_none());
    assert!(rt; library.find(b"inv").is_none());
    assert!(rt; library.find(b"").is_none());
    Ok(())
}

#[test]
fn the_later_of_two_types_of_one_name_is_named(rt: HostRuntime) {
    let alloc = rt.alloc();
    assert!(rt; make(alloc, &[]).is_ok());
    assert!(rt; make(alloc, &[b"A", b"B", b"AB"]).is_ok());
    assert_eq!(rt; double(make(alloc, &[b"DFF", b"INV", b"INV"])), Some(2));
    assert_eq!(rt;
        double(make(alloc, &[b"A", b"B", b"C", b"B", b"A"])),
        Some(3)
    );
    assert_eq!(rt; double(make(alloc, &[b"", b""])), Some(1));
}
