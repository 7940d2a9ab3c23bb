ghost use Rattle.std.specs.Prelude.{◌≡◌, ◌++◌, ◌∷◌, [], None, Some, true, false, IfOk, OnOk, is_none, slice_get};
ghost use Rattle.std.specs.Option.{option_copied};
ghost use Rattle.hold_base.specs.Answers.{Answers, IfFault, unless};
ghost use Rattle.hold_netlist.specs.NameTable.{number_of};
ghost use Rattle.hold_roles.specs.declared.fault.LibraryFault.{LibraryFault};
ghost use Rattle.hold_roles.specs.Types.{double_fault, first_double, type_named, type_names};
ghost use Rattle.hold_roles.specs.inner.NamePlaces.{TellsPlaces, first_at};

use crate::fault::LibraryFault;
use crate::role::CellType;
use hold_base::{Memory, Stop};
use hold_netlist::{NameTable, Seed};
use std::alloc::{AllocError, Global};
use std::marker::Model;

/// Types of cells, no two of one name, which are found by their names in the same time, however many there are.
#[derive(Drop)]
pub struct Library {
    types: Vec<CellType>,
    /// The place of each type, by its name.
    places: NameTable,
}

impl Model for Library {
    ghost use Rattle.std.specs.Prelude.{◌≡◌, List, None};
    ghost use Rattle.hold_roles.specs.declared.role.CellType.{CellType};
    ghost use Rattle.hold_roles.specs.Types.{first_double, type_names};
    ghost use Rattle.hold_roles.specs.inner.NamePlaces.{TellsPlaces};

    ghost Value = { List CellType };

    ghost view = { λ l. l.types.items };

    ghost invariant = { λ l. (first_double l.types.items ≡ None) × TellsPlaces (type_names l.types.items) l.places };
}

/// The seed of the names of all types.
fn names_seed(types: &[CellType]) -> Seed {
    let mut seed = Seed::new();
    for cell in types {
        seed.add(cell.name.bytes());
    }
    seed
}

/// Gives the type its place, where no earlier one has its name. A place past the numbers that a table can hold is want of memory.
fn add(
    alloc: Global,
    places: &mut NameTable,
    cell: &CellType,
    place: usize,
) -> Result<(), Stop<LibraryFault>>
    ensures new { OnOk result (is_none (number_of cell.now.name places.old) ≡ true) }
    ensures fault { IfFault result (λ fault. (fault ≡ LibraryFault.Double place) × (is_none (number_of cell.now.name places.old) ≡ false)) }
    ensures added { OnOk result (places.new ≡ places.old ++ (cell.now.name, place) ∷ []) }
{
    let Ok(number) = u32::try_from(place) else {
        return Err(Stop::Memory);
    };
    if places.add(alloc, cell.name.bytes(), number)? {
        return Ok(());
    }
    Err(Stop::Fault(LibraryFault::Double(number)))
}

/// The place of each type, by its name, which must be new.
fn places_of(alloc: Global, types: &[CellType]) -> Result<NameTable, Stop<LibraryFault>>
    ensures sound { OnOk result (first_double types.now ≡ None) }
    ensures places { IfOk result (λ places. TellsPlaces (type_names types.now) places) }
    ensures fault { IfFault result (λ fault. double_fault (first_double types.now) ≡ Some fault) }
{
    let mut places = NameTable::new(alloc, names_seed(types));
    for (place, cell) in types.iter().enumerate() {
        add(alloc, &mut places, cell, place)?;
    }
    Ok(places)
}

/// The type at that place.
fn item_at(types: &[CellType], place: u32) -> Option<&CellType>
    ensures { option_copied result ≡ slice_get types.now place }
{
    types.get(place as usize)
}

fn copy_types(types: &Vec<CellType>) -> Result<Vec<CellType>, AllocError>
    ensures { IfOk result (λ copy. copy.items ≡ types.now.items) }
{
    types.clone()
}

impl Library {
    /// The library of these types, which are taken over.
    pub fn make(alloc: Global, types: Vec<CellType>) -> Result<Library, Stop<LibraryFault>>
        ensures made { IfOk result (λ library. library ≡ types.items) }
        ensures fault { Answers result (unless (double_fault (first_double types.items)) types.items) }
    {
        let places = places_of(alloc, &types)?;
        Ok(Library { types, places })
    }

    /// The types, in order.
    pub fn types(&self) -> &[CellType]
        ensures { result.now ≡ self.now }
    {
        self.types.as_slice()
    }

    /// The place of the type of this name.
    pub(crate) fn place(&self, name: &[u8]) -> Option<u32>
        ensures { result ≡ first_at 0 name.now (type_names self.now) }
    {
        self.places.find(name)
    }

    /// The type of this name.
    pub fn find(&self, name: &[u8]) -> Option<&CellType>
        ensures { option_copied result ≡ type_named name.now self.now }
    {
        match self.place(name) {
            Some(place) => item_at(&self.types, place),
            None => None,
        }
    }

    /// A copy of the library.
    pub(crate) fn copy(&self, alloc: Global) -> Result<Library, Memory>
        ensures { IfOk result (λ library. library ≡ self.now) }
    {
        let types = copy_types(&self.types)?;
        match Library::make(alloc, types) {
            Ok(library) => Ok(library),
            Err(Stop::Memory) => Err(Memory),
            Err(Stop::Fault(_)) => unreachable!(),
        }
    }

    /// Does nothing. A proof learns from the call that no two types have one name.
    pub fn know_names(&self)
        ensures { first_double self.now ≡ None }
    {
        let _types = &self.types;
    }
}
