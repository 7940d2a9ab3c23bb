ghost use Rattle.std.specs.Prelude.{◌≡◌, ◌≤◌, ◌<◌, Some, IfOk, OnOk, length, slice_get};
ghost use Rattle.hold_base.specs.Limits.{pins_limit};
ghost use Rattle.hold_netlist.specs.declared.inst.Inst.{Inst};
ghost use Rattle.hold_netlist.specs.Names.{pin_names};
ghost use Rattle.hold_roles.specs.inner.NamePlaces.{TellsPlaces, first_at};
ghost use Rattle.hold_build.specs.inner.Names.{AreTables};

use hold_base::Memory;
use hold_netlist::{Inst, NameTable, Pin, Seed};
use std::alloc::Global;

/// Tables of the pins of instances, each made once it is asked for. So finding many pins of an instance of many connections takes
/// no longer than writing them down.
#[derive(Drop)]
pub(crate) struct PinTables {
    /// The place of an instance's table, where it has one.
    pub of_inst: Vec<Option<usize>>,
    pub tables: Vec<NameTable>,
}

/// The seed of the names of these connections.
fn pins_seed(pins: &[Pin]) -> Seed {
    let mut seed = Seed::new();
    for pin in pins {
        seed.add(pin.name.bytes());
    }
    seed
}

/// The first place of each name among these connections.
fn pin_places(alloc: Global, pins: &[Pin]) -> Result<NameTable, Memory>
    requires { length pins.now ≤ pins_limit }
    ensures { IfOk result (λ places. TellsPlaces (pin_names pins.now) places) }
{
    let mut places = NameTable::new(alloc, pins_seed(pins));
    for (place, pin) in pins.iter().enumerate() {
        let _is_new = places.add(alloc, pin.name.bytes(), place as u32)?;
    }
    Ok(places)
}

impl PinTables {
    /// No table yet, for so many instances.
    pub(crate) fn new(alloc: Global, insts: &[Inst]) -> Result<PinTables, Memory>
        ensures { IfOk result (AreTables insts.now) }
    {
        Ok(PinTables {
            of_inst: vec![in alloc; None; insts.len()]?,
            tables: Vec::new(alloc),
        })
    }

    /// Makes the table of an instance.
    fn add(&mut self, alloc: Global, insts: &[Inst], inst: usize) -> Result<usize, Memory>
        requires within { inst < length insts.now }
        requires few { (i : Inst) → slice_get insts.now inst ≡ Some i → length i.pins ≤ pins_limit }
        requires tables { AreTables insts.now self.old }
        ensures tables { OnOk result (AreTables insts.now self.new) }
        ensures added { IfOk result (λ place. slice_get self.new.of_inst.items inst ≡ Some (Some place)) }
    {
        let table = pin_places(alloc, insts[inst].pins.as_slice())?;
        let place = self.tables.len();
        self.tables.push(table)?;
        self.of_inst[inst] = Some(place);
        Ok(place)
    }

    /// The place of the table of an instance.
    fn table_of(&mut self, alloc: Global, insts: &[Inst], inst: usize) -> Result<usize, Memory>
        requires within { inst < length insts.now }
        requires few { (i : Inst) → slice_get insts.now inst ≡ Some i → length i.pins ≤ pins_limit }
        requires tables { AreTables insts.now self.old }
        ensures tables { OnOk result (AreTables insts.now self.new) }
        ensures has { IfOk result (λ place. slice_get self.new.of_inst.items inst ≡ Some (Some place)) }
    {
        match self.of_inst[inst] {
            Some(place) => Ok(place),
            None => self.add(alloc, insts, inst),
        }
    }

    /// The first place of a name among the connections of an instance.
    pub(crate) fn place(
        &mut self,
        alloc: Global,
        insts: &[Inst],
        inst: usize,
        name: &[u8],
    ) -> Result<Option<u32>, Memory>
        requires within { inst < length insts.now }
        requires few { (i : Inst) → slice_get insts.now inst ≡ Some i → length i.pins ≤ pins_limit }
        requires tables { AreTables insts.now self.old }
        ensures tables { OnOk result (AreTables insts.now self.new) }
        ensures place { IfOk result (λ place. (i : Inst) → slice_get insts.now inst ≡ Some i → place ≡ first_at 0 name.now (pin_names i.pins)) }
    {
        let table = self.table_of(alloc, insts, inst)?;
        Ok(self.tables[table].find(name))
    }
}
