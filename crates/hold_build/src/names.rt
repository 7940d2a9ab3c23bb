ghost use Rattle.std.specs.Prelude.{◌≡◌, ◌≤◌, ◌<◌, ◌↔◌, Some, IfOk, OnOk, length};
ghost use Rattle.hold_base.specs.Limits.{insts_limit, pins_limit};
ghost use Rattle.hold_base.specs.declared.number.InstNo.{InstNo};
ghost use Rattle.hold_base.specs.declared.number.PinNo.{PinNo};
ghost use Rattle.hold_netlist.specs.Pins.{connection_count, pin_count};
ghost use Rattle.hold_netlist.specs.inner.Numbering.{firsts_from};
ghost use Rattle.hold_roles.specs.inner.NamePlaces.{TellsPlaces};
ghost use Rattle.hold_build.specs.NetlistGraph.{IsKeptBy, IsNamedInst};
ghost use Rattle.hold_build.specs.inner.Names.{AreNames, inst_names};

use crate::pin_tables::PinTables;
use hold_base::{InstNo, Memory, PinNo};
use hold_job::Keep;
use hold_netlist::{Inst, NameTable, Netlist, Seed};
use std::alloc::Global;

/// What finds instances and pins by their names.
#[derive(Drop)]
pub(crate) struct Names {
    /// The number of each instance.
    pub insts: NameTable,
    /// The number of the first connection of each instance, and then how many connections there are.
    pub first_pins: Vec<u32>,
    pub pins: PinTables,
}

/// The seed of the names of all instances.
fn insts_seed(insts: &[Inst]) -> Seed {
    let mut seed = Seed::new();
    for inst in insts {
        seed.add(inst.name.bytes());
    }
    seed
}

/// The number of each instance, by its name.
fn inst_places(alloc: Global, insts: &[Inst]) -> Result<NameTable, Memory>
    requires { length insts.now ≤ insts_limit }
    ensures { IfOk result (λ places. TellsPlaces (inst_names insts.now) places) }
{
    let mut places = NameTable::new(alloc, insts_seed(insts));
    for (place, inst) in insts.iter().enumerate() {
        let _is_new = places.add(alloc, inst.name.bytes(), place as u32)?;
    }
    Ok(places)
}

/// The number of the first connection of each instance, and then how many connections there are.
fn first_pins(alloc: Global, insts: &[Inst]) -> Result<Vec<u32>, Memory>
    requires { connection_count insts.now ≤ pins_limit }
    ensures { IfOk result (λ firsts. firsts.items ≡ firsts_from 0 pin_count insts.now) }
{
    let mut firsts = Vec::with_capacity(alloc, insts.len() + 1)?;
    let mut next = 0;
    for inst in insts {
        firsts.push(next)?;
        next += inst.pins.as_slice().len() as u32;
    }
    firsts.push(next)?;
    Ok(firsts)
}

impl Names {
    /// What finds those of a netlist.
    pub(crate) fn of(alloc: Global, netlist: &Netlist) -> Result<Names, Memory>
        ensures { IfOk result (AreNames netlist.now.insts) }
    {
        netlist.know_valid();
        Ok(Names {
            insts: inst_places(alloc, netlist.insts())?,
            first_pins: first_pins(alloc, netlist.insts())?,
            pins: PinTables::new(alloc, netlist.insts())?,
        })
    }

    /// The instance of this name.
    pub(crate) fn inst(&self, netlist: &Netlist, name: &[u8]) -> Option<InstNo>
        requires { AreNames netlist.now.insts self.now }
        ensures { (inst : InstNo) → IsNamedInst netlist.now.insts inst.0 name.now ↔ (result ≡ Some inst) }
    {
        netlist.know_valid();
        match self.insts.find(name) {
            Some(inst) => Some(InstNo(inst)),
            None => None,
        }
    }

    /// The connection that an entry names.
    pub(crate) fn kept_pin(
        &mut self,
        alloc: Global,
        netlist: &Netlist,
        keep: &Keep,
    ) -> Result<Option<PinNo>, Memory>
        requires { AreNames netlist.now.insts self.old }
        ensures names { OnOk result (AreNames netlist.now.insts self.new) }
        ensures pin { IfOk result (λ pin. (p : PinNo) → IsKeptBy netlist.now.insts keep.now p ↔ (pin ≡ Some p)) }
    {
        netlist.know_valid();
        let Some(inst) = self.insts.find(keep.inst.bytes()) else {
            return Ok(None);
        };
        let inst = inst as usize;
        match self
            .pins
            .place(alloc, netlist.insts(), inst, keep.pin.bytes())?
        {
            Some(place) => Ok(Some(PinNo(self.first_pins[inst] + place))),
            None => Ok(None),
        }
    }
}
