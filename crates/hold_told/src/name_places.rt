ghost use Rattle.std.specs.Prelude.{◌≡◌, ◌≤◌, IfOk, length};
ghost use Rattle.hold_base.specs.Limits.{insts_limit, pins_limit};
ghost use Rattle.hold_netlist.specs.Names.{pin_names, port_names};
ghost use Rattle.hold_roles.specs.inner.NamePlaces.{TellsPlaces, first_at};
ghost use Rattle.hold_told.specs.inner.Names.{inst_names};

use hold_base::Memory;
use hold_netlist::{Inst, NameTable, Pin, Port, Seed};
use std::alloc::Global;

/// The seed of the names of all instances.
fn insts_seed(insts: &[Inst]) -> Seed {
    let mut seed = Seed::new();
    for inst in insts {
        seed.add(inst.name.bytes());
    }
    seed
}

/// The number of each instance, by its name.
pub(crate) fn inst_places(alloc: Global, insts: &[Inst]) -> Result<NameTable, Memory>
    requires { length insts.now ≤ insts_limit }
    ensures { IfOk result (λ places. TellsPlaces (inst_names insts.now) places) }
{
    let mut places = NameTable::new(alloc, insts_seed(insts));
    for (place, inst) in insts.iter().enumerate() {
        let _is_new = places.add(alloc, inst.name.bytes(), place as u32)?;
    }
    Ok(places)
}

/// The seed of the names of all ports.
fn ports_seed(ports: &[Port]) -> Seed {
    let mut seed = Seed::new();
    for port in ports {
        seed.add(port.name.bytes());
    }
    seed
}

/// The number of each port, by its name.
pub(crate) fn port_places(alloc: Global, ports: &[Port]) -> Result<NameTable, Memory>
    requires { length ports.now ≤ pins_limit }
    ensures { IfOk result (λ places. TellsPlaces (port_names ports.now) places) }
{
    let mut places = NameTable::new(alloc, ports_seed(ports));
    for (place, port) in ports.iter().enumerate() {
        let _is_new = places.add(alloc, port.name.bytes(), place as u32)?;
    }
    Ok(places)
}

/// The first place of a name among connections.
pub(crate) fn pin_place(pins: &[Pin], name: &[u8]) -> Option<u32>
    requires { length pins.now ≤ pins_limit }
    ensures { result ≡ first_at 0 name.now (pin_names pins.now) }
{
    for (place, pin) in pins.iter().enumerate() {
        if pin.name.bytes() == name {
            return Some(place as u32);
        }
    }
    None
}
