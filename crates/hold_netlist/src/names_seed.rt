ghost use Rattle.std.specs.Prelude.{◌≡◌};
ghost use Rattle.std.specs.Hash.DefaultHasher as sip;
ghost use Rattle.hold_netlist.specs.Names.{wire_names, pin_names};
ghost use Rattle.hold_netlist.specs.Seed.{start_of};
ghost use Rattle.hold_netlist.specs.inner.Seed.{with_texts, with_insts};

use crate::inst::{Inst, Pin};
use crate::seed::Seed;
use crate::wire::Wire;

fn add_wires(seed: &mut Seed, wires: &[Wire])
    ensures { start_of seed.new ≡ with_texts (start_of seed.old) (wire_names wires.now) }
{
    for wire in wires {
        seed.add(wire.name.bytes());
    }
}

fn add_pins(seed: &mut Seed, pins: &[Pin])
    ensures { start_of seed.new ≡ with_texts (start_of seed.old) (pin_names pins.now) }
{
    for pin in pins {
        seed.add(pin.name.bytes());
    }
}

fn add_insts(seed: &mut Seed, insts: &[Inst])
    ensures { start_of seed.new ≡ with_insts (start_of seed.old) insts.now }
{
    for inst in insts {
        seed.add(inst.name.bytes());
        add_pins(seed, inst.pins.as_slice());
    }
}

/// The seed of all names of wires, instances and pins.
pub(crate) fn names_seed(wires: &[Wire], insts: &[Inst]) -> Seed
    ensures { start_of result ≡ with_insts (with_texts sip.initial (wire_names wires.now)) insts.now }
{
    let mut seed = Seed::new();
    add_wires(&mut seed, wires);
    add_insts(&mut seed, insts);
    seed
}
