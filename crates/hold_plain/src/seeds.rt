//! The seeds of tables, each of the names that its table is made of.
ghost use Rattle.std.specs.Prelude.{◌≡◌};
ghost use Rattle.std.specs.Hash.DefaultHasher as sip;
ghost use Rattle.hold_netlist.specs.Seed.{start_of};
ghost use Rattle.hold_netlist.specs.inner.Seed.{with_texts};
ghost use Rattle.hold_plain.specs.inner.Tables.{cell_names, clock_names, inst_names};

use crate::cell::Cell;
use crate::timing::Clock;
use hold_netlist::{Inst, Seed};

pub(crate) fn cells_seed(cells: &[Cell]) -> Seed
    ensures { start_of result ≡ with_texts sip.initial (cell_names cells.now) }
{
    let mut seed = Seed::new();
    for cell in cells {
        seed.add(cell.name.bytes());
    }
    seed
}

pub(crate) fn clocks_seed(clocks: &[Clock]) -> Seed
    ensures { start_of result ≡ with_texts sip.initial (clock_names clocks.now) }
{
    let mut seed = Seed::new();
    for clock in clocks {
        seed.add(clock.inst.bytes());
    }
    seed
}

/// The seed of the names of all instances, registers or not.
pub(crate) fn insts_seed(insts: &[Inst]) -> Seed
    ensures { start_of result ≡ with_texts sip.initial (inst_names insts.now) }
{
    let mut seed = Seed::new();
    for inst in insts {
        seed.add(inst.name.bytes());
    }
    seed
}
