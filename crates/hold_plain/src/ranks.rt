ghost use Rattle.std.specs.Prelude.{◌≡◌, ◌≤◌, ◌^◌, All, IfOk, map};
ghost use Rattle.hold_plain.specs.inner.Problem.{rank_of};

use crate::pin_use::{PinRole, PinUse};
use hold_base::Memory;
use std::alloc::Global;

/// Above the ranks of all pins of combinational instances.
const TOP_RANK: u32 = 1 << 20;

/// A number by which each arc runs upwards: it begins at pins that drive and that no arc ends at, goes
/// up by the instances, and ends at pins that read and drive nothing.
fn rank_of(pin: &PinUse) -> u32
    requires { pin.now.inst ≤ 2 ^ 18 }
    ensures { result ≡ rank_of pin.now }
{
    match pin.role {
        PinRole::Input => 2 * pin.inst + 1,
        PinRole::Output => 2 * pin.inst + 2,
        PinRole::Clock | PinRole::Data | PinRole::OutPort => TOP_RANK,
        PinRole::Launch | PinRole::InPort | PinRole::Stray => 0,
    }
}

/// The ranks of pins, in their order.
pub(crate) fn ranks_of(alloc: Global, uses: &[PinUse]) -> Result<Vec<u32>, Memory>
    requires { All (λ u. u.inst ≤ 2 ^ 18) uses.now }
    ensures { IfOk result (λ ranks. ranks.items ≡ map rank_of uses.now) }
{
    let mut ranks = Vec::with_capacity(alloc, uses.len())?;
    for pin in uses {
        ranks.push(rank_of(pin))?;
    }
    Ok(ranks)
}
