ghost use Rattle.std.specs.Prelude.{◌≡◌, ◌≤◌, ◌+◌, ◌*◌, ◌++◌, ◌∷◌, [], ℕ, IfOk, OnOk, length, replicate, slice_get, slice_index, Some, ◌<◌};
ghost use Rattle.hold_graph.specs.Sites.{buffers_of};
ghost use Rattle.hold_insert.specs.Chains.{chain_from, in_front_of, insertions};
ghost use Rattle.hold_insert.specs.inner.Grown.{insertions_of};
ghost use Rattle.hold_base.specs.declared.number.PinNo.{PinNo as No};

use hold_base::{Memory, PinNo};
use hold_netlist::Kind;
use std::alloc::Global;

/// A buffer of that kind, to be put in front of that pin.
#[derive(Drop)]
pub(crate) struct Put<'a> {
    pub(crate) pin: PinNo,
    pub(crate) kind: &'a Kind,
}

/// Appends so many buffers of one kind in front of a pin.
fn put_copies<'a>(
    puts: &mut Vec<Put<'a>>,
    pin: PinNo,
    kind: &'a Kind,
    count: u8,
) -> Result<(), Memory>
    ensures { OnOk result (insertions_of puts.new.items ≡ insertions_of puts.old.items ++ in_front_of pin (replicate count kind.now)) }
{
    let mut left = count;
    while left > 0 {
        puts.push(Put { pin, kind })?;
        left -= 1;
    }
    Ok(())
}

/// Appends the chain in front of a pin, whose counts begin at that place.
fn put_chain<'a>(
    puts: &mut Vec<Put<'a>>,
    pin: PinNo,
    kinds: &'a [Kind],
    counts: &[u8],
    first: usize,
) -> Result<(), Memory>
    requires { first + length kinds.now ≤ length counts.now }
    ensures { OnOk result (insertions_of puts.new.items ≡ insertions_of puts.old.items ++ in_front_of pin (chain_from 0 kinds.now (λ kind. slice_index counts.now (first + kind)))) }
{
    for (k, kind) in kinds.iter().enumerate() {
        put_copies(puts, pin, kind, counts[first + k])?;
    }
    Ok(())
}

/// The buffers that counts ask for, pin by pin.
pub(crate) fn puts_of<'a>(
    alloc: Global,
    sites: &[PinNo],
    kinds: &'a [Kind],
    counts: &[u8],
) -> Result<Vec<Put<'a>>, Memory>
    requires rising { (j k : ℕ) (a b : No) → j < k → slice_get sites.now j ≡ Some a → slice_get sites.now k ≡ Some b → a.0 < b.0 }
    requires each { length counts.now ≡ length sites.now * length kinds.now }
    ensures { IfOk result (λ puts. insertions_of puts.items ≡ insertions kinds.now sites.now (buffers_of (length kinds.now) sites.now counts.now)) }
{
    let mut puts = Vec::new(alloc);
    let mut first = 0;
    for site in sites {
        put_chain(&mut puts, *site, kinds, counts, first)?;
        first += kinds.len();
    }
    Ok(puts)
}
