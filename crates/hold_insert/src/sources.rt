ghost use Rattle.std.specs.Prelude.{◌≡◌, ◌≤◌, ◌++◌, IfOk, OnOk, length};
ghost use Rattle.hold_netlist.specs.Pins.{connection_count};
ghost use Rattle.hold_insert.specs.inner.Sources.{pin_sources, sources_of, with_pin_sources, with_sources};

use hold_base::{List, Memory};
use hold_netlist::{Inst, Pin, Source};
use std::alloc::Global;

/// Appends what connections are tied to.
fn put_sources(out: &mut Vec<Source>, pins: &[Pin]) -> Result<(), Memory>
    ensures { OnOk result (out.new.items ≡ out.old.items ++ pin_sources pins.now) }
{
    for pin in pins {
        out.push(pin.source)?;
    }
    Ok(())
}

/// What the connections of instances are tied to, in the order of their numbers.
pub(crate) fn sources_of(alloc: Global, insts: &[Inst]) -> Result<Vec<Source>, Memory>
    ensures { IfOk result (λ sources. sources.items ≡ sources_of insts.now) }
{
    let mut sources = Vec::new(alloc);
    for inst in insts {
        put_sources(&mut sources, inst.pins.as_slice())?;
    }
    Ok(sources)
}

/// The connections, tied to these sources in turn.
fn with_pin_sources(alloc: Global, pins: &[Pin], sources: &[Source]) -> Result<List<Pin>, Memory>
    requires { length pins.now ≤ length sources.now }
    ensures { IfOk result (λ tied. tied ≡ with_pin_sources pins.now sources.now) }
{
    let mut tied = Vec::new(alloc);
    for (place, pin) in pins.iter().enumerate() {
        tied.push(Pin {
            name: pin.name.clone()?,
            source: sources[place],
        })?;
    }
    Ok(List::from_vec(tied))
}

/// The instances, with their connections tied to these sources in turn.
pub(crate) fn with_sources(
    alloc: Global,
    insts: &[Inst],
    sources: &[Source],
) -> Result<Vec<Inst>, Memory>
    requires { connection_count insts.now ≤ length sources.now }
    ensures { IfOk result (λ tied. tied.items ≡ with_sources insts.now sources.now) }
{
    let mut tied = Vec::new(alloc);
    let mut left = insts;
    let mut rest = sources;
    while let [inst, later @ ..] = left {
        let pins = inst.pins.as_slice();
        tied.push(Inst {
            name: inst.name.clone()?,
            kind: inst.kind.clone()?,
            pins: with_pin_sources(alloc, pins, rest)?,
        })?;
        let (_, others) = rest.split_at(pins.len());
        left = later;
        rest = others;
    }
    Ok(tied)
}
