ghost use Rattle.std.specs.Prelude.{◌≡◌, ◌≤◌, ◌<◌, ◌+◌, ◌++◌, ◌∷◌, [], ℕ, IfOk, OnOk, All, ◌^◌, length, slice_set, slice_index_or};
ghost use Rattle.hold_netlist.specs.Bits.{bits_of};
ghost use Rattle.hold_netlist.specs.Design.{Design};
ghost use Rattle.hold_netlist.specs.Pins.{connection_count};
ghost use Rattle.hold_netlist.specs.declared.inst.Source.TheVariants.{Net as TiedTo, Empty as Untied};
ghost use Rattle.hold_insert.specs.Padded.{buffer, inserted, new_wire};
ghost use Rattle.hold_insert.specs.inner.Grown.{grown_design, insertions_of};

use crate::new_names::{inst_name, wire_name};
use crate::puts::Put;
use hold_base::{List, Memory, Name, NetNo};
use hold_netlist::{Inst, Kind, Pin, Source, Wire};
use std::alloc::Global;

/// The parts of a netlist that change while buffers are put into it.
#[derive(Drop)]
pub(crate) struct Grown {
    pub(crate) wires: Vec<Wire>,
    /// What each connection of the first instances is tied to.
    pub(crate) sources: Vec<Source>,
    /// The new instances.
    pub(crate) buffers: Vec<Inst>,
}

/// A connection of a buffer.
fn connection(name: &Name, source: Source) -> Result<Pin, Memory>
    ensures name { IfOk result (λ pin. pin.name ≡ name.now) }
    ensures source { IfOk result (λ pin. pin.source ≡ source) }
{
    Ok(Pin {
        name: name.clone()?,
        source,
    })
}

/// The instance of a buffer that reads the source and drives the net bit.
fn buffer(
    alloc: Global,
    number: u32,
    place: u32,
    kind: &Kind,
    source: Source,
    net: NetNo,
) -> Result<Inst, Memory>
    ensures { IfOk result (λ inst. inst ≡ buffer number place kind.now source net) }
{
    let mut pins = Vec::new(alloc);
    pins.push(connection(&kind.input, source)?)?;
    pins.push(connection(&kind.output, Source::Net(net))?)?;
    Ok(Inst {
        name: inst_name(alloc, number, place)?,
        kind: kind.cell.clone()?,
        pins: List::from_vec(pins),
    })
}

impl Grown {
    /// Puts a buffer in front of a pin, whose new wire is that net bit.
    fn put(
        &mut self,
        alloc: Global,
        number: u32,
        place: u32,
        put: &Put<'_>,
        net: NetNo,
    ) -> Result<(), Memory>
        requires { put.now.pin.0 < length self.old.sources.items }
        ensures wires { OnOk result (self.new.wires.items ≡ self.old.wires.items ++ new_wire number place ∷ []) }
        ensures sources { OnOk result (self.new.sources.items ≡ slice_set self.old.sources.items put.now.pin.0 (TiedTo net)) }
        ensures buffers { OnOk result (self.new.buffers.items ≡ self.old.buffers.items ++ buffer number place put.now.kind.now (slice_index_or self.old.sources.items put.now.pin.0 Untied) net ∷ []) }
    {
        let source = self.sources[put.pin.0 as usize];
        self.sources[put.pin.0 as usize] = Source::Net(net);
        self.wires.push(Wire {
            name: wire_name(alloc, number, place)?,
            range: None,
        })?;
        self.buffers
            .push(buffer(alloc, number, place, put.kind, source, net)?)?;
        Ok(())
    }

    /// Puts buffers in, one after another, where the wires have that many bits.
    pub(crate) fn put_all(
        &mut self,
        alloc: Global,
        number: u32,
        bits: u32,
        puts: &[Put<'_>],
    ) -> Result<(), Memory>
        requires pins { All (λ put. put.pin.0 < length self.old.sources.items) puts.now }
        requires bits { bits ≡ bits_of self.old.wires.items }
        requires few { bits + length puts.now ≤ 2 ^ 31 }
        ensures sources { OnOk result (length self.new.sources.items ≡ length self.old.sources.items) }
        ensures made { OnOk result ((d : Design) → connection_count d.insts ≡ length self.old.sources.items →
            grown_design d self.new ≡ inserted number 0 (insertions_of puts.now) (grown_design d self.old)) }
    {
        for (place, put) in puts.iter().enumerate() {
            let place = place as u32;
            self.put(alloc, number, place, put, NetNo(bits + place))?;
        }
        Ok(())
    }
}
