ghost use Rattle.std.specs.Prelude.{◌≡◌, ◌==◌, ◌-◌, ◌≤◌, ◌++◌, ◌∷◌, [], length, map, take, replicate, is_some, slice_get, unwrap_or, None, OnOk};
ghost use Rattle.hold_netlist.specs.Bits.{width_of_range};
ghost use Rattle.hold_vparse.specs.inner.Index.{at_place};
ghost use Rattle.hold_vparse.specs.inner.Measured.{seen_reach};
ghost use Rattle.hold_vparse.specs.PortFaults.{same_range};
ghost use Rattle.hold_vparse.specs.inner.Ranges.{range_lists, with_nets, line_range};
ghost use Rattle.hold_vparse.specs.inner.Widths.{bounds_width};

use crate::measured::Measured;
use crate::range_table::RangeTable;
use hold_base::Memory;
use hold_vsyntax::number::are_equal;
use hold_vsyntax::tree::Range;
use std::alloc::Global;
use std::marker::Model;

/// The ranges of port lines, of wire lines and of nets, each by its place in a table. A contract sees the ranges.
#[derive(Drop)]
pub(crate) struct Ranges<'a> {
    table: RangeTable<'a>,
    ports: Vec<Option<u32>>,
    wires: Vec<Option<u32>>,
    nets: Vec<Option<u32>>,
}

impl<'a> Model for Ranges<'a> {
    ghost use Rattle.std.specs.Prelude.{map};
    ghost use Rattle.hold_vparse.specs.inner.Index.{at_place};
    ghost use Rattle.hold_vparse.specs.inner.Ranges.{RangeLists, range_lists};

    ghost Value = { RangeLists };

    ghost view = { λ r. range_lists (map (at_place r.table) r.ports.items) (map (at_place r.table) r.wires.items) (map (at_place r.table) r.nets.items) };
}

impl<'a> Ranges<'a> {
    /// The ranges of these lines, by their places in a table that is taken over, and as yet of no net.
    pub(crate) fn of(
        alloc: Global,
        table: RangeTable<'a>,
        ports: Vec<Option<u32>>,
        wires: Vec<Option<u32>>,
    ) -> Ranges<'a>
        ensures { result ≡ range_lists (map (at_place table.entry) ports.items) (map (at_place table.entry) wires.items) [] }
    {
        Ranges {
            table,
            ports,
            wires,
            nets: Vec::new(alloc),
        }
    }

    /// Adds a net with the range of a port line.
    pub(crate) fn add_port(&mut self, line: u32) -> Result<(), Memory>
        ensures { OnOk result (self.new ≡ with_nets self.old (line_range self.old.ports line ∷ [])) }
    {
        self.nets.push(place_at(&self.ports, line as usize))?;
        Ok(())
    }

    /// Adds a net for each of the first port lines, with its range.
    pub(crate) fn add_first_ports(&mut self, count: usize) -> Result<(), Memory>
        requires { count ≤ length self.old.ports }
        ensures { OnOk result (self.new ≡ with_nets self.old (take count self.old.ports)) }
    {
        self.nets.extend_from_slice(&self.ports[..count])?;
        Ok(())
    }

    /// Adds a net with the range of a wire line.
    pub(crate) fn add_wire(&mut self, line: usize) -> Result<(), Memory>
        ensures { OnOk result (self.new ≡ with_nets self.old (line_range self.old.wires line ∷ [])) }
    {
        self.nets.push(place_at(&self.wires, line))?;
        Ok(())
    }

    /// Adds a scalar.
    pub(crate) fn add_scalar(&mut self) -> Result<(), Memory>
        ensures { OnOk result (self.new ≡ with_nets self.old (None ∷ [])) }
    {
        self.nets.push(None)?;
        Ok(())
    }

    /// Adds scalars until there are so many nets.
    pub(crate) fn fill(&mut self, count: usize) -> Result<(), Memory>
        requires { length self.old.nets ≤ count }
        ensures { OnOk result (self.new ≡ with_nets self.old (replicate (count - length self.old.nets) None)) }
    {
        self.nets.resize(count, None)?;
        Ok(())
    }

    /// Whether a wire line and a port line have ranges with the same bounds, or neither has any.
    pub(crate) fn have_same_bounds(&self, wire: usize, port: u32) -> bool
        ensures { result ≡ same_range (line_range self.now.wires wire) (line_range self.now.ports port) }
    {
        self.table.have_same_bounds(
            place_at(&self.wires, wire),
            place_at(&self.ports, port as usize),
        )
    }

    /// What the net in a place is: none where no place is given; else its range, which is none of a scalar.
    pub(crate) fn reach(&self, net: Option<u32>) -> Option<Option<&Measured<'a>>>
        ensures { seen_reach result ≡ at_place self.now.nets net }
    {
        match net {
            Some(net) => match self.nets.get(net as usize) {
                Some(place) => Some(self.table.get(*place)),
                None => None,
            },
            None => None,
        }
    }

    /// Whether there is a net in this place.
    pub(crate) fn has_net(&self, net: u32) -> bool
        ensures { result ≡ is_some (slice_get self.now.nets net) }
    {
        (net as usize) < self.nets.len()
    }

    /// Whether a net has one bit.
    pub(crate) fn has_one_bit(&self, net: u32) -> bool
        ensures { result ≡ (width_of_range (line_range self.now.nets net) == 1) }
    {
        match self.reach(Some(net)) {
            Some(Some(range)) => range.has_one_bit(),
            _ => true,
        }
    }

    /// Whether a net has as many bits as a part.
    pub(crate) fn is_as_wide_as(&self, net: u32, part: &Range) -> bool
        ensures { result ≡ (width_of_range (line_range self.now.nets net) == bounds_width part.now) }
    {
        match self.reach(Some(net)) {
            Some(Some(range)) => range.is_as_wide_as(part),
            _ => are_equal(&part.left, &part.right),
        }
    }

    /// Whether the nets in two places have as many bits.
    pub(crate) fn have_same_width(&self, net: u32, other: u32) -> bool
        ensures { result ≡ (width_of_range (line_range self.now.nets net) == width_of_range (line_range self.now.nets other)) }
    {
        self.table.have_same_width(
            place_at(&self.nets, net as usize),
            place_at(&self.nets, other as usize),
        )
    }
}

/// The place that a line's range has in the table, where it has a range.
fn place_at(places: &[Option<u32>], line: usize) -> Option<u32>
    ensures { result ≡ unwrap_or (slice_get places.now line) None }
{
    match places.get(line) {
        Some(place) => *place,
        None => None,
    }
}
