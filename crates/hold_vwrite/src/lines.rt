ghost use Rattle.std.specs.Prelude.{◌≡◌, ◌≤◌, ◌++◌, length, flat_map, OnOk};
ghost use Rattle.hold_netlist.specs.CanonicalText.{direction_text, port_line, port_lines, wire_line, assign_line};

use crate::bits::{put_bit, put_source};
use crate::name::put_name;
use crate::range::put_range;
use hold_base::Memory;
use hold_netlist::{Assign, Direction, Netlist, Port, Wire};

/// The word of a direction, and a space.
fn direction_word(direction: Direction) -> &'static [u8]
    ensures { result.now ≡ direction_text direction }
{
    match direction {
        Direction::Input => b"input ",
        Direction::Output => b"output ",
    }
}

/// Appends the line of a port, whose wire is `wire`.
fn put_port_line(out: &mut Vec<u8>, port: &Port, wire: &Wire) -> Result<(), Memory>
    ensures { OnOk result (out.new.items ≡ out.old.items ++ port_line port.now wire.now) }
{
    out.extend_from_slice(b"  ")?;
    out.extend_from_slice(direction_word(port.direction))?;
    put_range(out, wire.range)?;
    put_name(out, &port.name)?;
    out.extend_from_slice(b";\n")?;
    Ok(())
}

/// Appends the lines of the ports, whose wires are the first wires.
pub(crate) fn put_port_lines(
    out: &mut Vec<u8>,
    ports: &[Port],
    wires: &[Wire],
) -> Result<(), Memory>
    requires { length ports.now ≤ length wires.now }
    ensures { OnOk result (out.new.items ≡ out.old.items ++ port_lines ports.now wires.now) }
{
    for (i, port) in ports.iter().enumerate() {
        put_port_line(out, port, &wires[i])?;
    }
    Ok(())
}

/// Appends the line of a wire that is no port's.
fn put_wire_line(out: &mut Vec<u8>, wire: &Wire) -> Result<(), Memory>
    ensures { OnOk result (out.new.items ≡ out.old.items ++ wire_line wire.now) }
{
    out.extend_from_slice(b"  wire ")?;
    put_range(out, wire.range)?;
    put_name(out, &wire.name)?;
    out.extend_from_slice(b";\n")?;
    Ok(())
}

/// Appends the lines of wires that are no ports'.
pub(crate) fn put_wire_lines(out: &mut Vec<u8>, wires: &[Wire]) -> Result<(), Memory>
    ensures { OnOk result (out.new.items ≡ out.old.items ++ flat_map wire_line wires.now) }
{
    for wire in wires {
        put_wire_line(out, wire)?;
    }
    Ok(())
}

/// Appends the line of an assigned bit.
fn put_assign_line(out: &mut Vec<u8>, netlist: &Netlist, assign: &Assign) -> Result<(), Memory>
    ensures { OnOk result (out.new.items ≡ out.old.items ++ assign_line netlist.now.wires assign.now) }
{
    out.extend_from_slice(b"  assign ")?;
    put_bit(out, netlist, assign.left)?;
    out.extend_from_slice(b" = ")?;
    put_source(out, netlist, assign.right)?;
    out.extend_from_slice(b";\n")?;
    Ok(())
}

/// Appends the lines of the assigned bits.
pub(crate) fn put_assign_lines(
    out: &mut Vec<u8>,
    netlist: &Netlist,
    assigns: &[Assign],
) -> Result<(), Memory>
    ensures { OnOk result (out.new.items ≡ out.old.items ++ flat_map (assign_line netlist.now.wires) assigns.now) }
{
    for assign in assigns {
        put_assign_line(out, netlist, assign)?;
    }
    Ok(())
}
