ghost use Rattle.std.specs.Prelude.{◌≡◌, ◌++◌, map, flat_map, OnOk};
ghost use Rattle.hold_netlist.specs.CanonicalText.{joined, connection_text, inst_line};
ghost use Rattle.hold_vwrite.specs.inner.Joined.{each_after_comma};

use crate::bits::put_source;
use crate::name::put_name;
use hold_base::Memory;
use hold_netlist::{Inst, Netlist, Pin};

/// Appends a connection, also an empty one.
fn put_connection(out: &mut Vec<u8>, netlist: &Netlist, pin: &Pin) -> Result<(), Memory>
    ensures { OnOk result (out.new.items ≡ out.old.items ++ connection_text netlist.now.wires pin.now) }
{
    out.extend_from_slice(b".")?;
    put_name(out, &pin.name)?;
    out.extend_from_slice(b"(")?;
    put_source(out, netlist, pin.source)?;
    out.extend_from_slice(b")")?;
    Ok(())
}

/// Appends these connections, each after a comma.
fn put_more_connections(out: &mut Vec<u8>, netlist: &Netlist, pins: &[Pin]) -> Result<(), Memory>
    ensures { OnOk result (out.new.items ≡ out.old.items ++ each_after_comma (map (connection_text netlist.now.wires) pins.now)) }
{
    for pin in pins {
        out.extend_from_slice(b", ")?;
        put_connection(out, netlist, pin)?;
    }
    Ok(())
}

/// Appends the connections, with a comma between each and the next.
fn put_connections(out: &mut Vec<u8>, netlist: &Netlist, pins: &[Pin]) -> Result<(), Memory>
    ensures { OnOk result (out.new.items ≡ out.old.items ++ joined (map (connection_text netlist.now.wires) pins.now)) }
{
    match pins {
        [] => Ok(()),
        [first, rest @ ..] => {
            put_connection(out, netlist, first)?;
            put_more_connections(out, netlist, rest)
        }
    }
}

/// Appends the line of an instance.
fn put_inst_line(out: &mut Vec<u8>, netlist: &Netlist, inst: &Inst) -> Result<(), Memory>
    ensures { OnOk result (out.new.items ≡ out.old.items ++ inst_line netlist.now.wires inst.now) }
{
    out.extend_from_slice(b"  ")?;
    put_name(out, &inst.kind)?;
    out.extend_from_slice(b" ")?;
    put_name(out, &inst.name)?;
    out.extend_from_slice(b"(")?;
    put_connections(out, netlist, inst.pins.as_slice())?;
    out.extend_from_slice(b");\n")?;
    Ok(())
}

/// Appends the lines of the instances.
pub(crate) fn put_inst_lines(
    out: &mut Vec<u8>,
    netlist: &Netlist,
    insts: &[Inst],
) -> Result<(), Memory>
    ensures { OnOk result (out.new.items ≡ out.old.items ++ flat_map (inst_line netlist.now.wires) insts.now) }
{
    for inst in insts {
        put_inst_line(out, netlist, inst)?;
    }
    Ok(())
}
