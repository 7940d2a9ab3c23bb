ghost use Rattle.std.specs.Prelude.{◌≡◌, ◌++◌, map, OnOk};
ghost use Rattle.hold_netlist.specs.CanonicalText.{spelled, joined, module_line};
ghost use Rattle.hold_netlist.specs.Names.{port_names};
ghost use Rattle.hold_vwrite.specs.inner.Joined.{each_after_comma};

use crate::name::put_name;
use hold_base::{Memory, Name};
use hold_netlist::Port;

/// Appends the names of these ports, each after a comma.
fn put_more_ports(out: &mut Vec<u8>, ports: &[Port]) -> Result<(), Memory>
    ensures { OnOk result (out.new.items ≡ out.old.items ++ each_after_comma (map spelled (port_names ports.now))) }
{
    for port in ports {
        out.extend_from_slice(b", ")?;
        put_name(out, &port.name)?;
    }
    Ok(())
}

/// Appends the names of the ports, with a comma between each and the next.
fn put_port_names(out: &mut Vec<u8>, ports: &[Port]) -> Result<(), Memory>
    ensures { OnOk result (out.new.items ≡ out.old.items ++ joined (map spelled (port_names ports.now))) }
{
    match ports {
        [] => Ok(()),
        [first, rest @ ..] => {
            put_name(out, &first.name)?;
            put_more_ports(out, rest)
        }
    }
}

/// Appends the line that begins the module.
pub(crate) fn put_module_line(out: &mut Vec<u8>, name: &Name, ports: &[Port]) -> Result<(), Memory>
    ensures { OnOk result (out.new.items ≡ out.old.items ++ module_line name.now ports.now) }
{
    out.extend_from_slice(b"module ")?;
    put_name(out, name)?;
    out.extend_from_slice(b"(")?;
    put_port_names(out, ports)?;
    out.extend_from_slice(b");\n")?;
    Ok(())
}
