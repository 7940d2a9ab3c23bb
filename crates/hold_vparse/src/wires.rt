ghost use Rattle.std.specs.Prelude.{◌≡◌, ◌++◌, ◌∷◌, [], map, not, ◌&&◌, None, OnOk, IfOk, if◌then◌else◌};
ghost use Rattle.std.specs.List.{filter};
ghost use Rattle.hold_netlist.specs.Names.{is_among};
ghost use Rattle.hold_netlist.specs.inner.NameTable.{names_of};
ghost use Rattle.hold_vsyntax.specs.declared.tree.Ident.{Ident as Named};
ghost use Rattle.hold_vparse.specs.inner.Flat.{seen_ports, seen_wires, seen_mention, seen_mentions, net_wires};
ghost use Rattle.hold_vparse.specs.Lines.{PortLine, WireLine};
ghost use Rattle.hold_vparse.specs.Nets.{names, wire, first_uses};
ghost use Rattle.hold_vparse.specs.inner.Roles.{seen_role};
ghost use Rattle.hold_vparse.specs.inner.Uses.{is_use, used, wires_of};

use crate::index::Index;
use crate::lines::{NamedWire, Port};
use crate::mentions::{Mention, Role};
use hold_base::Memory;
use hold_netlist::{NameTable, Seed};
use std::alloc::Global;

/// Puts the wires of the ports behind these.
fn add_port_wires<'a>(list: &mut Vec<NamedWire<'a>>, ports: &[Port<'a>]) -> Result<(), Memory>
    ensures { OnOk result (net_wires list.new.items ≡ net_wires list.old.items ++ map (λ (l : PortLine). wire l.name.name l.range) (seen_ports ports.now)) }
{
    for port in ports {
        list.push(NamedWire {
            range: port.range,
            name: port.name,
        })?;
    }
    Ok(())
}

/// Puts those of the declared wires that are no ports behind these.
fn add_other_wires<'a>(
    list: &mut Vec<NamedWire<'a>>,
    ports: &Index<'a>,
    lines: &[NamedWire<'a>],
) -> Result<(), Memory>
    ensures { OnOk result (net_wires list.new.items ≡ net_wires list.old.items ++ map (λ (l : WireLine). wire l.name.name l.range) (filter (λ (l : WireLine). not (is_among l.name.name (names ports.now))) (seen_wires lines.now))) }
{
    for line in lines {
        if !ports.has(&line.name.name) {
            list.push(NamedWire {
                range: line.range,
                name: line.name,
            })?;
        }
    }
    Ok(())
}

/// Whether a mention in this role uses a net.
fn is_net_use(role: Role) -> bool
    ensures { result ≡ is_use (seen_role role) }
{
    matches!(role, Role::UsesNet)
}

/// Whether this is the first use of a net that is declared nowhere; then its name is put among those seen.
/// The numbers in the table mean nothing.
fn is_first_use(
    alloc: Global,
    declared: &Index<'_>,
    seen: &mut NameTable,
    mention: &Mention<'_>,
) -> Result<bool, Memory>
    ensures new { IfOk result (λ new. new ≡ (is_use (seen_role mention.now.role) && not (is_among mention.now.name.now.name (names declared.now ++ names_of seen.old)))) }
    ensures seen { IfOk result (λ new. names_of seen.new ≡ (if new then names_of seen.old ++ mention.now.name.now.name ∷ [] else names_of seen.old)) }
{
    if !is_net_use(mention.role) || declared.has(&mention.name.name) {
        return Ok(false);
    }
    seen.add(alloc, mention.name.name.bytes(), 0)
}

/// Puts a scalar for each name that is used and declared nowhere behind these, in the order of first uses.
fn add_implicit_wires<'a>(
    alloc: Global,
    seed: Seed,
    list: &mut Vec<NamedWire<'a>>,
    declared: &Index<'a>,
    mentions: &[Mention<'a>],
) -> Result<(), Memory>
    ensures { OnOk result (net_wires list.new.items ≡ net_wires list.old.items ++ map (λ (i : Named). wire i.name None) (first_uses (names declared.now) (used (seen_mentions mentions.now)))) }
{
    let mut seen = NameTable::new(alloc, seed);
    for mention in mentions {
        if is_first_use(alloc, declared, &mut seen, mention)? {
            list.push(NamedWire {
                range: None,
                name: mention.name,
            })?;
        }
    }
    Ok(())
}

/// All wires: the ports' ones, the other declared ones, and the implicit ones.
pub(crate) fn all_wires<'a>(
    alloc: Global,
    seed: Seed,
    ports: &[Port<'a>],
    header: &Index<'a>,
    lines: &[NamedWire<'a>],
    declared: &Index<'a>,
    mentions: &[Mention<'a>],
) -> Result<Vec<NamedWire<'a>>, Memory>
    ensures { IfOk result (λ list. net_wires list.items ≡ wires_of (seen_ports ports.now) (names header.now) (seen_wires lines.now) (names declared.now) (used (seen_mentions mentions.now))) }
{
    let mut list = Vec::new(alloc);
    add_port_wires(&mut list, ports)?;
    add_other_wires(&mut list, header, lines)?;
    add_implicit_wires(alloc, seed, &mut list, declared, mentions)?;
    Ok(list)
}
