ghost use Rattle.std.specs.Prelude.{◌≡◌, ◌++◌, ◌∷◌, map, flat_map, OnOk, IfOk};
ghost use Rattle.hold_vsyntax.specs.declared.tree.Assignment.{Assignment as Assigned};
ghost use Rattle.hold_vparse.specs.inner.Flat.{seen_ident, seen_ports, seen_mentions};
ghost use Rattle.hold_vparse.specs.inner.Roles.{seen_role};
ghost use Rattle.hold_vparse.specs.DoubleNames.{mention, DeclaresPort, UsesNet, mentions, mentions_of_item, mentions_of_instance};
ghost use Rattle.hold_vparse.specs.Lines.{PortLine};
ghost use Rattle.hold_vparse.specs.Nets.{used_in_tied};

use crate::lines::{Port, header_lines_in, header_names_in};
use hold_base::Memory;
use hold_vsyntax::tree::{Assignment, Ident, Instance, Item, Module, Tied};
use std::alloc::Global;

/// What a place in the text does to the name that stands there.
#[derive(Clone, Copy)]
pub(crate) enum Role {
    /// Lists a port whose direction the body gives.
    ListsPort,
    /// Declares a port in the header.
    DeclaresPort,
    /// Gives a port its direction.
    GivesDirection,
    DeclaresWire,
    DeclaresInstance,
    /// Uses a net, in a connection or on the left of an assignment.
    UsesNet,
}

/// A name where it stands, and its role there.
#[derive(Clone, Copy)]
pub(crate) struct Mention<'a> {
    pub role: Role,
    pub name: &'a Ident,
}

/// The net that a pin is tied to.
fn tied_net(tied: &Tied) -> Option<&Ident>
    ensures { seen_ident result ≡ used_in_tied tied.now }
{
    match tied {
        Tied::Net(name) | Tied::Bit(name, _) => Some(name),
        Tied::Open | Tied::Constant(_) => None,
    }
}

/// Puts a use of the net that a pin is tied to behind these.
fn add_tied<'a>(list: &mut Vec<Mention<'a>>, tied: &'a Tied) -> Result<(), Memory>
    ensures { OnOk result (seen_mentions list.new.items ≡ seen_mentions list.old.items ++ map (mention UsesNet) (used_in_tied tied.now)) }
{
    if let Some(name) = tied_net(tied) {
        list.push(Mention {
            role: Role::UsesNet,
            name,
        })?;
    }
    Ok(())
}

/// Puts an instance's name and the nets that it uses behind these.
fn add_instance<'a>(list: &mut Vec<Mention<'a>>, instance: &'a Instance) -> Result<(), Memory>
    ensures { OnOk result (seen_mentions list.new.items ≡ seen_mentions list.old.items ++ mentions_of_instance instance.now) }
{
    list.push(Mention {
        role: Role::DeclaresInstance,
        name: &instance.name,
    })?;
    for connection in instance.connections.as_slice() {
        add_tied(list, &connection.tied)?;
    }
    Ok(())
}

/// Puts instances' names and uses behind these.
fn add_instances<'a>(
    list: &mut Vec<Mention<'a>>,
    first: &'a Instance,
    rest: &'a [Instance],
) -> Result<(), Memory>
    ensures { OnOk result (seen_mentions list.new.items ≡ seen_mentions list.old.items ++ flat_map mentions_of_instance (first.now ∷ rest.now)) }
{
    add_instance(list, first)?;
    for instance in rest {
        add_instance(list, instance)?;
    }
    Ok(())
}

/// Puts names in one role behind these.
fn add_names<'a>(list: &mut Vec<Mention<'a>>, role: Role, names: &'a [Ident]) -> Result<(), Memory>
    ensures { OnOk result (seen_mentions list.new.items ≡ seen_mentions list.old.items ++ map (mention (seen_role role)) names.now) }
{
    for name in names {
        list.push(Mention { role, name })?;
    }
    Ok(())
}

/// Puts one or more names in one role behind these.
fn add_several_names<'a>(
    list: &mut Vec<Mention<'a>>,
    role: Role,
    first: &'a Ident,
    rest: &'a [Ident],
) -> Result<(), Memory>
    ensures { OnOk result (seen_mentions list.new.items ≡ seen_mentions list.old.items ++ map (mention (seen_role role)) (first.now ∷ rest.now)) }
{
    list.push(Mention { role, name: first })?;
    add_names(list, role, rest)
}

/// Puts the ports that a header declares behind these.
fn add_declared_ports<'a>(list: &mut Vec<Mention<'a>>, lines: &[Port<'a>]) -> Result<(), Memory>
    ensures { OnOk result (seen_mentions list.new.items ≡ seen_mentions list.old.items ++ map (λ (p : PortLine). mention DeclaresPort p.name) (seen_ports lines.now)) }
{
    for line in lines {
        list.push(Mention {
            role: Role::DeclaresPort,
            name: line.name,
        })?;
    }
    Ok(())
}

/// Puts uses of the nets on the left of assignments behind these.
fn add_left_sides<'a>(
    list: &mut Vec<Mention<'a>>,
    first: &'a Assignment,
    rest: &'a [Assignment],
) -> Result<(), Memory>
    ensures { OnOk result (seen_mentions list.new.items ≡ seen_mentions list.old.items ++ map (λ (a : Assigned). mention UsesNet a.left.net) (first.now ∷ rest.now)) }
{
    let role = Role::UsesNet;
    list.push(Mention {
        role,
        name: &first.left.net,
    })?;
    for assignment in rest {
        list.push(Mention {
            role,
            name: &assignment.left.net,
        })?;
    }
    Ok(())
}

/// Puts the mentions of a statement behind these.
fn add_item<'a>(list: &mut Vec<Mention<'a>>, item: &'a Item) -> Result<(), Memory>
    ensures { OnOk result (seen_mentions list.new.items ≡ seen_mentions list.old.items ++ mentions_of_item item.now) }
{
    match item {
        Item::Ports(ports) => {
            let names = &ports.names;
            add_several_names(
                list,
                Role::GivesDirection,
                &names.first,
                names.rest.as_slice(),
            )
        }
        Item::Wires(wires) => {
            let names = &wires.names;
            add_several_names(
                list,
                Role::DeclaresWire,
                &names.first,
                names.rest.as_slice(),
            )
        }
        Item::Assignments(several) => {
            add_left_sides(list, &several.first, several.rest.as_slice())
        }
        Item::Instances(instances) => {
            add_instances(list, &instances.list.first, instances.list.rest.as_slice())
        }
    }
}

/// Puts the mentions of statements behind these.
fn add_items<'a>(list: &mut Vec<Mention<'a>>, items: &'a [Item]) -> Result<(), Memory>
    ensures { OnOk result (seen_mentions list.new.items ≡ seen_mentions list.old.items ++ flat_map mentions_of_item items.now) }
{
    for item in items {
        add_item(list, item)?;
    }
    Ok(())
}

/// All mentions, in the order of the text.
pub(crate) fn mentions_in(alloc: Global, tree: &Module) -> Result<Vec<Mention<'_>>, Memory>
    ensures { IfOk result (λ list. seen_mentions list.items ≡ mentions tree.now) }
{
    let lines = header_lines_in(alloc, &tree.header)?;
    let mut list = Vec::new(alloc);
    add_names(&mut list, Role::ListsPort, header_names_in(&tree.header))?;
    add_declared_ports(&mut list, &lines)?;
    add_items(&mut list, tree.items.as_slice())?;
    Ok(list)
}
