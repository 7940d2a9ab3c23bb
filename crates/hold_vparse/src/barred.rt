ghost use Rattle.std.specs.Prelude.{◌≡◌, ◌↔◌, ◌||◌, IsTrue};
ghost use Rattle.hold_vparse.specs.inner.Barred.{is_barred, none_barred};
ghost use Rattle.hold_vparse.specs.inner.Roles.{seen_role};
ghost use Rattle.hold_vparse.specs.DoubleNames.{Role as Part, clash};

use crate::mentions::Role;

/// The roles in which a name can't be mentioned once more, since that would declare it again.
#[derive(Clone, Copy, PartialEq, Eq)]
pub(crate) struct Barred {
    pub lists_port: bool,
    pub declares_port: bool,
    pub gives_direction: bool,
    pub declares_wire: bool,
    pub declares_instance: bool,
    pub uses_net: bool,
}

/// Whether two mentions of one name, in these roles, declare it twice, where `listed` says whether the name
/// stands in a plain list of ports, and `net` whether it is declared as a net.
fn is_clash(listed: bool, net: bool, earlier: Role, later: Role) -> bool
    ensures { result ≡ clash listed net (seen_role earlier) (seen_role later) }
{
    match (earlier, later) {
        (Role::ListsPort, Role::GivesDirection | Role::DeclaresWire)
        | (Role::DeclaresPort, Role::DeclaresWire)
        | (Role::UsesNet, Role::UsesNet) => false,
        (Role::GivesDirection, Role::DeclaresWire) | (Role::DeclaresWire, Role::GivesDirection) => {
            !listed
        }
        (Role::UsesNet, _) | (_, Role::UsesNet) => !net,
        _ => true,
    }
}

/// Whether a role is barred that was so before, or that clashes with the earlier one.
fn is_barred_after(before: bool, listed: bool, net: bool, earlier: Role, later: Role) -> bool
    ensures { result ≡ (before || clash listed net (seen_role earlier) (seen_role later)) }
{
    before || is_clash(listed, net, earlier, later)
}

impl Barred {
    /// No role.
    pub(crate) fn none() -> Barred
        ensures { result ≡ none_barred }
    {
        Barred {
            lists_port: false,
            declares_port: false,
            gives_direction: false,
            declares_wire: false,
            declares_instance: false,
            uses_net: false,
        }
    }

    /// Whether these are the same roles.
    pub(crate) fn is_same(self, other: Barred) -> bool
        ensures { IsTrue result ↔ (self ≡ other) }
    {
        self == other
    }

    /// Whether this role is barred.
    pub(crate) fn has(self, role: Role) -> bool
        ensures { result ≡ is_barred self (seen_role role) }
    {
        match role {
            Role::ListsPort => self.lists_port,
            Role::DeclaresPort => self.declares_port,
            Role::GivesDirection => self.gives_direction,
            Role::DeclaresWire => self.declares_wire,
            Role::DeclaresInstance => self.declares_instance,
            Role::UsesNet => self.uses_net,
        }
    }

    /// These roles and those that clash with a mention in this one.
    pub(crate) fn after(self, listed: bool, net: bool, earlier: Role) -> Barred
        ensures { (later : Part) → is_barred result later ≡ (is_barred self later || clash listed net (seen_role earlier) later) }
    {
        Barred {
            lists_port: is_barred_after(self.lists_port, listed, net, earlier, Role::ListsPort),
            declares_port: is_barred_after(
                self.declares_port,
                listed,
                net,
                earlier,
                Role::DeclaresPort,
            ),
            gives_direction: is_barred_after(
                self.gives_direction,
                listed,
                net,
                earlier,
                Role::GivesDirection,
            ),
            declares_wire: is_barred_after(
                self.declares_wire,
                listed,
                net,
                earlier,
                Role::DeclaresWire,
            ),
            declares_instance: is_barred_after(
                self.declares_instance,
                listed,
                net,
                earlier,
                Role::DeclaresInstance,
            ),
            uses_net: is_barred_after(self.uses_net, listed, net, earlier, Role::UsesNet),
        }
    }
}
