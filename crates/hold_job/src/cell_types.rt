//! The types of cells of a job.
ghost use Rattle.std.specs.Prelude.{◌≡◌, [], codes};
ghost use Rattle.toml.specs.View.{table_view};
ghost use Rattle.hold_base.specs.Answers.{Answers};
ghost use Rattle.hold_job.specs.CellTypes.{role, role_named, role_in, type_keys, pin_names, type_of, comb_in, register_in, opaque_in};
ghost use Rattle.hold_job.specs.Keys.{known, required, or_else};
ghost use Rattle.hold_job.specs.Names.{new_name};

use crate::arcs::{arcs_at, checks_at};
use crate::fault::JobFault;
use crate::form::{Form, not_its_kind, or_else, out_of_range, required, value_at};
use crate::keys::test_keys;
use crate::list::none;
use crate::listed_type::ListedType;
use crate::name_set::{NameSet, seed_of};
use crate::pins::{Pins, joined};
use crate::text::TextRule;
use hold_base::{List, Name, Stop};
use hold_roles::{CellType, Role};
use std::alloc::Global;
use std::slice;
use toml::{Table, Value};

/// The role that a text names.
fn role_named(text: &str) -> Option<Role>
    ensures { result ≡ role_named text.now }
{
    if text == "comb" {
        Some(Role::Comb)
    } else if text == "register" {
        Some(Role::Register)
    } else if text == "opaque" {
        Some(Role::Opaque)
    } else {
        None
    }
}

/// The name of a role.
#[derive(Drop)]
struct RoleForm;

impl Form for RoleForm {
    type Given = Role;

    ghost form = { λ f. role };

    fn read(&self, alloc: Global, value: &Value) -> Result<Role, Stop<JobFault>> {
        let Some(text) = value.as_str() else {
            return Err(not_its_kind(alloc));
        };
        match role_named(text) {
            Some(role) => Ok(role),
            None => Err(out_of_range(alloc)),
        }
    }
}

/// The role of a type's table, where it has one.
fn role_in(table: &Table) -> Option<Role>
    ensures { result ≡ role_in (table_view table.now) }
{
    match value_at(table, "role") {
        Some(value) => match value.as_str() {
            Some(text) => role_named(text),
            None => None,
        },
        None => None,
    }
}

/// Tests that a type's table has no other keys than those of its role, or of any role where it has none.
fn test_type_keys(alloc: Global, table: &Table) -> Result<(), Stop<JobFault>>
    ensures { Answers result (known (type_keys (role_in (table_view table.now))) (table_view table.now)) }
{
    match role_in(table) {
        Some(Role::Comb) => test_keys(alloc, table, &["name", "role", "inputs", "outputs", "arcs"]),
        Some(Role::Register) => test_keys(
            alloc,
            table,
            &[
                "name", "role", "clock", "data", "quiet", "outputs", "arcs", "checks",
            ],
        ),
        Some(Role::Opaque) => test_keys(alloc, table, &["name", "role", "inputs", "outputs"]),
        None => test_keys(
            alloc,
            table,
            &[
                "name", "role", "inputs", "clock", "data", "quiet", "outputs", "arcs", "checks",
            ],
        ),
    }
}

/// The pins at a key, of which none is taken.
fn pins_at(
    alloc: Global,
    taken: &[Name],
    table: &Table,
    key: &str,
) -> Result<List<Name>, Stop<JobFault>>
    ensures { Answers result (or_else [] (pin_names taken.now) key.now (table_view table.now)) }
{
    or_else(alloc, &Pins { taken }, table, key, none(alloc))
}

/// What a table lists of a combinational type of this name.
#[tactic(auto, unfolding(crate::specs::CellTypes::comb_in))]
fn comb_in(
    alloc: Global,
    corners: usize,
    name: Name,
    table: &Table,
) -> Result<ListedType, Stop<JobFault>>
    ensures { Answers result (comb_in corners name (table_view table.now)) }
{
    let inputs = pins_at(alloc, &[], table, "inputs")?;
    let outputs = pins_at(alloc, inputs.as_slice(), table, "outputs")?;
    let arcs = arcs_at(
        alloc,
        corners,
        &name,
        inputs.as_slice(),
        outputs.as_slice(),
        table,
    )?;
    Ok(ListedType {
        cell: CellType {
            name,
            role: Role::Comb,
            inputs,
            clock: None,
            quiet: none(alloc),
            outputs,
        },
        arcs,
        checks: none(alloc),
    })
}

/// A register's clock pin.
fn clock_at(alloc: Global, table: &Table) -> Result<Name, Stop<JobFault>>
    ensures { Answers result (required (new_name []) (codes "clock") (table_view table.now)) }
{
    let taken = NameSet::new(alloc, seed_of(&[]));
    required(alloc, &TextRule::NewName(&taken), table, "clock")
}

/// What a table lists of a register's type of this name.
#[tactic(auto, unfolding(crate::specs::CellTypes::register_in))]
fn register_in(
    alloc: Global,
    corners: usize,
    name: Name,
    table: &Table,
) -> Result<ListedType, Stop<JobFault>>
    ensures { Answers result (register_in corners name (table_view table.now)) }
{
    let clock = clock_at(alloc, table)?;
    let inputs = pins_at(alloc, slice::from_ref(&clock), table, "data")?;
    let taken = joined(alloc, &clock, inputs.as_slice(), &[])?;
    let quiet = pins_at(alloc, &taken, table, "quiet")?;
    let taken = joined(alloc, &clock, inputs.as_slice(), quiet.as_slice())?;
    let outputs = pins_at(alloc, &taken, table, "outputs")?;
    let sources = slice::from_ref(&clock);
    let arcs = arcs_at(alloc, corners, &name, sources, outputs.as_slice(), table)?;
    let checks = checks_at(alloc, corners, &name, inputs.as_slice(), table)?;
    Ok(ListedType {
        cell: CellType {
            name,
            role: Role::Register,
            inputs,
            clock: Some(clock),
            quiet,
            outputs,
        },
        arcs,
        checks,
    })
}

/// What a table lists of an opaque type of this name.
#[tactic(auto, unfolding(crate::specs::CellTypes::opaque_in))]
fn opaque_in(alloc: Global, name: Name, table: &Table) -> Result<ListedType, Stop<JobFault>>
    ensures { Answers result (opaque_in name (table_view table.now)) }
{
    let inputs = pins_at(alloc, &[], table, "inputs")?;
    let outputs = pins_at(alloc, inputs.as_slice(), table, "outputs")?;
    Ok(ListedType {
        cell: CellType {
            name,
            role: Role::Opaque,
            inputs,
            clock: None,
            quiet: none(alloc),
            outputs,
        },
        arcs: none(alloc),
        checks: none(alloc),
    })
}

/// What a job with so many corners lists of a type.
#[derive(Drop)]
pub struct TypeForm {
    pub corners: usize,
}

impl Form for TypeForm {
    type Given = ListedType;

    ghost form = { λ f. type_of f.corners };

    #[tactic(auto, unfolding(crate::specs::CellTypes::type_of))]
    fn read(&self, alloc: Global, value: &Value) -> Result<ListedType, Stop<JobFault>> {
        let Some(table) = value.as_table() else {
            return Err(not_its_kind(alloc));
        };
        test_type_keys(alloc, table)?;
        let name = required(alloc, &TextRule::Name, table, "name")?;
        match required(alloc, &RoleForm, table, "role")? {
            Role::Comb => comb_in(alloc, self.corners, name, table),
            Role::Register => register_in(alloc, self.corners, name, table),
            Role::Opaque => opaque_in(alloc, name, table),
        }
    }
}
