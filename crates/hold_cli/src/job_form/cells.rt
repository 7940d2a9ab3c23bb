//! The cell types of a job.
ghost use Rattle.std.specs.Prelude.{◌≡◌, IfOk};
ghost use Rattle.toml.specs.View.{view, table_view};
ghost use Rattle.hold_cli.specs.JobFormCells.{cell_of, cell_in, cell_as, comb_in, register_in, cells_at, are_cells};

use crate::job_form::doubles::{Named, differ};
use crate::job_form::each::{FromValue, each_at};
use crate::job_form::key::JobTable;
use crate::job_form::names::name_at;
use crate::job_form::value::text_at;
use crate::job_form::whole::is_whole;
use hold_base::{List, Memory, Name, limits};
use hold_plain::{Cell, Role};
use std::alloc::Global;
use toml::{Table, Value};

impl FromValue for Cell {
    ghost given_by = { cell_of };

    fn from_value(alloc: Global, value: &Value) -> Result<Option<Cell>, Memory> {
        match value.as_table() {
            Some(table) => cell_in(alloc, table),
            None => Ok(None),
        }
    }
}

impl Named for Cell {
    ghost name_in = { λ cell. cell.name };

    fn name(&self) -> &[u8] {
        self.name.bytes()
    }
}

/// The cell that a table gives, if the cell is whole.
fn cell_in(alloc: Global, table: &Table) -> Result<Option<Cell>, Memory>
    ensures { IfOk result (λ found. found ≡ cell_in (table_view table.now)) }
{
    let Some(role) = text_at(table, "role") else {
        return Ok(None);
    };
    match cell_as(alloc, role, table)? {
        Some(cell) => {
            if is_whole(alloc, &cell)? {
                Ok(Some(cell))
            } else {
                Ok(None)
            }
        }
        None => Ok(None),
    }
}

/// The cell that a table gives in this role, if its keys are those of the role.
fn cell_as(alloc: Global, role: &[u8], table: &Table) -> Result<Option<Cell>, Memory>
    ensures { IfOk result (λ found. found ≡ cell_as role.now (table_view table.now)) }
{
    if role == b"comb".as_slice() {
        if JobTable::Comb.has_all_keys(table) {
            comb_in(alloc, table)
        } else {
            Ok(None)
        }
    } else if role == b"register".as_slice() {
        if JobTable::Register.has_all_keys(table) {
            register_in(alloc, table)
        } else {
            Ok(None)
        }
    } else {
        Ok(None)
    }
}

/// The combinational cell that the keys of a table give.
#[tactic(auto, unfolding(crate::specs::JobFormCells::comb_in))]
fn comb_in(alloc: Global, table: &Table) -> Result<Option<Cell>, Memory>
    ensures { IfOk result (λ found. found ≡ comb_in (table_view table.now)) }
{
    let Some(name) = name_at(table, "name") else {
        return Ok(None);
    };
    let Some(inputs) = each_at(alloc, table, "inputs")? else {
        return Ok(None);
    };
    let Some(outputs) = each_at(alloc, table, "outputs")? else {
        return Ok(None);
    };
    let Some(arcs) = each_at(alloc, table, "arcs")? else {
        return Ok(None);
    };
    Ok(Some(Cell {
        name: Name::from_bytes(alloc, name)?,
        role: Role::Comb,
        inputs,
        clock: None,
        outputs,
        arcs,
        checks: List::from_vec(Vec::new(alloc)),
    }))
}

/// The register that the keys of a table give.
#[tactic(auto, unfolding(crate::specs::JobFormCells::register_in))]
fn register_in(alloc: Global, table: &Table) -> Result<Option<Cell>, Memory>
    ensures { IfOk result (λ found. found ≡ register_in (table_view table.now)) }
{
    let Some(name) = name_at(table, "name") else {
        return Ok(None);
    };
    let Some(clock) = name_at(table, "clock") else {
        return Ok(None);
    };
    let Some(inputs) = each_at(alloc, table, "data")? else {
        return Ok(None);
    };
    let Some(outputs) = each_at(alloc, table, "outputs")? else {
        return Ok(None);
    };
    let Some(arcs) = each_at(alloc, table, "arcs")? else {
        return Ok(None);
    };
    let Some(checks) = each_at(alloc, table, "checks")? else {
        return Ok(None);
    };
    Ok(Some(Cell {
        name: Name::from_bytes(alloc, name)?,
        role: Role::Register,
        inputs,
        clock: Some(Name::from_bytes(alloc, clock)?),
        outputs,
        arcs,
        checks,
    }))
}

/// Whether a job may list these cell types.
fn are_cells(alloc: Global, cells: &[Cell]) -> Result<bool, Memory>
    ensures { IfOk result (λ are. are ≡ are_cells cells.now) }
{
    if cells.len() <= limits::TYPES {
        differ::<Cell>(alloc, cells)
    } else {
        Ok(false)
    }
}

/// The cell types that a job lists, if all have their form and none is listed twice.
pub fn cells_at(alloc: Global, table: &Table) -> Result<Option<List<Cell>>, Memory>
    ensures { IfOk result (λ found. found ≡ cells_at (table_view table.now)) }
{
    match each_at(alloc, table, "type")? {
        Some(cells) => {
            if are_cells(alloc, cells.as_slice())? {
                Ok(Some(cells))
            } else {
                Ok(None)
            }
        }
        None => Ok(None),
    }
}
