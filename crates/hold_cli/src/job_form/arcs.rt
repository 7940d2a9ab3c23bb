//! The arcs of a cell type.
ghost use Rattle.std.specs.Prelude.{◌≡◌, IfOk, map};
ghost use Rattle.std.specs.List.{list_all};
ghost use Rattle.toml.specs.View.{view, table_view};
ghost use Rattle.hold_cli.specs.JobFormCells.{arc_of, arc_in, pair_name, leads_between};

use crate::job_form::each::FromValue;
use crate::job_form::key::JobTable;
use crate::job_form::name_set::NameSet;
use crate::job_form::names::name_at;
use crate::job_form::times::span_at;
use hold_base::{Memory, Name};
use hold_plain::CellArc;
use std::alloc::Global;
use toml::{Table, Value};

impl FromValue for CellArc {
    ghost given_by = { arc_of };

    fn from_value(alloc: Global, value: &Value) -> Result<Option<CellArc>, Memory> {
        match value.as_table() {
            Some(table) if JobTable::Arc.has_all_keys(table) => arc_in(alloc, table),
            _ => Ok(None),
        }
    }
}

/// The arc that the keys of a table give.
#[tactic(auto, unfolding(crate::specs::JobFormCells::arc_in))]
fn arc_in(alloc: Global, table: &Table) -> Result<Option<CellArc>, Memory>
    ensures { IfOk result (λ found. found ≡ arc_in (table_view table.now)) }
{
    let Some(from) = name_at(table, "from") else {
        return Ok(None);
    };
    let Some(to) = name_at(table, "to") else {
        return Ok(None);
    };
    let Some(span) = span_at(table, "spans") else {
        return Ok(None);
    };
    Ok(Some(CellArc {
        from: Name::from_bytes(alloc, from)?,
        to: Name::from_bytes(alloc, to)?,
        span,
    }))
}

/// Whether the arc leads from one of these sources to one of these outputs.
fn leads_between(arc: &CellArc, sources: &NameSet, outputs: &NameSet) -> bool
    ensures { result ≡ leads_between sources.now outputs.now arc.now }
{
    sources.has(arc.from.bytes()) && outputs.has(arc.to.bytes())
}

/// Whether each of the arcs does.
pub fn all_lead(arcs: &[CellArc], sources: &NameSet, outputs: &NameSet) -> bool
    ensures { result ≡ list_all (leads_between sources.now outputs.now) arcs.now }
{
    for arc in arcs {
        if !leads_between(arc, sources, outputs) {
            return false;
        }
    }
    true
}

/// The names of an arc's two ends, with a space between them.
fn pair_name(alloc: Global, arc: &CellArc) -> Result<Name, Memory>
    ensures { IfOk result (λ pair. pair ≡ pair_name arc.now) }
{
    let mut text = Vec::from_slice(alloc, arc.from.bytes())?;
    text.push(b' ')?;
    text.extend_from_slice(arc.to.bytes())?;
    Name::from_bytes(alloc, text.as_slice())
}

/// These of all arcs, in order.
pub fn pair_names(alloc: Global, arcs: &[CellArc]) -> Result<Vec<Name>, Memory>
    ensures { IfOk result (λ pairs. pairs.items ≡ map pair_name arcs.now) }
{
    let mut pairs = Vec::new(alloc);
    for arc in arcs {
        pairs.push(pair_name(alloc, arc)?)?;
    }
    Ok(pairs)
}
