//! The kinds of buffers of a job.
ghost use Rattle.std.specs.Prelude.{◌≡◌, map, option_copied, IfOk};
ghost use Rattle.hold_job.specs.Entries.{buffer_named, buffer, is_buffer, is_one, only, kind_of};
ghost use Rattle.hold_job.specs.inner.Listed.{cells_in};

use crate::fault::JobFault;
use crate::form::{Form, not_its_kind, out_of_range, required};
use crate::keys::test_keys;
use crate::limits;
use crate::listed_type::ListedType;
use crate::number::{Number, spans};
use crate::text::TextRule;
use hold_base::{Memory, Name, Stop};
use hold_netlist::Kind;
use hold_roles::{CellType, Role};
use std::alloc::Global;
use toml::Value;

/// Whether there is one name alone.
fn is_one(names: &[Name]) -> bool
    ensures { result ≡ is_one names.now }
{
    names.len() == 1
}

/// Whether the type is combinational with one input and one output.
fn is_buffer(cell: &CellType) -> bool
    ensures { result ≡ is_buffer cell.now }
{
    cell.role == Role::Comb && is_one(cell.inputs.as_slice()) && is_one(cell.outputs.as_slice())
}

/// The first such type of this name. There are few kinds, so this looks through the types.
fn buffer_named<'a>(types: &'a [ListedType], name: &[u8]) -> Option<&'a CellType>
    ensures { option_copied result ≡ buffer_named (cells_in types.now) name.now }
{
    for listed in types {
        if name == listed.cell.name.bytes() && is_buffer(&listed.cell) {
            return Some(&listed.cell);
        }
    }
    None
}

/// The name of such a type, which gives the type.
#[derive(Drop)]
struct BufferForm<'a> {
    types: &'a [ListedType],
}

fn copy_cell(cell: &CellType) -> Result<CellType, Memory>
    ensures { IfOk result (λ copy. copy ≡ cell.now) }
{
    Ok(cell.clone()?)
}

impl Form for BufferForm<'_> {
    type Given = CellType;

    ghost form = { λ f. buffer (cells_in f.types.now) };

    fn read(&self, alloc: Global, value: &Value) -> Result<CellType, Stop<JobFault>> {
        let Some(text) = value.as_str() else {
            return Err(not_its_kind(alloc));
        };
        match buffer_named(self.types, text.as_bytes()) {
            Some(cell) => Ok(copy_cell(cell)?),
            None => Err(out_of_range(alloc)),
        }
    }
}

/// The name that there is alone, else one without bytes.
fn only(alloc: Global, names: &[Name]) -> Result<Name, Memory>
    ensures { IfOk result (λ name. name ≡ only names.now) }
{
    match names {
        [name] => Ok(name.clone()?),
        _ => Name::from_bytes(alloc, b""),
    }
}

/// A kind of buffer of a job with so many corners and these types.
#[derive(Drop)]
pub struct KindForm<'a> {
    pub corners: usize,
    pub types: &'a [ListedType],
}

impl Form for KindForm<'_> {
    type Given = Kind;

    ghost form = { λ f. kind_of f.corners (cells_in f.types.now) };

    #[tactic(auto, unfolding(crate::specs::Entries::kind_of, crate::specs::Keys::table_of))]
    fn read(&self, alloc: Global, value: &Value) -> Result<Kind, Stop<JobFault>> {
        let Some(table) = value.as_table() else {
            return Err(not_its_kind(alloc));
        };
        test_keys(alloc, table, &["type", "cost", "spans"])?;
        let cell = required(alloc, &BufferForm { types: self.types }, table, "type")?;
        let costs = Number {
            least: 1,
            most: limits::COST,
        };
        let cost = required(alloc, &costs, table, "cost")?;
        let spans = required(alloc, &spans(0, self.corners), table, "spans")?;
        let input = only(alloc, cell.inputs.as_slice())?;
        let output = only(alloc, cell.outputs.as_slice())?;
        Ok(Kind {
            cell: cell.name.clone()?,
            input,
            output,
            cost,
            spans,
        })
    }
}
