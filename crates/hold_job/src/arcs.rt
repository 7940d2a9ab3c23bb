//! The arcs and checks of a type.
ghost use Rattle.std.specs.Prelude.{◌≡◌, [], codes};
ghost use Rattle.toml.specs.View.{table_view};
ghost use Rattle.hold_base.specs.Answers.{Answers};
ghost use Rattle.hold_job.specs.Keys.{or_else};
ghost use Rattle.hold_job.specs.Lists.{every};
ghost use Rattle.hold_job.specs.CellTypes.{arc_of, check_of};

use crate::cell_times::{TypeArc, TypeCheck};
use crate::fault::JobFault;
use crate::form::{Form, not_its_kind, or_else, required};
use crate::keys::test_keys;
use crate::list::{Every, none};
use crate::name_set::{NameSet, seed_of, set_of};
use crate::number::{spans, values};
use crate::text::TextRule;
use hold_base::{List, Name, Stop, limits};
use std::alloc::Global;
use toml::{Table, Value};

/// An arc of the type of this name, from one of the sources to one of the outputs.
#[derive(Drop)]
struct ArcForm<'a> {
    corners: usize,
    kind: &'a Name,
    sources: &'a NameSet,
    outputs: &'a NameSet,
}

impl Form for ArcForm<'_> {
    type Given = TypeArc;

    ghost form = { λ f. arc_of f.corners f.kind.now f.sources.now f.outputs.now };

    #[tactic(auto, unfolding(crate::specs::CellTypes::arc_of, crate::specs::Keys::table_of))]
    fn read(&self, alloc: Global, value: &Value) -> Result<TypeArc, Stop<JobFault>> {
        let Some(table) = value.as_table() else {
            return Err(not_its_kind(alloc));
        };
        test_keys(alloc, table, &["from", "to", "spans"])?;
        let from = required(alloc, &TextRule::OneOf(self.sources), table, "from")?;
        let to = required(alloc, &TextRule::OneOf(self.outputs), table, "to")?;
        let form = spans(-limits::TIME, self.corners);
        let spans = required(alloc, &form, table, "spans")?;
        let kind = self.kind.clone()?;
        Ok(TypeArc {
            kind,
            from,
            to,
            spans,
        })
    }
}

/// A check of the type of this name, at one of these data pins.
#[derive(Drop)]
struct CheckForm<'a> {
    corners: usize,
    kind: &'a Name,
    pins: &'a NameSet,
}

impl Form for CheckForm<'_> {
    type Given = TypeCheck;

    ghost form = { λ f. check_of f.corners f.kind.now f.pins.now };

    #[tactic(auto, unfolding(crate::specs::CellTypes::check_of, crate::specs::Keys::table_of))]
    fn read(&self, alloc: Global, value: &Value) -> Result<TypeCheck, Stop<JobFault>> {
        let Some(table) = value.as_table() else {
            return Err(not_its_kind(alloc));
        };
        test_keys(alloc, table, &["pin", "setup", "hold"])?;
        let pin = required(alloc, &TextRule::OneOf(self.pins), table, "pin")?;
        let setup = required(alloc, &values(self.corners), table, "setup")?;
        let hold = required(alloc, &values(self.corners), table, "hold")?;
        let kind = self.kind.clone()?;
        Ok(TypeCheck {
            kind,
            pin,
            setup,
            hold,
        })
    }
}

/// The arcs of the type of this name, from its sources to its outputs.
pub fn arcs_at(
    alloc: Global,
    corners: usize,
    kind: &Name,
    sources: &[Name],
    outputs: &[Name],
    table: &Table,
) -> Result<List<TypeArc>, Stop<JobFault>>
    ensures { Answers result (or_else [] (every (arc_of corners kind.now sources.now outputs.now)) (codes "arcs") (table_view table.now)) }
{
    let sources = set_of(alloc, seed_of(sources), sources)?;
    let outputs = set_of(alloc, seed_of(outputs), outputs)?;
    let form = ArcForm {
        corners,
        kind,
        sources: &sources,
        outputs: &outputs,
    };
    or_else(alloc, &Every { form }, table, "arcs", none(alloc))
}

/// The checks of the type of this name at its data pins.
pub fn checks_at(
    alloc: Global,
    corners: usize,
    kind: &Name,
    pins: &[Name],
    table: &Table,
) -> Result<List<TypeCheck>, Stop<JobFault>>
    ensures { Answers result (or_else [] (every (check_of corners kind.now pins.now)) (codes "checks") (table_view table.now)) }
{
    let pins = set_of(alloc, seed_of(pins), pins)?;
    let form = CheckForm {
        corners,
        kind,
        pins: &pins,
    };
    or_else(alloc, &Every { form }, table, "checks", none(alloc))
}
