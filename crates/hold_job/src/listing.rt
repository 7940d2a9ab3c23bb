//! The lists of a job.
ghost use Rattle.std.specs.Prelude.{◌≡◌, [], length, codes};
ghost use Rattle.toml.specs.View.{table_view};
ghost use Rattle.hold_base.specs.Answers.{Answers};
ghost use Rattle.hold_base.specs.Limits.{types_limit, kinds_limit};
ghost use Rattle.hold_job.specs.Keys.{or_else, if_any};
ghost use Rattle.hold_job.specs.Lists.{every, every_within};
ghost use Rattle.hold_job.specs.Numbers.{earliest, spans};
ghost use Rattle.hold_job.specs.CellTypes.{type_of};
ghost use Rattle.hold_job.specs.Entries.{kind_of, clock_of, keep_of};
ghost use Rattle.hold_job.specs.inner.Listed.{cells_in};
ghost use Rattle.hold_job.specs.inner.Parts.{listing_in};

use crate::cell_types::TypeForm;
use crate::corner::Corner;
use crate::corners::Corners;
use crate::entries::{ClockForm, KeepForm};
use crate::fault::JobFault;
use crate::form::{if_any, or_else, required};
use crate::inst_times::{Clock, Keep};
use crate::kinds::KindForm;
use crate::limits;
use crate::list::{Every, EveryWithin, none};
use crate::listed_type::ListedType;
use crate::number::spans;
use hold_base::{Interval, List, Stop, limits as texts};
use hold_netlist::Kind;
use std::alloc::Global;
use toml::Table;

/// The lists of a job, and the arrival of all clocks that none of them names.
#[derive(Drop)]
pub struct Listing {
    pub corners: List<Corner>,
    pub arrival: Option<List<Interval>>,
    pub types: List<ListedType>,
    pub kinds: List<Kind>,
    pub clocks: List<Clock>,
    pub keeps: List<Keep>,
}

/// The arrival of all clocks, where the job says it.
fn arrival_at(
    alloc: Global,
    corners: &List<Corner>,
    table: &Table,
) -> Result<Option<List<Interval>>, Stop<JobFault>>
    ensures { Answers result (if_any (spans earliest (length corners.now)) (codes "arrival") (table_view table.now)) }
{
    let form = spans(-texts::TIME, corners.as_slice().len());
    if_any(alloc, &form, table, "arrival")
}

/// The types of cells.
fn types_at(
    alloc: Global,
    corners: &List<Corner>,
    table: &Table,
) -> Result<List<ListedType>, Stop<JobFault>>
    ensures { Answers result (or_else [] (every_within 0 types_limit (type_of (length corners.now))) (codes "type") (table_view table.now)) }
{
    let form = EveryWithin {
        least: 0,
        most: texts::TYPES,
        form: TypeForm {
            corners: corners.as_slice().len(),
        },
    };
    or_else(alloc, &form, table, "type", none(alloc))
}

/// The kinds of buffers, which are of these types.
fn kinds_at(
    alloc: Global,
    corners: &List<Corner>,
    types: &List<ListedType>,
    table: &Table,
) -> Result<List<Kind>, Stop<JobFault>>
    ensures { Answers result (or_else [] (every_within 0 kinds_limit (kind_of (length corners.now) (cells_in types.now))) (codes "kind") (table_view table.now)) }
{
    let form = EveryWithin {
        least: 0,
        most: limits::KINDS,
        form: KindForm {
            corners: corners.as_slice().len(),
            types: types.as_slice(),
        },
    };
    or_else(alloc, &form, table, "kind", none(alloc))
}

/// The clock arrivals.
fn clocks_at(
    alloc: Global,
    corners: &List<Corner>,
    table: &Table,
) -> Result<List<Clock>, Stop<JobFault>>
    ensures { Answers result (or_else [] (every (clock_of (length corners.now))) (codes "clock") (table_view table.now)) }
{
    let form = Every {
        form: ClockForm {
            corners: corners.as_slice().len(),
        },
    };
    or_else(alloc, &form, table, "clock", none(alloc))
}

/// The kept pins.
fn keeps_at(alloc: Global, table: &Table) -> Result<List<Keep>, Stop<JobFault>>
    ensures { Answers result (or_else [] (every keep_of) (codes "keep") (table_view table.now)) }
{
    or_else(alloc, &Every { form: KeepForm }, table, "keep", none(alloc))
}

/// What a job's table lists.
#[tactic(auto, unfolding(crate::specs::inner::Parts::listing_in))]
pub fn listing_in(alloc: Global, table: &Table) -> Result<Listing, Stop<JobFault>>
    ensures { Answers result (listing_in (table_view table.now)) }
{
    let corners = required(alloc, &Corners, table, "corner")?;
    let arrival = arrival_at(alloc, &corners, table)?;
    let types = types_at(alloc, &corners, table)?;
    let kinds = kinds_at(alloc, &corners, &types, table)?;
    let clocks = clocks_at(alloc, &corners, table)?;
    let keeps = keeps_at(alloc, table)?;
    Ok(Listing {
        corners,
        arrival,
        types,
        kinds,
        clocks,
        keeps,
    })
}
