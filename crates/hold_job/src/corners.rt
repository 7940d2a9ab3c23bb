//! The corners of a job.
ghost use Rattle.std.specs.Prelude.{◌≡◌, []};
ghost use Rattle.toml.specs.View.{view, array_view};
ghost use Rattle.hold_base.specs.Answers.{Answers};
ghost use Rattle.hold_job.specs.Lists.{in_turn};
ghost use Rattle.hold_job.specs.Entries.{corner_of, corners_of};

use crate::corner::Corner;
use crate::fault::JobFault;
use crate::form::{Form, if_any, not_its_kind, out_of_range, required};
use crate::keys::test_keys;
use crate::limits;
use crate::path::told_from_item;
use crate::text::TextRule;
use hold_base::{List, Stop};
use std::alloc::Global;
use toml::Value;
use toml::value::Array;

/// A corner behind those so far.
#[tactic(auto, unfolding(crate::specs::Entries::corner_of, crate::specs::Keys::table_of))]
fn corner_of(alloc: Global, so_far: &[Corner], value: &Value) -> Result<Corner, Stop<JobFault>>
    ensures { Answers result (corner_of so_far.now (view value.now)) }
{
    let Some(table) = value.as_table() else {
        return Err(not_its_kind(alloc));
    };
    test_keys(alloc, table, &["name", "sdf"])?;
    let name = required(alloc, &TextRule::NewCorner(so_far), table, "name")?;
    let sdf = if_any(alloc, &TextRule::File, table, "sdf")?;
    Ok(Corner { name, sdf })
}

/// The corners of a list.
fn corners_in(alloc: Global, items: &Array) -> Result<List<Corner>, Stop<JobFault>>
    ensures { Answers result (in_turn corner_of [] (array_view items.now)) }
{
    let mut so_far = Vec::new(alloc);
    for (place, item) in items.iter().enumerate() {
        match corner_of(alloc, &so_far, item) {
            Ok(corner) => so_far.push(corner)?,
            Err(stop) => return Err(told_from_item(alloc, place, stop)),
        }
    }
    Ok(List::from_vec(so_far))
}

/// The list of all corners.
#[derive(Drop)]
pub struct Corners;

impl Form for Corners {
    type Given = List<Corner>;

    ghost form = { λ f. corners_of };

    #[tactic(auto, using(crate::proofs::Items::item_count_view))]
    fn read(&self, alloc: Global, value: &Value) -> Result<List<Corner>, Stop<JobFault>> {
        let Some(items) = value.as_array() else {
            return Err(not_its_kind(alloc));
        };
        if items.is_empty() || limits::CORNERS < items.len() {
            return Err(out_of_range(alloc));
        }
        corners_in(alloc, items)
    }
}
