//! The table of a report.

ghost use Rattle.std.specs.Prelude.{◌≡◌, ◌++◌, List, ℕ, length, IfOk, OnOk};
ghost use Rattle.hold_graph.specs.Problem.{IsValid};
ghost use Rattle.hold_report.specs.Table.{rows_text, IsTable};

use crate::bare_end::bare_end;
use crate::row::put_row;
use hold_base::{CornerNo, Memory, Name, Side};
use hold_graph::{Counts, Problem};
use hold_job::Job;
use hold_netlist::Netlist;
use hold_roles::Bound;
use hold_timing::{Arrivals, End};
use std::alloc::Global;

/// Appends the two rows of a corner, where these are its worst ends.
fn put_rows(
    out: &mut Vec<u8>,
    netlist: &Netlist,
    corner: &Name,
    early: Option<End>,
    late: Option<End>,
) -> Result<(), Memory>
    ensures { OnOk result (out.new.items ≡ out.old.items ++ rows_text netlist.now corner.now (record { early = early; late = late })) }
{
    put_row(out, netlist, corner, Side::Early, early)?;
    put_row(out, netlist, corner, Side::Late, late)
}

/// The table of a problem without any buffer. Per corner, in the order of the job, it has an early and a late line: the corner's
/// name, the side, the least slack in fs of all checked paths, and the capture where a path with that slack ends, as the netlist
/// says it. Of several such captures it is the least pin. Without a checked path the slack is `none` and the capture `-`.
pub fn table(alloc: Global, bound: &Bound, job: &Job, problem: &Problem) -> Result<Vec<u8>, Memory>
    requires valid { IsValid problem.now }
    requires corners { length job.now.corners ≡ length problem.now.corners }
    ensures table { IfOk result (λ text. IsTable bound.now.netlist job.now.corners problem.now text.items) }
    ensures one { IfOk result (λ text. (other : List ℕ) → IsTable bound.now.netlist job.now.corners problem.now other → other ≡ text.items) }
{
    let counts = Counts::empty(alloc, problem)?;
    let arrivals = Arrivals::make(alloc, problem, &counts)?;
    let mut text = Vec::new(alloc);
    for (at, corner) in job.corners.as_slice().iter().enumerate() {
        let number = CornerNo(at as u8);
        let early = bare_end(problem, &arrivals, number, Side::Early);
        let late = bare_end(problem, &arrivals, number, Side::Late);
        put_rows(&mut text, bound.netlist(), &corner.name, early, late)?;
    }
    Ok(text)
}
