//! The job that a text gives.
ghost use Rattle.std.specs.Prelude.{◌≡◌, Result, Ok, Err, None, map, flat_map, IfOk};
ghost use Rattle.toml.specs.View.{table_view};
ghost use Rattle.hold_base.specs.Answers.{Answers, IfFault};
ghost use Rattle.hold_job.specs.declared.job.Job.{Job};
ghost use Rattle.hold_job.specs.declared.fault.JobFault.{JobFault};
ghost use Rattle.hold_job.specs.Doubles.{no_doubles};
ghost use Rattle.hold_job.specs.Job.{job_keys, Gives};
ghost use Rattle.hold_job.specs.Keys.{known};
ghost use Rattle.hold_job.specs.Rules.{KeepsRules};
ghost use Rattle.hold_roles.specs.Types.{first_double};
ghost use Rattle.hold_job.specs.inner.Parts.{job_by_parts, job_from};

use crate::cell_times::{TypeArc, TypeCheck};
use crate::doubles::test_doubles;
use crate::fault::JobFault;
use crate::files::{Files, files_in, keep_apart};
use crate::job::Job;
use crate::keys::test_keys;
use crate::listed_type::ListedType;
use crate::listing::{Listing, listing_in};
use crate::path::told_at_top;
use crate::settings::{Settings, settings_in};
use hold_base::{List, Memory, Name, Stop};
use hold_roles::{CellType, Library};
use std::alloc::Global;
use toml::Table;

/// The types of a job, apart from their arcs and checks.
#[derive(Drop)]
struct Types {
    cells: Vec<CellType>,
    arcs: Vec<TypeArc>,
    checks: Vec<TypeCheck>,
}

/// The types, their arcs and their checks, each in one list.
fn types_apart(alloc: Global, types: List<ListedType>) -> Result<Types, Memory>
    ensures cells { IfOk result (λ apart. apart.cells.items ≡ map (λ t. t.cell) types) }
    ensures arcs { IfOk result (λ apart. apart.arcs.items ≡ flat_map (λ t. t.arcs) types) }
    ensures checks { IfOk result (λ apart. apart.checks.items ≡ flat_map (λ t. t.checks) types) }
{
    let mut cells = Vec::new(alloc);
    let mut arcs = Vec::new(alloc);
    let mut checks = Vec::new(alloc);
    for listed in types.into_vec() {
        let ListedType {
            cell,
            arcs: its_arcs,
            checks: its_checks,
        } = listed;
        cells.push(cell)?;
        arcs.append(&mut its_arcs.into_vec())?;
        checks.append(&mut its_checks.into_vec())?;
    }
    Ok(Types {
        cells,
        arcs,
        checks,
    })
}

/// A library of types, no two of which share a name.
fn library_of(alloc: Global, cells: Vec<CellType>) -> Result<Library, Memory>
    requires { first_double cells.items ≡ None }
    ensures { IfOk result (λ library. library ≡ cells.items) }
{
    match Library::make(alloc, cells) {
        Ok(library) => Ok(library),
        Err(Stop::Memory) => Err(Memory),
        Err(Stop::Fault(_)) => unreachable!(),
    }
}

/// The job of these parts, in whose lists nothing stands a second time.
fn job_from(
    alloc: Global,
    files: Files,
    settings: Settings,
    listing: Listing,
) -> Result<Job, Memory>
    requires { no_doubles listing.types listing.kinds listing.clocks ≡ Ok tt }
    ensures { IfOk result (λ job. job ≡ job_from files settings listing) }
{
    let Types {
        cells,
        arcs,
        checks,
    } = types_apart(alloc, listing.types)?;
    Ok(Job {
        netlist: files.netlist,
        output: files.output,
        certificate: files.certificate,
        plan: files.plan,
        period: settings.period,
        max_chain: settings.max_chain,
        nodes: settings.nodes,
        searchers: settings.searchers,
        order: settings.order,
        corners: listing.corners,
        library: library_of(alloc, cells)?,
        arcs: List::from_vec(arcs),
        checks: List::from_vec(checks),
        kinds: listing.kinds,
        arrival: listing.arrival,
        clocks: listing.clocks,
        keeps: listing.keeps,
    })
}

/// Tests that a job has no other keys than those of a job.
fn test_job_keys(alloc: Global, table: &Table) -> Result<(), Stop<JobFault>>
    ensures { Answers result (known job_keys (table_view table.now)) }
{
    test_keys(
        alloc,
        table,
        &[
            "netlist",
            "output",
            "certificate",
            "plan",
            "period",
            "max_chain",
            "nodes",
            "searchers",
            "order",
            "corner",
            "arrival",
            "type",
            "kind",
            "clock",
            "keep",
        ],
    )
}

/// The job that a table gives, part by part.
#[tactic(auto, unfolding(crate::specs::inner::Parts::job_by_parts))]
fn job_by_parts(alloc: Global, table: &Table, own: &Name) -> Result<Job, Stop<JobFault>>
    ensures { Answers result (job_by_parts own.now (table_view table.now)) }
{
    test_job_keys(alloc, table)?;
    let files = files_in(alloc, table)?;
    let settings = settings_in(alloc, table)?;
    let listing = listing_in(alloc, table)?;
    let types = listing.types.as_slice();
    test_doubles(
        alloc,
        types,
        listing.kinds.as_slice(),
        listing.clocks.as_slice(),
    )?;
    keep_apart(own, &files, listing.corners.as_slice())?;
    Ok(job_from(alloc, files, settings, listing)?)
}

/// The job that a text gives, which keeps the rules of jobs. `own` is the name of the file that the text stands in. The text is
/// refused where it isn't TOML, else at the first key or value at fault, else for the first entry that stands twice, else where a
/// file that is written has the name of another file.
pub fn read(alloc: Global, text: &[u8], own: &Name) -> Result<Job, Stop<JobFault>>
    ensures job { IfOk result (λ job. Gives own.now text.now (Ok job)) }
    ensures fault { IfFault result (λ fault. Gives own.now text.now (Err fault)) }
    ensures rules { IfOk result (λ job. KeepsRules job) }
    ensures given { (outcome : Result Job JobFault) → Gives own.now text.now outcome → Answers result outcome }
{
    match toml::de::table_from_slice(alloc, text) {
        Ok(table) => match job_by_parts(alloc, &table, own) {
            Ok(job) => Ok(job),
            Err(stop) => Err(told_at_top(alloc, stop)),
        },
        Err(error) if error.is_memory() => Err(Stop::Memory),
        Err(_) => Err(Stop::Fault(JobFault::Toml)),
    }
}
