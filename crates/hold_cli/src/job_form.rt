//! The job that a text gives: which files to read and to write, and what to check.
ghost use Rattle.std.specs.Prelude.{◌≡◌, IfOk, Ok, Some, None};
ghost use Rattle.toml.specs.View.{table_view};
ghost use Rattle.hold_plain.specs.Limits.{KeepsLimits};
ghost use Rattle.hold_cli.specs.JobForm.{job_of, keeps_files, job_values, timing_of, IsJobText};

mod arcs;
mod cells;
mod checks;
mod clocks;
mod doubles;
mod each;
mod key;
mod name_set;
mod names;
mod seeds;
mod times;
mod value;
mod whole;

use cells::cells_at;
use clocks::clocks_at;
use hold_base::{Memory, Name};
use hold_plain::Timing;
use key::JobTable;
use names::{corner_name_at, file_name_at};
use std::alloc::Global;
use times::{period_at, span_if_any};
use toml::Table;

/// What a job asks for.
#[derive(Clone, Debug, Drop)]
pub struct Job {
    pub netlist: Name,
    pub output: Name,
    pub certificate: Name,
    /// The name of the one corner.
    pub corner: Name,
    pub timing: Timing,
}

/// The job that the text gives, or None exactly where it gives none. `own` is the name of the file that
/// the text stands in.
pub fn read(alloc: Global, text: &[u8], own: &Name) -> Result<Option<Job>, Memory>
    ensures job { (job : _) → result ≡ Ok (Some job) → IsJobText text.now own.now job }
    ensures limits { (job : _) → result ≡ Ok (Some job) → KeepsLimits job.timing }
    ensures none { result ≡ Ok None → (job : _) → IsJobText text.now own.now job → ⊥ }
{
    match toml::de::table_from_slice(alloc, text) {
        Ok(table) => job_of(alloc, &table, own),
        Err(error) if error.is_memory() => Err(Memory),
        Err(_) => Ok(None),
    }
}

/// The job that a document gives, if it gives one.
fn job_of(alloc: Global, table: &Table, own: &Name) -> Result<Option<Job>, Memory>
    ensures { IfOk result (λ job. job ≡ job_of (table_view table.now) own.now) }
{
    if !JobTable::Job.has_all_keys(table) {
        return Ok(None);
    }
    match job_values(alloc, table)? {
        Some(job) if keeps_files(own.bytes(), &job) => Ok(Some(job)),
        _ => Ok(None),
    }
}

/// What the keys give, each by its own rule.
#[tactic(auto, unfolding(crate::specs::JobForm::job_values))]
fn job_values(alloc: Global, table: &Table) -> Result<Option<Job>, Memory>
    ensures { IfOk result (λ job. job ≡ job_values (table_view table.now)) }
{
    let Some(netlist) = file_name_at(table, "netlist") else {
        return Ok(None);
    };
    let Some(output) = file_name_at(table, "output") else {
        return Ok(None);
    };
    let Some(certificate) = file_name_at(table, "certificate") else {
        return Ok(None);
    };
    let Some(corner) = corner_name_at(table) else {
        return Ok(None);
    };
    let Some(timing) = timing_of(alloc, table)? else {
        return Ok(None);
    };
    Ok(Some(Job {
        netlist: Name::from_bytes(alloc, netlist)?,
        output: Name::from_bytes(alloc, output)?,
        certificate: Name::from_bytes(alloc, certificate)?,
        corner: Name::from_bytes(alloc, corner)?,
        timing,
    }))
}

/// What the keys say of time.
#[tactic(auto, unfolding(crate::specs::JobForm::timing_of))]
fn timing_of(alloc: Global, table: &Table) -> Result<Option<Timing>, Memory>
    ensures { IfOk result (λ timing. timing ≡ timing_of (table_view table.now)) }
{
    let Some(period) = period_at(table) else {
        return Ok(None);
    };
    let Some(arrival) = span_if_any(table, "arrival") else {
        return Ok(None);
    };
    let Some(cells) = cells_at(alloc, table)? else {
        return Ok(None);
    };
    let Some(clocks) = clocks_at(alloc, table)? else {
        return Ok(None);
    };
    Ok(Some(Timing {
        period,
        arrival,
        cells,
        clocks,
    }))
}

/// Whether the files that are written differ from those that are read and from each other.
fn keeps_files(own: &[u8], job: &Job) -> bool
    ensures { result ≡ keeps_files own.now job.now }
{
    let netlist = job.netlist.bytes();
    let output = job.output.bytes();
    let certificate = job.certificate.bytes();
    output != own
        && output != netlist
        && output != certificate
        && certificate != own
        && certificate != netlist
}

#[cfg(test)]
mod tests;
