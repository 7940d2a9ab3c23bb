//! The files that a job names.
ghost use Rattle.std.specs.Prelude.{◌≡◌, ◌++◌};
ghost use Rattle.toml.specs.View.{table_view};
ghost use Rattle.hold_base.specs.Answers.{Answers};
ghost use Rattle.hold_netlist.specs.Names.{is_among};
ghost use Rattle.hold_job.specs.FileNames.{optional, sdf_names, kept_apart};
ghost use Rattle.hold_job.specs.inner.Parts.{files_in};

use crate::corner::Corner;
use crate::fault::JobFault;
use crate::form::{if_any, required};
use crate::text::TextRule;
use hold_base::{Name, Stop};
use std::alloc::Global;
use toml::Table;

/// The files that a job names, beside those of its corners.
#[derive(Drop)]
pub struct Files {
    pub netlist: Name,
    pub output: Name,
    pub certificate: Name,
    pub plan: Option<Name>,
}

/// The files that a job's table names.
#[tactic(auto, unfolding(crate::specs::inner::Parts::files_in))]
pub fn files_in(alloc: Global, table: &Table) -> Result<Files, Stop<JobFault>>
    ensures { Answers result (files_in (table_view table.now)) }
{
    let netlist = required(alloc, &TextRule::File, table, "netlist")?;
    let output = required(alloc, &TextRule::File, table, "output")?;
    let certificate = required(alloc, &TextRule::File, table, "certificate")?;
    let plan = if_any(alloc, &TextRule::File, table, "plan")?;
    Ok(Files {
        netlist,
        output,
        certificate,
        plan,
    })
}

/// Whether the SDF file of one of the corners, which are few, has the name.
#[tactic(auto, using(crate::proofs::FileLemmas::sdf_name_first, crate::proofs::FileLemmas::sdf_name_next, crate::proofs::FileLemmas::sdf_name_none))]
fn is_sdf_name(name: &[u8], corners: &[Corner]) -> bool
    ensures { result ≡ is_among name.now (sdf_names corners.now) }
{
    for corner in corners {
        if let Some(sdf) = &corner.sdf {
            if name == sdf.bytes() {
                return true;
            }
        }
    }
    false
}

/// Whether the plan or an SDF file has the name.
fn is_plan_or_sdf(name: &[u8], plan: &Option<Name>, corners: &[Corner]) -> bool
    ensures { result ≡ is_among name.now (optional plan.now ++ sdf_names corners.now) }
{
    if let Some(plan) = plan {
        if name == plan.bytes() {
            return true;
        }
    }
    is_sdf_name(name, corners)
}

/// Tests that no file that is written has the name of another file. `own` is that of the job's own file.
pub fn keep_apart(own: &Name, files: &Files, corners: &[Corner]) -> Result<(), Stop<JobFault>>
    ensures { Answers result (kept_apart own.now files.now.netlist files.now.output files.now.certificate files.now.plan corners.now) }
{
    let own = own.bytes();
    let netlist = files.netlist.bytes();
    let output = files.output.bytes();
    let certificate = files.certificate.bytes();
    if output == own
        || output == netlist
        || output == certificate
        || is_plan_or_sdf(output, &files.plan, corners)
    {
        return Err(Stop::Fault(JobFault::SameName(files.output.clone()?)));
    }
    if certificate == own
        || certificate == netlist
        || is_plan_or_sdf(certificate, &files.plan, corners)
    {
        return Err(Stop::Fault(JobFault::SameName(files.certificate.clone()?)));
    }
    Ok(())
}
