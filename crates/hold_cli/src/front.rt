ghost use Rattle.std.specs.Prelude.{◌≡◌, ◌⊎◌, ℕ, List, Some, IfOk, IfSome, IfNone, IsErrOf};
ghost use Rattle.hold_files.specs.Told.{Rose, OnlyReads};
ghost use Rattle.hold_cli.specs.declared.outcome.Fault.{Fault as Refusal};
ghost use Rattle.hold_cli.specs.declared.job_form.Job.{Job as JobData};
ghost use Rattle.hold_cli.specs.JobForm.{IsJobText};
ghost use Rattle.hold_graph.specs.Graph.{EndsOnce};
ghost use Rattle.hold_graph.specs.Problem.{IsValid};
ghost use Rattle.hold_plain.specs.Limits.{KeepsLimits};
ghost use Rattle.hold_plain.specs.Problem.{problem_of};
ghost use Rattle.hold_cli.specs.Front.{IsBuilt, IsJobAt, IsNetlistAt, IsJobRead, IsNetlistRead, BlamesNetlist, BlamesJob, Blames, ComesTo, ComesToRead, IsTold, RefusesJob, RefusesNetlist, Refuses, IsFront};
ghost use Rattle.hold_cli.specs.inner.Front.{RefusesText};
ghost use Rattle.hold_vparse.specs.Reads.{Reads};

use crate::input::{Stopped, read_input};
use crate::job_form::{self, Job};
use crate::outcome::Fault;
use crate::scalar::is_scalar;
use hold_base::{Memory, Name, Stop};
use hold_files::Files;
use hold_graph::Problem;
use hold_netlist::Netlist;
use hold_plain::problem;
use hold_vparse::read;
use std::alloc::Global;

/// A netlist that is served for its job.
#[derive(Drop)]
pub struct Built {
    pub netlist: Netlist,
    /// Its timing problem.
    pub problem: Problem,
}

/// A job and its netlist, of which nothing is refused.
#[derive(Drop)]
pub struct Front {
    pub job: Job,
    pub built: Built,
}

/// Reads the job and then the netlist that it names, and stops at the first refusal.
pub fn read_front<F: Files>(alloc: Global, files: &mut F, name: &Name) -> Result<Front, Stopped>
    ensures job { IfOk result (λ front. IsJobRead (F.told files.old) name.now front.job) }
    ensures netlist { IfOk result (λ front. IsNetlistRead (F.told files.old) front.job front.built.netlist) }
    ensures built { IfOk result (λ front. IsBuilt front.job front.built.netlist) }
    ensures problem { IfOk result (λ front. front.built.problem ≡ problem_of front.job.timing front.built.netlist) }
    ensures valid { IfOk result (λ front. IsValid front.built.problem) }
    ensures once { IfOk result (λ front. EndsOnce front.built.problem.graph.arcs) }
    ensures found { IfOk result (λ front. IsTold (F.told files.old) name.now
        → IsFront (F.told files.old) name.now front.job front.built.netlist) }
    ensures refused { (fault : Refusal) → IsErrOf result (Stopped.Refused fault)
        → IsTold (F.told files.old) name.now → Refuses (F.told files.old) name.now fault }
    ensures first { (fault : Refusal) (text : List ℕ) → IsErrOf result (Stopped.Refused fault)
        → (F.told files.old).content name.now ≡ Some text
        → RefusesJob (F.told files.old) name.now fault
        ⊎ ((job : JobData) × IsJobAt (F.told files.old) name.now job
        × BlamesNetlist (F.told files.old) job fault) }
    ensures blamed { (fault : Refusal) → IsErrOf result (Stopped.Refused fault)
        → Blames (F.told files.old) name.now fault }
    ensures read { (file : List ℕ) → IsErrOf result (Stopped.Read file)
        → Rose ((F.told files.old).read_faults file) ((F.told files.new).read_faults file) }
    ensures named { (file : List ℕ) → IsErrOf result (Stopped.Read file)
        → ComesToRead (F.told files.old) name.now file }
    ensures comes { (file text : List ℕ) → IsErrOf result (Stopped.Read file)
        → (F.told files.old).content name.now ≡ Some text
        → ComesTo (F.told files.old) name.now file }
    ensures stays { OnlyReads (F.told files.old) (F.told files.new) }
{
    let job = read_job(alloc, files, name)?;
    match read_netlist(alloc, files, &job) {
        Ok(built) => Ok(Front { job, built }),
        Err(stopped) => Err(stopped),
    }
}

fn read_job<F: Files>(alloc: Global, files: &mut F, name: &Name) -> Result<Job, Stopped>
    ensures job { IfOk result (λ job. IsJobRead (F.told files.old) name.now job) }
    ensures limits { IfOk result (λ job. KeepsLimits job.timing) }
    ensures at { IfOk result (λ job. (text : List ℕ)
        → (F.told files.old).content name.now ≡ Some text
        → IsJobAt (F.told files.old) name.now job) }
    ensures refused { (fault : Refusal) → IsErrOf result (Stopped.Refused fault) → (text : List ℕ)
        → (F.told files.old).content name.now ≡ Some text
        → RefusesJob (F.told files.old) name.now fault }
    ensures blamed { (fault : Refusal) → IsErrOf result (Stopped.Refused fault) → BlamesJob name.now fault }
    ensures read { (file : List ℕ) → IsErrOf result (Stopped.Read file) → file ≡ name.now }
    ensures cause { (file : List ℕ) → IsErrOf result (Stopped.Read file)
        → Rose ((F.told files.old).read_faults name.now) ((F.told files.new).read_faults name.now) }
    ensures stays { OnlyReads (F.told files.old) (F.told files.new) }
{
    let text = read_input(alloc, files, name)?;
    let found = job_form::read(alloc, text.as_slice(), name)?;
    match found {
        Some(job) => Ok(job),
        None => {
            let stopped = not_built(name)?;
            Err(stopped)
        }
    }
}

fn read_netlist<F: Files>(alloc: Global, files: &mut F, job: &Job) -> Result<Built, Stopped>
    requires limits { KeepsLimits job.now.timing }
    ensures netlist { IfOk result (λ built. IsNetlistRead (F.told files.old) job.now built.netlist) }
    ensures built { IfOk result (λ built. IsBuilt job.now built.netlist) }
    ensures problem { IfOk result (λ built. built.problem ≡ problem_of job.now.timing built.netlist) }
    ensures valid { IfOk result (λ built. IsValid built.problem) }
    ensures once { IfOk result (λ built. EndsOnce built.problem.graph.arcs) }
    ensures found { IfOk result (λ built. (text : List ℕ)
        → (F.told files.old).content job.now.netlist ≡ Some text
        → IsNetlistAt (F.told files.old) job.now built.netlist) }
    ensures blamed { (fault : Refusal) → IsErrOf result (Stopped.Refused fault)
        → BlamesNetlist (F.told files.old) job.now fault }
    ensures refused { (fault : Refusal) → IsErrOf result (Stopped.Refused fault) → (text : List ℕ)
        → (F.told files.old).content job.now.netlist ≡ Some text
        → RefusesNetlist (F.told files.old) job.now fault }
    ensures read { (file : List ℕ) → IsErrOf result (Stopped.Read file) → file ≡ job.now.netlist }
    ensures cause { (file : List ℕ) → IsErrOf result (Stopped.Read file)
        → Rose ((F.told files.old).read_faults job.now.netlist) ((F.told files.new).read_faults job.now.netlist) }
    ensures stays { OnlyReads (F.told files.old) (F.told files.new) }
{
    let text = read_input(alloc, files, &job.netlist)?;
    match build(alloc, job, text.as_slice()) {
        Ok(built) => Ok(built),
        Err(stopped) => Err(stopped),
    }
}

/// The netlist that this text declares, with its timing problem; a refusal where the text isn't read, or its
/// netlist isn't served for the job.
fn build(alloc: Global, job: &Job, text: &[u8]) -> Result<Built, Stopped>
    requires limits { KeepsLimits job.now.timing }
    ensures reads { IfOk result (λ built. Reads text.now built.netlist) }
    ensures built { IfOk result (λ built. IsBuilt job.now built.netlist) }
    ensures problem { IfOk result (λ built. built.problem ≡ problem_of job.now.timing built.netlist) }
    ensures valid { IfOk result (λ built. IsValid built.problem) }
    ensures once { IfOk result (λ built. EndsOnce built.problem.graph.arcs) }
    ensures refused { (fault : Refusal) → IsErrOf result (Stopped.Refused fault)
        → RefusesText job.now text.now fault }
    ensures unread { (file : List ℕ) → IsErrOf result (Stopped.Read file) → ⊥ }
{
    let netlist = match read(alloc, text) {
        Ok(netlist) => netlist,
        Err(Stop::Memory) => return Err(Stopped::Memory),
        Err(Stop::Fault(fault)) => return Err(Stopped::Refused(Fault::Verilog(fault))),
    };
    match plain_problem(alloc, job, &netlist) {
        Ok(Some(problem)) => Ok(Built { netlist, problem }),
        Ok(None) => match not_built(&job.netlist) {
            Ok(stopped) => Err(stopped),
            Err(Memory) => Err(Stopped::Memory),
        },
        Err(Memory) => Err(Stopped::Memory),
    }
}

/// The timing problem of a netlist, None exactly where the netlist isn't served for the job.
fn plain_problem(alloc: Global, job: &Job, netlist: &Netlist) -> Result<Option<Problem>, Memory>
    requires limits { KeepsLimits job.now.timing }
    ensures built { IfOk result (λ found. IfSome found (λ problem. IsBuilt job.now netlist.now)) }
    ensures is { IfOk result (λ found. IfSome found (λ problem. problem ≡ problem_of job.now.timing netlist.now)) }
    ensures valid { IfOk result (λ found. IfSome found (λ problem. IsValid problem)) }
    ensures once { IfOk result (λ found. IfSome found (λ problem. EndsOnce problem.graph.arcs)) }
    ensures none { IfOk result (λ found. IfNone found (IsBuilt job.now netlist.now → ⊥)) }
{
    netlist.know_valid();
    if !is_scalar(netlist) {
        return Ok(None);
    }
    problem(alloc, &job.timing, netlist)
}

/// The refusal of the file of this name, whose form isn't served.
fn not_built(name: &Name) -> Result<Stopped, Memory>
    ensures { IfOk result (λ stopped. stopped ≡ Stopped.Refused (Fault.NotBuilt name.now)) }
{
    Ok(Stopped::Refused(Fault::NotBuilt(name.clone()?)))
}
