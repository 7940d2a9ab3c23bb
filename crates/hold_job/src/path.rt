//! Paths of faults. Within a value each step of a path has a point in front.
ghost use Rattle.std.specs.Prelude.{◌≡◌, ◌++◌, ◌∷◌, drop, IfOk};
ghost use Rattle.std.specs.Fmt.{decimal};
ghost use Rattle.hold_job.specs.Outcome.{below};
ghost use Rattle.hold_job.specs.Job.{top};
ghost use Rattle.hold_job.specs.inner.Told.{IsToldFrom, IsToldAtTop};

use crate::fault::JobFault;
use hold_base::{Memory, Name, Stop};
use itoa::Buffer;
use std::alloc::Global;

/// A path with one more step in front.
fn led_to(alloc: Global, step: &[u8], path: &Name) -> Result<Name, Memory>
    ensures { IfOk result (λ name. name ≡ 46 ∷ step.now ++ path.now) }
{
    let mut text = Vec::new(alloc);
    text.push(b'.')?;
    text.extend_from_slice(step)?;
    text.extend_from_slice(path.bytes())?;
    Name::from_bytes(alloc, &text)
}

/// The fault as it is told from the table or list above, where `step` leads to the value.
fn below(alloc: Global, step: &[u8], fault: JobFault) -> Result<JobFault, Memory>
    ensures { IfOk result (λ told. told ≡ below step.now fault) }
{
    match fault {
        JobFault::Key(path) => Ok(JobFault::Key(led_to(alloc, step, &path)?)),
        JobFault::Range(path) => Ok(JobFault::Range(led_to(alloc, step, &path)?)),
        JobFault::Double(path) => Ok(JobFault::Double(led_to(alloc, step, &path)?)),
        other => Ok(other),
    }
}

/// A path without the point in front.
fn without_point(alloc: Global, path: &Name) -> Result<Name, Memory>
    ensures { IfOk result (λ name. name ≡ drop 1 path.now) }
{
    match path.bytes() {
        [_, rest @ ..] => Name::from_bytes(alloc, rest),
        [] => Name::from_bytes(alloc, b""),
    }
}

/// The fault as it is told of a job.
fn top(alloc: Global, fault: JobFault) -> Result<JobFault, Memory>
    ensures { IfOk result (λ told. told ≡ top fault) }
{
    match fault {
        JobFault::Key(path) => Ok(JobFault::Key(without_point(alloc, &path)?)),
        JobFault::Range(path) => Ok(JobFault::Range(without_point(alloc, &path)?)),
        JobFault::Double(path) => Ok(JobFault::Double(without_point(alloc, &path)?)),
        other => Ok(other),
    }
}

/// Why a table gives no job, as it is told of a job.
pub fn told_at_top(alloc: Global, stop: Stop<JobFault>) -> Stop<JobFault>
    ensures { IsToldAtTop stop result }
{
    match stop {
        Stop::Memory => Stop::Memory,
        Stop::Fault(fault) => match top(alloc, fault) {
            Ok(told) => Stop::Fault(told),
            Err(Memory) => Stop::Memory,
        },
    }
}

/// Why a value gives nothing, as it is told from the table or list above.
pub fn told_from(alloc: Global, step: &[u8], stop: Stop<JobFault>) -> Stop<JobFault>
    ensures { IsToldFrom step.now stop result }
{
    match stop {
        Stop::Memory => Stop::Memory,
        Stop::Fault(fault) => match below(alloc, step, fault) {
            Ok(told) => Stop::Fault(told),
            Err(Memory) => Stop::Memory,
        },
    }
}

/// The same of an item of a list, where it has this place.
pub fn told_from_item(alloc: Global, place: usize, stop: Stop<JobFault>) -> Stop<JobFault>
    ensures { IsToldFrom (decimal place) stop result }
{
    let mut buffer = Buffer::new();
    told_from(alloc, buffer.format(place).as_bytes(), stop)
}
