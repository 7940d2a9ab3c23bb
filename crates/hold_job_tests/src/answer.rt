use hold_base::{Memory, Name, Stop};
use hold_job::{Job, JobFault, read};
use std::alloc::Global;

/// What a text is answered.
#[derive(Clone, Copy)]
pub(crate) enum Answer {
    Job,
    Toml,
    Key(&'static str),
    Range(&'static str),
    Double(&'static str),
    SameName(&'static str),
}

/// What the text of the file `e.toml` is answered.
pub(crate) fn job(alloc: Global, text: &[u8]) -> Result<Job, Stop<JobFault>> {
    let own = Name::from_bytes(alloc, b"e.toml")?;
    read(alloc, text, &own)
}

/// Whether this is the answer.
fn is_answer(found: &Result<Job, Stop<JobFault>>, answer: Answer) -> bool {
    match (found, answer) {
        (Ok(_), Answer::Job) => true,
        (Err(Stop::Fault(JobFault::Toml)), Answer::Toml) => true,
        (Err(Stop::Fault(JobFault::Key(path))), Answer::Key(text)) => path.bytes()
            == text.as_bytes(),
        (Err(Stop::Fault(JobFault::Range(path))), Answer::Range(text)) => path.bytes()
            == text.as_bytes(),
        (Err(Stop::Fault(JobFault::Double(path))), Answer::Double(text)) => path.bytes()
            == text.as_bytes(),
        (Err(Stop::Fault(JobFault::SameName(name))), Answer::SameName(text)) => name.bytes()
            == text.as_bytes(),
        _ => false,
    }
}

/// Whether the text is answered so.
pub(crate) fn is_answered(alloc: Global, text: &[u8], answer: Answer) -> bool {
    is_answer(&job(alloc, text), answer)
}

/// A least job, and then these lines.
fn with_head(alloc: Global, lines: &str) -> Result<Vec<u8>, Memory> {
    let mut text = Vec::from_slice(
        alloc,
        b"netlist = \"n\"\noutput = \"o\"\ncertificate = \"c\"\nperiod = 1\ncorner = [{ name = \"t\" }]\n",
    )?;
    text.extend_from_slice(lines.as_bytes())?;
    Ok(text)
}

/// Whether a least job with these lines is answered so.
pub(crate) fn are_answered(alloc: Global, lines: &str, answer: Answer) -> bool {
    match with_head(alloc, lines) {
        Ok(text) => is_answered(alloc, &text, answer),
        Err(Memory) => false,
    }
}
