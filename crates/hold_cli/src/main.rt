//! `hold`: is to repair the hold violations of a netlist by delay buffers at the least cost. Today it serves
//! plain netlists in one corner, and repairs those that need no buffer.
#![tactic(auto)]

mod answer;
mod command;
mod front;
mod input;
mod job_form;
mod outcome;
mod padding;
mod refusal;
mod scalar;
mod top;

use hold_base::{Memory, Name};
use hold_files::HostFiles;
use outcome::{Outcome, complaint, status};
use std::alloc::{Alloc, Global};
use std::env;
use std::io::{self, Eprint};
use std::process::ExitCode;
use std::rt::Env;
use top::run;

fn main(rt: HostRuntime) -> ExitCode {
    let alloc = rt.alloc();
    let outcome = match program_words(&rt, alloc) {
        Ok(words) => {
            let mut files = HostFiles::new(rt);
            run(alloc, words.as_slice(), &mut files)
        }
        Err(Memory) => Outcome::Memory,
    };
    complain(&rt, &outcome);
    ExitCode::from(status(&outcome))
}

/// The arguments after the program's name, or no words where the system can't hand them over as text.
fn program_words(rt: &(impl Env + Alloc), alloc: Global) -> Result<Vec<Name>, Memory> {
    let mut words = Vec::new(alloc);
    match env::args(rt) {
        Ok(mut arguments) => {
            let _program = arguments.next();
            for argument in arguments {
                words.push(Name::from_bytes(alloc, argument.as_bytes())?)?;
            }
        }
        Err(error) if error.kind() == io::ErrorKind::OutOfMemory => return Err(Memory),
        Err(_) => {}
    }
    Ok(words)
}

/// Tells standard error of an outcome that says no line.
fn complain(rt: &impl Eprint, outcome: &Outcome) {
    if let Some(complaint) = complaint(outcome) {
        let _ = rt.eprintln(complaint);
    }
}

#[cfg(test)]
mod tests;
