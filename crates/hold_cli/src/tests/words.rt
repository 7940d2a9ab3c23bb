//! Words that are no command.

use super::{JOB, NETLIST, fails_at, run_with};
use crate::outcome::{Outcome, status};
use hold_base::{Memory, Name};
use std::alloc::Global;
use std::process::Abort;
use std::test::Fail;

const USAGE: &[u8] = b"usage: hold repair JOB, check JOB, report JOB, apply JOB or trial N\n";

/// Words that ask for no repair, or for more than one thing, or for what isn't served yet.
static LISTS: [&[&[u8]]; 9] = [
    &[],
    &[b"repair"],
    &[b"repair", b""],
    &[b"repair", b"e.toml", b"e.v"],
    &[b"Repair", b"e.toml"],
    &[b"check", b"e.toml"],
    &[b"report", b"e.toml"],
    &[b"apply", b"e.toml"],
    &[b"trial", b"1"],
];

fn names_of(alloc: Global, words: &[&[u8]]) -> Result<Vec<Name>, Memory> {
    let mut names = Vec::new(alloc);
    for word in words {
        names.push(Name::from_bytes(alloc, word)?)?;
    }
    Ok(names)
}

/// The usage is said, and nothing is written.
fn is_no_command(rt: &impl Abort, alloc: Global, words: &[&[u8]]) -> Result<(), Fail> {
    let names = names_of(alloc, words)?;
    let fails = fails_at(alloc, &[], &[], &[], &[])?;
    let ran = run_with(alloc, names.as_slice(), JOB, NETLIST, 1000, fails)?;
    assert_eq!(rt; ran.outcome, Outcome::Words);
    assert_eq!(rt; status(&ran.outcome), 7);
    assert_eq!(rt; ran.said.as_slice(), USAGE);
    assert_eq!(rt; ran.output.as_slice(), b"old".as_slice());
    assert_eq!(rt; ran.certificate.as_slice(), b"old".as_slice());
    Ok(())
}

#[test]
fn words_that_are_no_command_are_answered_by_the_usage(rt: HostRuntime) -> Result<(), Fail> {
    let alloc = rt.alloc();
    for words in &LISTS {
        is_no_command(&rt, alloc, words)?;
    }
    Ok(())
}
