//! The greatest lengths of names and of lists.

use crate::answer::{Answer, are_answered, is_answered};
use std::alloc::{AllocError, Global};

fn letters(alloc: Global, count: usize) -> Result<String, AllocError> {
    "a".repeat(alloc, count)
}

/// Whether a job whose names have so many letters each is answered so.
fn are_lengths_answered(
    alloc: Global,
    file: usize,
    corner: usize,
    cell: usize,
    answer: Answer,
) -> bool {
    let (Ok(file), Ok(corner), Ok(cell)) = (
        letters(alloc, file),
        letters(alloc, corner),
        letters(alloc, cell),
    ) else {
        return false;
    };
    let text = format!(in alloc;
        "netlist = \"{file}\"\noutput = \"o\"\ncertificate = \"c\"\nperiod = 1\ncorner = [{{ name = \"{corner}\" }}]\ntype = [{{ name = \"{cell}\", role = \"comb\" }}]\n"
    );
    match text {
        Ok(text) => is_answered(alloc, text.as_bytes(), answer),
        Err(_) => false,
    }
}

#[test]
fn names_have_greatest_lengths(rt: HostRuntime) {
    assert!(rt; are_lengths_answered(rt.alloc(), 4096, 64, 4096, Answer::Job));
    assert!(rt; are_lengths_answered(rt.alloc(), 4097, 64, 4096, Answer::Range("netlist")));
    assert!(rt; are_lengths_answered(rt.alloc(), 4096, 65, 4096, Answer::Range("corner.0.name")));
    assert!(rt; are_lengths_answered(rt.alloc(), 4096, 64, 4097, Answer::Range("type.0.name")));
}

/// A list of so many types.
fn types(alloc: Global, count: u32) -> Result<String, AllocError> {
    let mut text = String::from_str(alloc, "type = [")?;
    for number in 0..count {
        let cell = format!(in alloc; "{{name=\"T{number}\",role=\"comb\"}},")?;
        text.push_str(cell.as_str())?;
    }
    text.push_str("]")?;
    Ok(text)
}

#[test]
fn a_job_has_a_greatest_number_of_types(rt: HostRuntime) {
    for (count, answer) in [(4096, Answer::Job), (4097, Answer::Range("type"))] {
        match types(rt.alloc(), count) {
            Ok(lines) => assert!(rt; are_answered(rt.alloc(), lines.as_str(), answer)),
            Err(_) => assert!(rt; false, "no memory"),
        }
    }
}
