//! Plans that are read, and where one is refused.

use hold_base::{Memory, PlanFault, PlanLine, Stop};
use hold_certtext::read_plan;
use std::alloc::Global;
use std::test::Fail;

/// Texts with their first bad lines.
static ROWS: [(&'static [u8], u32); 21] = [
    (b"", 1),
    (b"hold-plan 2\n", 1),
    (b"hold-plan\n", 1),
    (b"pad u3 D K2 2\n", 1),
    (b"hold-plan 1\n", 2),
    (b"hold-plan 1\npad u3 D K2 0\n", 2),
    (b"hold-plan 1\npad u3 D K2 256\n", 2),
    (b"hold-plan 1\npad u3 D K2 02\n", 2),
    (b"hold-plan 1\npad u3 D K2\n", 2),
    (b"hold-plan 1\npad u3 D K2 2 2\n", 2),
    (b"hold-plan 1\npad u3  K2 2\n", 2),
    (b"hold-plan 1\npad  u3 D K2 2\n", 2),
    (b"hold-plan 1\npad u\t3 D K2 2\n", 2),
    (b"hold-plan 1\npad u3 D K\x7f 2\n", 2),
    (b"hold-plan 1\nhold-plan 1\n", 2),
    (b"hold-plan 1\nend 1\n", 2),
    (b"hold-plan 1\nend", 2),
    (b"hold-plan 1\npad u3 D K2 2\n", 3),
    (b"hold-plan 1\npad u3 D K2 2\nPad u3 D K2 2\n", 3),
    (b"hold-plan 1\nend\nend\n", 3),
    (b"hold-plan 1\nend\n ", 3),
];

/// The first bad line of a text, None where it is read.
fn first_bad(alloc: Global, text: &[u8]) -> Result<Option<u32>, Memory> {
    if text.len() >= 1 << 32 {
        return Ok(None);
    }
    match read_plan(alloc, text) {
        Ok(_lines) => Ok(None),
        Err(Stop::Memory) => Err(Memory),
        Err(Stop::Fault(PlanFault::Line(line))) => Ok(Some(line)),
        Err(Stop::Fault(_)) => Ok(None),
    }
}

#[test]
fn plans_are_refused_at_their_first_bad_line(rt: HostRuntime) -> Result<(), Fail> {
    for (text, line) in &ROWS {
        assert_eq!(rt; first_bad(rt.alloc(), text)?, Some(*line));
    }
    Ok(())
}

fn is_line(found: &PlanLine, line: u32, inst: &[u8], pin: &[u8], kind: &[u8], count: u8) -> bool {
    found.line == line
        && found.inst.bytes() == inst
        && found.pin.bytes() == pin
        && found.kind.bytes() == kind
        && found.count == count
}

fn is_plan(lines: &[PlanLine]) -> bool {
    match lines {
        [first, second] => is_line(first, 2, b"u3", b"D", b"K2", 2)
            && is_line(second, 3, b"\\x[1]/~", b"!", b"pad", 255),
        _ => false,
    }
}

#[test]
fn a_plan_is_read_as_its_lines_with_their_numbers(rt: HostRuntime) -> Result<(), Fail> {
    let lines = read_plan(
        rt.alloc(),
        b"hold-plan 1\npad u3 D K2 2\npad \\x[1]/~ ! pad 255\nend\n",
    )?;
    assert!(rt; is_plan(lines.as_slice()));
    let none = read_plan(rt.alloc(), b"hold-plan 1\nend\n")?;
    assert!(rt; none.as_slice().is_empty());
    Ok(())
}
