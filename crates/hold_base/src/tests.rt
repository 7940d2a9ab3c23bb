//! Calls that can want memory, with ample memory.

use crate::{List, Memory, Name, PlanLine, Stop};
use std::alloc::{AllocError, Global};
use std::test::Fail;

fn plan_line(alloc: Global) -> Result<PlanLine, Memory> {
    Ok(PlanLine {
        line: 2,
        inst: Name::from_bytes(alloc, b"u3")?,
        pin: Name::from_bytes(alloc, b"D")?,
        kind: Name::from_bytes(alloc, b"K2")?,
        count: 2,
    })
}

#[test]
fn names_keep_their_bytes(rt: HostRuntime) -> Result<(), Fail> {
    let name = Name::from_bytes(rt.alloc(), b"u[3]")?;
    assert_eq!(rt; name.bytes(), b"u[3]".as_slice());
    let copy = name.clone()?;
    assert_eq!(rt; copy.bytes(), b"u[3]".as_slice());
    Ok(())
}

#[test]
fn copies_of_lists_and_plan_lines_are_equal(rt: HostRuntime) -> Result<(), Fail> {
    let alloc = rt.alloc();
    let lines = List::from_vec(Vec::from_array(alloc, [plan_line(alloc)?, plan_line(alloc)?])?);
    let copy = lines.clone()?;
    assert!(rt; copy == lines);
    assert_eq!(rt; copy.as_slice().len(), 2);
    Ok(())
}

#[test]
fn a_copy_of_a_stop_has_its_fault(rt: HostRuntime) -> Result<(), Fail> {
    let stop = Stop::Fault(Name::from_bytes(rt.alloc(), b"a")?);
    let copy = stop.clone()?;
    assert!(rt; copy == stop);
    Ok(())
}
