//! Which lists of pins are checked paths.

use crate::graphs::{NAND2, graph_of};
use crate::parts::Shape;
use hold_base::PinNo;
use std::test::Fail;

static PATHS: [(&'static [PinNo], bool); 11] = [
    (
        &[PinNo(0), PinNo(1), PinNo(3), PinNo(4), PinNo(5), PinNo(6)],
        true,
    ),
    (
        &[PinNo(0), PinNo(2), PinNo(3), PinNo(4), PinNo(5), PinNo(6)],
        true,
    ),
    // It has to begin with a launch, to end with a capture, and to leave no step out.
    (&[PinNo(1), PinNo(3), PinNo(4), PinNo(5), PinNo(6)], false),
    (&[PinNo(0), PinNo(1), PinNo(3), PinNo(4), PinNo(5)], false),
    (&[PinNo(0), PinNo(1), PinNo(4), PinNo(5), PinNo(6)], false),
    // No path, a pin alone, and one step that isn't there.
    (&[], false),
    (&[PinNo(0)], false),
    (&[PinNo(0), PinNo(6)], false),
    // Pins that no graph of nine pins has.
    (&[PinNo(9), PinNo(6)], false),
    (&[PinNo(0), PinNo(4294967295), PinNo(6)], false),
    (&[PinNo(0), PinNo(9)], false),
];

#[test]
fn a_checked_path_leads_from_a_launch_to_a_capture_by_arcs(rt: HostRuntime) -> Result<(), Fail> {
    let graph = graph_of(rt.alloc(), NAND2)?;
    for (pins, checked) in PATHS.iter() {
        assert_eq!(rt; graph.is_checked(pins), *checked);
    }
    Ok(())
}

#[test]
fn a_launch_that_is_a_capture_is_no_path_alone_but_may_stand_inside_one(
    rt: HostRuntime,
) -> Result<(), Fail> {
    let both = Shape {
        launches: &[0, 4],
        captures: &[4, 6],
        ..NAND2
    };
    let graph = graph_of(rt.alloc(), both)?;
    assert!(rt; !graph.is_checked(&[PinNo(4)]));
    assert!(rt; graph.is_checked(&[PinNo(4), PinNo(5), PinNo(6)]));
    assert!(rt; graph.is_checked(&[PinNo(0), PinNo(1), PinNo(3), PinNo(4), PinNo(5), PinNo(6)]));
    Ok(())
}
