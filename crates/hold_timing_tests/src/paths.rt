//! The worst ends of problems by hand, with a path to each.

use crate::counts::{Found, arrivals_of, worst_path};
use crate::examples::{
    APART, FORK, INVERTER, LAUNCH_AND_CAPTURE, LAUNCH_ON_THE_WAY, NAND2, NO_PATH, TWICE,
};
use crate::problem::{Unfit, problem_of};
use crate::sketch::Sketch;
use hold_base::{CornerNo, Side, Stop};
use std::alloc::Global;
use std::test::Fail;

/// The pin and the slack of a worst end, and the path to it.
type Worst = (u32, i64, &'static [u32]);

/// By problem, the worst end of the early side and that of the late side.
static ROWS: [(Sketch<'static>, Option<Worst>, Option<Worst>); 8] = [
    (
        INVERTER,
        Some((6, -180, &[2, 3, 4, 6])),
        Some((6, 1080, &[2, 3, 4, 6])),
    ),
    (
        NAND2,
        Some((9, 80, &[2, 5, 7, 9])),
        Some((9, 760, &[2, 3, 4, 6, 7, 9])),
    ),
    (FORK, Some((1, 1, &[2, 1])), Some((1, 998, &[2, 1]))),
    (APART, Some((1, 3, &[2, 1])), Some((6, 991, &[2, 6]))),
    // The capture alone is no path, so when its own output changes counts for nothing.
    (
        LAUNCH_AND_CAPTURE,
        Some((4, 120, &[2, 3, 4])),
        Some((4, 780, &[2, 3, 4])),
    ),
    (
        LAUNCH_ON_THE_WAY,
        Some((6, -23, &[4, 6])),
        Some((6, 60, &[4, 6])),
    ),
    (NO_PATH, None, None),
    // 70 + 5 - 20 - 4, and 1000 + 3 - 90 - 200 - 50.
    (TWICE, Some((6, 51, &[2, 6])), Some((6, 663, &[2, 6]))),
];

fn is_right(found: Option<Found>, want: Option<Worst>) -> bool {
    match (found, want) {
        (Some(found), Some((pin, slack, path))) => {
            found.end.capture.0 == pin
                && found.end.slack == slack
                && found
                    .path
                    .as_slice()
                    .iter()
                    .map(|pin| pin.0)
                    .eq(path.iter().copied())
        }
        (None, None) => true,
        _ => false,
    }
}

fn is_met(want: Option<Worst>) -> bool {
    match want {
        Some((_pin, slack, _path)) => slack >= 0,
        None => true,
    }
}

/// Whether these are the worst ends of the first corner, with a path to each.
fn is_worst(
    alloc: Global,
    sketch: Sketch<'static>,
    early: Option<Worst>,
    late: Option<Worst>,
) -> Result<bool, Stop<Unfit>> {
    let problem = problem_of(alloc, sketch)?;
    let arrivals = arrivals_of(alloc, &problem, &[])?;
    let first = worst_path(alloc, &problem, &arrivals, CornerNo(0), Side::Early)?;
    let second = worst_path(alloc, &problem, &arrivals, CornerNo(0), Side::Late)?;
    Ok(
        is_right(first, early)
            && is_right(second, late)
            && arrivals.meets(&problem) == (is_met(early) && is_met(late)),
    )
}

#[test]
fn each_side_has_its_worst_end_and_a_path_to_it(rt: HostRuntime) -> Result<(), Fail> {
    for (place, (sketch, early, late)) in ROWS.iter().enumerate() {
        assert!(rt;
            is_worst(rt.alloc(), *sketch, *early, *late)?,
            "row {place}"
        );
    }
    Ok(())
}
