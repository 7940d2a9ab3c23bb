//! What is left at the checks, and whether all are met.

ghost use Rattle.hold_graph.specs.Problem.{IsValid};
ghost use Rattle.hold_timing.specs.Arrivals.{AreArrivals};

use crate::counts::{arrivals_of, counts_of, worst};
use crate::examples::{BASE, INVERTER};
use crate::problem::{Unfit, problem_of};
use crate::sketch::{Corner, Sketch};
use hold_base::{Side, Stop};
use hold_graph::Problem;
use hold_timing::Arrivals;
use std::alloc::Global;
use std::test::Fail;

/// By counts, what is left early and late, and whether that meets.
static COUNTS: [([u8; 4], i64, i64, bool); 6] = [
    ([0, 0, 0, 0], -180, 1080, false),
    ([0, 2, 0, 0], 20, 850, true),
    ([1, 0, 2, 0], -30, 900, false),
    ([0, 1, 1, 1], 70, 790, true),
    ([16, 16, 16, 16], 4620, -4520, false),
    ([0, 0, 0, 0], -180, 1080, false),
];

/// Whether the worst ends of the first corner are at pin 6 with this left early and late, and whether all checks are met as said.
fn is_left(problem: &Problem, arrivals: &Arrivals, early: i64, late: i64, met: bool) -> bool
    requires valid { IsValid problem.now }
    requires arrivals { AreArrivals problem.now arrivals.now }
{
    worst(problem, arrivals, 0, Side::Early) == Some((6, early))
        && worst(problem, arrivals, 0, Side::Late) == Some((6, late))
        && arrivals.meets(problem) == met
}

#[test]
fn arrivals_are_the_same_made_and_refreshed(rt: HostRuntime) -> Result<(), Fail> {
    let problem = problem_of(rt.alloc(), INVERTER)?;
    let mut refreshed = arrivals_of(rt.alloc(), &problem, &[])?;
    for (listed, early, late, met) in COUNTS.iter() {
        let counts = counts_of(rt.alloc(), &problem, listed)?;
        let made = Arrivals::make(rt.alloc(), &problem, &counts)?;
        refreshed.refresh(&problem, &counts);
        assert!(rt; is_left(&problem, &made, *early, *late, *met));
        assert!(rt; is_left(&problem, &refreshed, *early, *late, *met));
    }
    Ok(())
}

/// The inverter with a buffer of each kind at its first site, where the second register or the period differ: what is left early and
/// late, and whether that meets.
static CLOSE: [(&'static [Corner<'static>], i64, (i64, i64, bool)); 6] = [
    (
        &[Corner {
            hold: &[30, 0],
            ..BASE
        }],
        1000,
        (0, 905, true),
    ),
    (
        &[Corner {
            hold: &[30, 1],
            ..BASE
        }],
        1000,
        (-1, 905, false),
    ),
    (
        &[Corner {
            setup: &[40, 945],
            hold: &[30, 0],
            ..BASE
        }],
        1000,
        (0, 0, true),
    ),
    (
        &[Corner {
            setup: &[40, 946],
            hold: &[30, 0],
            ..BASE
        }],
        1000,
        (0, -1, false),
    ),
    (
        &[Corner {
            hold: &[30, 0],
            ..BASE
        }],
        95,
        (0, 0, true),
    ),
    (
        &[Corner {
            hold: &[30, 0],
            ..BASE
        }],
        94,
        (0, -1, false),
    ),
];

/// Whether that is left with a buffer of each kind at the first site.
fn is_left_with(
    alloc: Global,
    corners: &'static [Corner<'static>],
    period: i64,
    (early, late, met): (i64, i64, bool),
) -> Result<bool, Stop<Unfit>> {
    let sketch = Sketch {
        period,
        corners,
        ..INVERTER
    };
    let problem = problem_of(alloc, sketch)?;
    let arrivals = arrivals_of(alloc, &problem, &[1, 1])?;
    Ok(is_left(&problem, &arrivals, early, late, met))
}

#[test]
fn nothing_left_meets_and_one_less_misses(rt: HostRuntime) -> Result<(), Fail> {
    for (corners, period, left) in CLOSE.iter() {
        assert!(rt; is_left_with(rt.alloc(), *corners, *period, *left)?);
    }
    Ok(())
}

/// A corner in which the inverter is so slow that the late side misses by 20, and one in which both sides meet.
const SLOW: Corner<'static> = Corner {
    arcs: &[(0, 0), (300, 1160)],
    ..BASE
};

const MET: Corner<'static> = Corner {
    arcs: &[(0, 0), (300, 400)],
    ..BASE
};

/// By the two corners, what is left early in each, what is left late in each, and whether that meets.
static CORNERS: [(&'static [Corner<'static>], (i64, i64), (i64, i64), bool); 4] = [
    (&[BASE, SLOW], (-180, 70), (1080, -20), false),
    (&[MET, BASE], (70, -180), (740, 1080), false),
    (&[MET, SLOW], (70, 70), (740, -20), false),
    (&[MET, MET], (70, 70), (740, 740), true),
];

/// Whether that is left without buffers.
fn is_left_in(
    alloc: Global,
    corners: &'static [Corner<'static>],
    early: (i64, i64),
    late: (i64, i64),
    met: bool,
) -> Result<bool, Stop<Unfit>> {
    let sketch = Sketch {
        corners,
        ..INVERTER
    };
    let problem = problem_of(alloc, sketch)?;
    let arrivals = arrivals_of(alloc, &problem, &[])?;
    Ok(
        worst(&problem, &arrivals, 0, Side::Early) == Some((6, early.0))
            && worst(&problem, &arrivals, 1, Side::Early) == Some((6, early.1))
            && worst(&problem, &arrivals, 0, Side::Late) == Some((6, late.0))
            && worst(&problem, &arrivals, 1, Side::Late) == Some((6, late.1))
            && arrivals.meets(&problem) == met,
    )
}

#[test]
fn each_corner_has_its_own_times_and_all_have_to_be_met(rt: HostRuntime) -> Result<(), Fail> {
    for (corners, early, late, met) in CORNERS.iter() {
        assert!(rt; is_left_in(rt.alloc(), *corners, *early, *late, *met)?);
    }
    Ok(())
}
