//! Problems by hand, each with the worst ends that were found for it by hand.

use crate::sketch::{Corner, Sketch};

/// Two registers with an inverter between them. Pin 2 is the first register's output, 3 and 4 are the inverter's pins, and 1 and 6
/// are the data pins of the registers. The sites are 3 and 6. Without buffers the path comes 180 too early, and there is 1080 of
/// room at the late side.
pub(crate) const INVERTER: Sketch<'static> = Sketch {
    pins: 12,
    arcs: &[
        (2, 3, true),
        (3, 4, false),
        (4, 6, true),
        (8, 0, true),
        (8, 5, true),
        (7, 11, true),
    ],
    launches: &[2, 7],
    captures: &[1, 6],
    period: 1000,
    kinds: 2,
    corners: &[BASE],
};

pub(crate) const BASE: Corner<'static> = Corner {
    arcs: &[(0, 0), (50, 60)],
    launch: &[(100, 120), (400, 420)],
    capture: &[(0, 0), (300, 300)],
    setup: &[40, 40],
    hold: &[30, 30],
    kinds: &[(50, 60), (100, 115)],
};

/// A register whose output goes to a NAND2 both straight and by an inverter, and a register behind the NAND2, with pin 9.
pub(crate) const NAND2: Sketch<'static> = Sketch {
    arcs: &[
        (2, 3, true),
        (2, 5, true),
        (3, 4, false),
        (4, 6, true),
        (5, 7, false),
        (6, 7, false),
        (7, 9, true),
    ],
    launches: &[2, 10],
    captures: &[1, 9],
    corners: &[Corner {
        arcs: &[(0, 0), (0, 0), (50, 60), (0, 0), (10, 20), (10, 20)],
        capture: &[],
        ..BASE
    }],
    ..INVERTER
};

/// Nothing takes any time.
const NOTHING: Corner<'static> = Corner {
    arcs: &[],
    launch: &[],
    capture: &[],
    setup: &[],
    hold: &[],
    kinds: &[],
};

/// A launch with a wire to each of two captures, at which the slacks are the same.
pub(crate) const FORK: Sketch<'static> = Sketch {
    arcs: &[(2, 6, true), (2, 1, true)],
    captures: &[6, 1, 6],
    corners: &[Corner {
        arcs: &[(1, 2), (1, 2)],
        ..NOTHING
    }],
    ..INVERTER
};

/// The same, where one wire takes from 5 to 9, and the other from 3 to 4.
pub(crate) const APART: Sketch<'static> = Sketch {
    corners: &[Corner {
        arcs: &[(5, 9), (4, 3)],
        ..NOTHING
    }],
    ..FORK
};

/// A capture that is a launch too, where the clock comes at 7 or as late as at 900.
pub(crate) const LAUNCH_AND_CAPTURE: Sketch<'static> = Sketch {
    launches: &[2, 4],
    captures: &[4],
    corners: &[Corner {
        launch: &[(100, 120), (7, 900)],
        capture: &[],
        ..BASE
    }],
    ..INVERTER
};

/// The same with the register behind it.
pub(crate) const LAUNCH_ON_THE_WAY: Sketch<'static> = Sketch {
    captures: &[4, 6],
    ..LAUNCH_AND_CAPTURE
};

/// Captures that no path leads to: one before the arc, and one that is the launch.
pub(crate) const NO_PATH: Sketch<'static> = Sketch {
    launches: &[3],
    captures: &[3, 2],
    ..INVERTER
};

/// Everything twice: two arcs from one pin to the other, a launch and a capture that are listed twice.
pub(crate) const TWICE: Sketch<'static> = Sketch {
    arcs: &[(2, 6, true), (2, 6, false)],
    launches: &[2, 2],
    captures: &[6, 6],
    corners: &[Corner {
        arcs: &[(10, 50), (5, 40)],
        launch: &[(100, 200), (70, 180)],
        capture: &[(3, 20), (8, 10)],
        setup: &[60, 90],
        hold: &[4, 1],
        kinds: &[],
    }],
    ..INVERTER
};
