//! Which end each row tells.

use crate::said::{BASE, INVERTER, INVERTER_TEXT, NOTHING, is_said};
use hold_timing_tests::{Corner, Sketch};

#[test]
fn the_base_example_is_short_early_and_has_room_late(rt: HostRuntime) {
    assert!(rt;
        is_said(
            rt.alloc(),
            (INVERTER_TEXT, "{ name = \"typ\" }", INVERTER),
            b"typ              early         -180 u3/D\ntyp              late          1080 u3/D\n",
        )
    );
}

/// A register whose output goes to a NAND2 both straight and by an inverter, and a register behind the NAND2. Pin 9 is `u4/D`.
const NAND2: Sketch<'static> = Sketch {
    pins: 12,
    arcs: &[
        (2, 3, true),
        (2, 5, true),
        (3, 4, false),
        (4, 6, true),
        (5, 7, false),
        (6, 7, false),
        (7, 9, true),
        (11, 0, true),
        (11, 8, true),
    ],
    launches: &[2, 10],
    captures: &[1, 9],
    period: 1000,
    kinds: 0,
    corners: &[Corner {
        arcs: &[(0, 0), (0, 0), (50, 60), (0, 0), (10, 20), (10, 20)],
        launch: &[(100, 120), (100, 120)],
        capture: &[],
        setup: &[40, 40],
        hold: &[30, 30],
        kinds: &[],
    }],
};

#[test]
fn the_early_row_takes_the_least_sum_and_the_late_row_the_greatest(rt: HostRuntime) {
    assert!(rt;
        is_said(
            rt.alloc(),
            (
                b"module n(clk); input clk; wire q, x, y; DFF u1(.C(clk), .D(1'b0), .Q(q)); INV u2(.A(q), .Y(x)); NAND2 u3(.A(q), .B(x), .Y(y)); DFF u4(.C(clk), .D(y), .Q()); endmodule",
                "{ name = \"typ\" }",
                NAND2,
            ),
            b"typ              early           80 u4/D\ntyp              late           760 u4/D\n",
        )
    );
}

#[test]
fn each_corner_has_its_two_rows_in_the_order_of_the_job(rt: HostRuntime) {
    let slow = Corner {
        arcs: &[(0, 0), (80, 700)],
        launch: &[(100, 250), (400, 420)],
        capture: &[(0, 0), (0, 0)],
        setup: &[40, 60],
        hold: &[30, 200],
        kinds: &[],
    };
    let both = Sketch {
        corners: &[slow, BASE],
        ..INVERTER
    };
    assert!(rt;
        is_said(
            rt.alloc(),
            (
                INVERTER_TEXT,
                "{ name = \"slow\" }, { name = \"fast\" }",
                both
            ),
            b"slow             early          -20 u3/D\nslow             late           -10 u3/D\nfast             early         -180 u3/D\nfast             late          1080 u3/D\n",
        )
    );
}

#[test]
fn without_a_checked_path_there_is_no_slack_and_no_capture(rt: HostRuntime) {
    // The capture comes before the arc, and a launch that is a capture is no path alone.
    let apart = Sketch {
        launches: &[3],
        captures: &[3, 2],
        ..INVERTER
    };
    assert!(rt;
        is_said(
            rt.alloc(),
            (INVERTER_TEXT, "{ name = \"typ\" }", apart),
            b"typ              early         none -\ntyp              late          none -\n",
        )
    );
}

#[test]
fn of_captures_with_the_same_slack_the_lesser_pin_is_told(rt: HostRuntime) {
    let fork = Sketch {
        arcs: &[(2, 6, true), (2, 1, true)],
        captures: &[6, 1],
        corners: &[Corner {
            arcs: &[(1, 2), (1, 2)],
            ..NOTHING
        }],
        ..INVERTER
    };
    assert!(rt;
        is_said(
            rt.alloc(),
            (INVERTER_TEXT, "{ name = \"typ\" }", fork),
            b"typ              early            1 u1/D\ntyp              late           998 u1/D\n",
        )
    );
}

#[test]
fn each_row_has_a_capture_of_its_own(rt: HostRuntime) {
    let two = Sketch {
        arcs: &[(2, 6, true), (2, 1, true)],
        corners: &[Corner {
            arcs: &[(5, 900), (20, 30)],
            ..NOTHING
        }],
        ..INVERTER
    };
    let turned = Sketch {
        corners: &[Corner {
            arcs: &[(5, 9), (4, 3)],
            ..NOTHING
        }],
        ..two
    };
    assert!(rt;
        is_said(
            rt.alloc(),
            (INVERTER_TEXT, "{ name = \"typ\" }", two),
            b"typ              early            5 u3/D\ntyp              late           100 u3/D\n",
        )
    );
    assert!(rt;
        is_said(
            rt.alloc(),
            (INVERTER_TEXT, "{ name = \"typ\" }", turned),
            b"typ              early            3 u1/D\ntyp              late           991 u3/D\n",
        )
    );
}
