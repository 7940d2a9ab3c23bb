//! The columns of a row: what is short is filled up, and what is wide is told whole.

use crate::said::{BASE, INVERTER, INVERTER_TEXT, is_said};
use hold_base::Memory;
use hold_timing_tests::{Corner, Sketch};
use std::alloc::Global;

#[test]
fn a_name_that_is_wider_than_its_column_is_told_whole(rt: HostRuntime) {
    for (corner, text) in [
        (
            "{ name = \"ss_0p81v_m40c_r\" }",
            b"ss_0p81v_m40c_r  early         -180 u3/D\nss_0p81v_m40c_r  late          1080 u3/D\n".as_slice(),
        ),
        (
            "{ name = \"ss_0p81v_m40c_rc\" }",
            b"ss_0p81v_m40c_rc early         -180 u3/D\nss_0p81v_m40c_rc late          1080 u3/D\n".as_slice(),
        ),
        (
            "{ name = \"ss_0p81v_m40c_rcw\" }",
            b"ss_0p81v_m40c_rcw early         -180 u3/D\nss_0p81v_m40c_rcw late          1080 u3/D\n".as_slice(),
        ),
        (
            "{ name = \"ss_0p81v_m40c_rcworst_cworst_T_p1v98_aged10y\" }",
            b"ss_0p81v_m40c_rcworst_cworst_T_p1v98_aged10y early         -180 u3/D\nss_0p81v_m40c_rcworst_cworst_T_p1v98_aged10y late          1080 u3/D\n".as_slice(),
        ),
    ] {
        assert!(rt;
            is_said(rt.alloc(), (INVERTER_TEXT, corner, INVERTER), text),
            "{corner}"
        );
    }
}

/// Whether that is said where the path from `u1/Q` to `u3/D` goes over so many arcs more, each of which takes 2^31 - 1 fs.
fn is_said_of_chain(alloc: Global, steps: u16, text: &[u8]) -> Result<bool, Memory> {
    let mut arcs = Vec::new(alloc);
    let mut times = Vec::new(alloc);
    for step in 0..u32::from(steps) {
        arcs.push((12 + step, 13 + step, false))?;
        times.push((i32::MAX, i32::MAX))?;
    }
    arcs.push((2, 12, true))?;
    arcs.push((12 + u32::from(steps), 6, true))?;
    let corner = Corner {
        arcs: times.as_slice(),
        launch: &[(100, 120)],
        capture: &[(0, 0), (300, 300)],
        setup: &[40, 40],
        hold: &[30, 30],
        kinds: &[],
    };
    let chain = Sketch {
        pins: 13 + u32::from(steps),
        arcs: arcs.as_slice(),
        launches: &[2],
        captures: &[1, 6],
        period: 1000,
        kinds: 0,
        corners: &[corner],
    };
    Ok(is_said(alloc, (INVERTER_TEXT, "{ name = \"typ\" }", chain), text))
}

#[test]
fn a_slack_that_is_wider_than_its_column_is_told_whole(rt: HostRuntime) {
    for (steps, text) in [
        (
            1,
            b"typ              early   2147483417 u3/D\ntyp              late   -2147482507 u3/D\n".as_slice(),
        ),
        (
            46,
            b"typ              early  98784247532 u3/D\ntyp              late  -98784246622 u3/D\n".as_slice(),
        ),
        (
            47,
            b"typ              early 100931731179 u3/D\ntyp              late  -100931730269 u3/D\n".as_slice(),
        ),
        (
            1000,
            b"typ              early 2147483646770 u3/D\ntyp              late  -2147483645860 u3/D\n".as_slice(),
        ),
    ] {
        match is_said_of_chain(rt.alloc(), steps, text) {
            Ok(said) => assert!(rt; said, "{steps}"),
            Err(_) => assert!(rt; false, "no memory"),
        }
    }
}

#[test]
fn a_capture_is_told_as_the_netlist_says_it(rt: HostRuntime) {
    for (captures, text) in [
        (
            [9u32].as_slice(),
            b"typ              early          150 v[1]\ntyp              late           820 v[1]\n".as_slice(),
        ),
        (
            [10].as_slice(),
            b"typ              early          150 v[0]\ntyp              late           820 v[0]\n".as_slice(),
        ),
        (
            [11].as_slice(),
            b"typ              early          150 y\ntyp              late           820 y\n".as_slice(),
        ),
    ] {
        let port = Sketch {
            arcs: &[
                (2, 3, true),
                (3, 4, false),
                (4, 9, true),
                (4, 10, true),
                (4, 11, true),
            ],
            captures,
            corners: &[Corner {
                capture: &[],
                setup: &[],
                hold: &[],
                ..BASE
            }],
            ..INVERTER
        };
        assert!(rt;
            is_said(
                rt.alloc(),
                (INVERTER_TEXT, "{ name = \"typ\" }", port),
                text
            )
        );
    }
}
