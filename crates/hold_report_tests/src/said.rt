//! What the report says of a problem that is written down by hand.

use hold_base::{Memory, Name};
use hold_job::Job;
use hold_report::table;
use hold_roles::{Bound, bind};
use hold_timing_tests::{Corner, Sketch, problem_of};
use std::alloc::Global;

/// Two registers with an inverter between them. Pin 2 is the first register's output `u1/Q`, 3 and 4 are the inverter's, 1 and 6
/// are the data pins `u1/D` and `u3/D`, 8 is the port `clk`, and 9 and 10 are the bits of the port `v`.
pub(crate) const INVERTER_TEXT: &[u8] =
    b"module e(clk, v, y); input clk; input [1:0] v; output y; wire a; wire b; DFF u1(.C(clk), .D(1'b0), .Q(a)); INV u2(.A(a), .Y(b)); DFF u3(.C(clk), .D(b), .Q(y)); endmodule";

/// The timing of these, where the clocks come at 0 and at 300, and buffers of two kinds may be put.
pub(crate) const INVERTER: Sketch<'static> = Sketch {
    pins: 12,
    arcs: &[
        (2, 3, true),
        (3, 4, false),
        (4, 6, true),
        (8, 0, true),
        (8, 5, true),
        (7, 11, true),
    ],
    launches: &[2, 7],
    captures: &[1, 6],
    period: 1000,
    kinds: 2,
    corners: &[BASE],
};

pub(crate) const BASE: Corner<'static> = Corner {
    arcs: &[(0, 0), (50, 60)],
    launch: &[(100, 120), (400, 420)],
    capture: &[(0, 0), (300, 300)],
    setup: &[40, 40],
    hold: &[30, 30],
    kinds: &[(50, 60), (100, 115)],
};

/// Nothing takes any time.
pub(crate) const NOTHING: Corner<'static> = Corner {
    arcs: &[],
    launch: &[],
    capture: &[],
    setup: &[],
    hold: &[],
    kinds: &[],
};

/// The text of a job with these corners, as the inside of a TOML list.
fn job_text(alloc: Global, corners: &str) -> Result<Vec<u8>, Memory> {
    let mut text = Vec::from_slice(
        alloc,
        b"netlist = \"e.v\"\noutput = \"e_out.v\"\ncertificate = \"e.cert\"\nperiod = 1000\ncorner = [",
    )?;
    text.extend_from_slice(corners.as_bytes())?;
    text.extend_from_slice(
        b"]\ntype = [{ name = \"DFF\", role = \"register\", clock = \"C\", data = [\"D\"], outputs = [\"Q\"] }, { name = \"INV\", role = \"comb\", inputs = [\"A\"], outputs = [\"Y\"] }, { name = \"NAND2\", role = \"comb\", inputs = [\"A\", \"B\"], outputs = [\"Y\"] }]\n",
    )?;
    Ok(text)
}

fn job(alloc: Global, corners: &str) -> Option<Job> {
    let Ok(text) = job_text(alloc, corners) else {
        return None;
    };
    let Ok(own) = Name::from_bytes(alloc, b"e.toml") else {
        return None;
    };
    hold_job::read(alloc, text.as_slice(), &own).ok()
}

fn bound(alloc: Global, netlist: &[u8], job: &Job) -> Option<Bound> {
    match hold_vparse::read(alloc, netlist) {
        Ok(netlist) => bind(alloc, netlist, &job.library).ok(),
        Err(_) => None,
    }
}

/// The report of the sketch, where the job has as many corners.
fn report(alloc: Global, netlist: &[u8], job: &Job, sketch: Sketch<'_>) -> Option<Vec<u8>> {
    let Some(bound) = bound(alloc, netlist, job) else {
        return None;
    };
    let Ok(problem) = problem_of(alloc, sketch) else {
        return None;
    };
    if job.corners.as_slice().len() != problem.corners.as_slice().len() {
        return None;
    }
    table(alloc, &bound, job, &problem).ok()
}

/// Whether that is what the report says of this netlist, of these corners of a job and of this sketch.
pub(crate) fn is_said(
    alloc: Global,
    (netlist, corners, sketch): (&[u8], &str, Sketch<'_>),
    text: &[u8],
) -> bool {
    let Some(job) = job(alloc, corners) else {
        return false;
    };
    match report(alloc, netlist, &job, sketch) {
        Some(said) => said.as_slice() == text,
        None => false,
    }
}
