//! Runs over netlists with instances: a path that needs padding, netlists that need none, and those that
//! aren't served.

use super::limits::more_than_is_served_is_refused;
use super::outside::{BODIES, JOB_HEAD, JOBS, LINES, SERVED_BODIES, SERVED_LINES};
use super::{CERTIFICATE, NETLIST, Ran, fails_at, run_over};
use crate::outcome::{Outcome, status};
use hold_base::Memory;
use std::alloc::Global;
use std::process::Abort;
use std::test::Fail;

/// What each job begins with.
const FILES: &[u8] =
    b"netlist = \"e.v\"\noutput = \"e_out.v\"\ncertificate = \"e.cert\"\nperiod = 1000\nmax_chain = 4\n";

const ARRIVAL: &[u8] = b"arrival = [[0, 0]]\n";

const CORNER: &[u8] = b"[[corner]]\nname = \"typ\"\n";

const REGISTER: &[u8] =
    b"[[type]]\nname = \"DFF\"\nrole = \"register\"\nclock = \"C\"\ndata = [\"D\"]\noutputs = [\"Q\"]\narcs = [{ from = \"C\", to = \"Q\", spans = [[100, 120]] }]\nchecks = [{ pin = \"D\", setup = [40], hold = [30] }]\n";

const INVERTER: &[u8] =
    b"[[type]]\nname = \"INV\"\nrole = \"comb\"\ninputs = [\"A\"]\noutputs = [\"Y\"]\narcs = [{ from = \"A\", to = \"Y\", spans = [[50, 60]] }]\n";

/// Two kinds of buffers, which no run puts in yet.
const BUFFERS: &[u8] =
    b"[[type]]\nname = \"K1\"\nrole = \"comb\"\ninputs = [\"A\"]\noutputs = [\"Y\"]\n[[type]]\nname = \"K2\"\nrole = \"comb\"\ninputs = [\"A\"]\noutputs = [\"Y\"]\n[[kind]]\ntype = \"K1\"\ncost = 2\nspans = [[50, 60]]\n[[kind]]\ntype = \"K2\"\ncost = 3\nspans = [[100, 115]]\n";

const LATE_CLOCK: &[u8] = b"[[clock]]\ninst = \"u3\"\narrivals = [[300, 300]]\n";

const EARLY_CLOCK: &[u8] = b"[[clock]]\ninst = \"u3\"\narrivals = [[120, 120]]\n";

/// A gate with two inputs.
const GATE: &[u8] =
    b"[[type]]\nname = \"AND\"\nrole = \"comb\"\ninputs = [\"A\", \"B\"]\noutputs = [\"Y\"]\narcs = [{ from = \"A\", to = \"Y\", spans = [[50, 60]] }]\n";

/// Registers of which one has no delay to its output, and the other no check.
const GAPS: &[u8] =
    b"[[type]]\nname = \"SLOW\"\nrole = \"register\"\nclock = \"C\"\ndata = [\"D\"]\noutputs = [\"Q\"]\nchecks = [{ pin = \"D\", setup = [40], hold = [30] }]\n[[type]]\nname = \"LOOSE\"\nrole = \"register\"\nclock = \"C\"\ndata = [\"D\"]\noutputs = [\"Q\"]\narcs = [{ from = \"C\", to = \"Q\", spans = [[100, 120]] }]\n";

/// Two registers with an inverter between them.
pub(super) const LINE: &[u8] =
    b"module e(clk, y);\n  input clk;\n  output y;\n  wire a;\n  wire b;\n  DFF u1(.C(clk), .D(1'b0), .Q(a));\n  INV u2(.A(a), .Y(b));\n  DFF u3(.C(clk), .D(b), .Q(y));\nendmodule\n";

/// The same in another layout, with comments and an attribute.
const FREE_LINE: &[u8] =
    b"// two registers\nmodule e /* a line */ (clk,\ty);\r\ninput clk; output y; wire a, b;\n(* keep = \"*)\" *) DFF u1 ( .C(clk), .D(1'h0), .Q ( a ) ); INV u2(.A(a),.Y(b)); DFF \\u3 (.C(clk), .D(b), .Q(y)); endmodule // end";

/// The same with an instance and a wire whose names have to be escaped.
const ESCAPED_LINE: &[u8] =
    b"module e(clk, y);\n  input clk;\n  output y;\n  wire a;\n  wire \\wire ;\n  DFF u1(.C(clk), .D(1'b0), .Q(a));\n  INV \\u[3] (.A(a), .Y(\\wire ));\n  DFF u3(.C(clk), .D(\\wire ), .Q(y));\nendmodule\n";

/// The text of a module with an input and an output, up to what is in it.
const HEAD: &[u8] = b"module i(a, y);\n  input a;\n  output y;\n";

const END: &[u8] = b"endmodule\n";

const NETLIST_REFUSED: &[u8] = b"input notbuilt e.v\n";

const JOB_REFUSED: &[u8] = b"input notbuilt e.toml\n";

/// A job with this line at its top and this table at its end.
fn job_with(alloc: Global, line: &[u8], table: &[u8]) -> Result<Vec<u8>, Memory> {
    let mut text = Vec::from_slice(alloc, FILES)?;
    text.extend_from_slice(line)?;
    text.extend_from_slice(CORNER)?;
    text.extend_from_slice(REGISTER)?;
    text.extend_from_slice(INVERTER)?;
    text.extend_from_slice(BUFFERS)?;
    text.extend_from_slice(GATE)?;
    text.extend_from_slice(GAPS)?;
    text.extend_from_slice(table)?;
    Ok(text)
}

/// A module with an input and an output, and what is in it.
fn module_with(alloc: Global, body: &[u8]) -> Result<Vec<u8>, Memory> {
    let mut text = Vec::from_slice(alloc, HEAD)?;
    text.extend_from_slice(body)?;
    text.extend_from_slice(END)?;
    Ok(text)
}

/// A run without a fault.
fn ran(alloc: Global, job: &[u8], netlist: &[u8]) -> Result<Ran, Fail> {
    let fails = fails_at(alloc, &[], &[], &[], &[])?;
    run_over(alloc, b"e.toml", job, netlist, 1000, fails)
}

/// The netlist is written as it is, with this certificate.
fn is_repaired(
    rt: &impl Abort,
    alloc: Global,
    job: &[u8],
    netlist: &[u8],
    certificate: &[u8],
) -> Result<(), Fail> {
    let ran = ran(alloc, job, netlist)?;
    assert_eq!(rt; ran.outcome, Outcome::Repaired { cost: 0 });
    assert_eq!(rt; ran.output.as_slice(), netlist);
    assert_eq!(rt; ran.certificate.as_slice(), certificate);
    assert_eq!(rt; ran.said.as_slice(), b"repaired cost 0\n".as_slice());
    Ok(())
}

/// The run ends with this status, says this line and writes nothing.
fn only_says(
    rt: &impl Abort,
    alloc: Global,
    job: &[u8],
    netlist: &[u8],
    wanted: u8,
    line: &[u8],
) -> Result<(), Fail> {
    let ran = ran(alloc, job, netlist)?;
    assert_eq!(rt; status(&ran.outcome), wanted);
    assert_eq!(rt; ran.said.as_slice(), line);
    assert_eq!(rt; ran.output.as_slice(), b"old".as_slice());
    assert_eq!(rt; ran.certificate.as_slice(), b"old".as_slice());
    Ok(())
}

#[test]
fn a_path_that_comes_too_early_needs_padding(rt: HostRuntime) -> Result<(), Fail> {
    let job = job_with(rt.alloc(), ARRIVAL, LATE_CLOCK)?;
    let line = b"needs padding 180 early typ u1/Q u2/A u2/Y u3/D\n".as_slice();
    only_says(&rt, rt.alloc(), job.as_slice(), LINE, 9, line)
}

#[test]
fn a_path_with_nothing_to_spare_needs_none(rt: HostRuntime) -> Result<(), Fail> {
    let job = job_with(rt.alloc(), ARRIVAL, EARLY_CLOCK)?;
    is_repaired(&rt, rt.alloc(), job.as_slice(), LINE, CERTIFICATE)
}

#[test]
fn a_netlist_without_registers_needs_none(rt: HostRuntime) -> Result<(), Fail> {
    let job = job_with(rt.alloc(), ARRIVAL, b"")?;
    let netlist = module_with(rt.alloc(), b"  INV u1(.A(a), .Y(y));\n")?;
    is_repaired(
        &rt,
        rt.alloc(),
        job.as_slice(),
        netlist.as_slice(),
        CERTIFICATE,
    )?;
    is_repaired(&rt, rt.alloc(), job.as_slice(), NETLIST, CERTIFICATE)
}

/// The netlist is written in this layout, at no cost.
fn is_laid_out(
    rt: &impl Abort,
    alloc: Global,
    job: &[u8],
    netlist: &[u8],
    layout: &[u8],
) -> Result<(), Fail> {
    let ran = ran(alloc, job, netlist)?;
    assert_eq!(rt; ran.outcome, Outcome::Repaired { cost: 0 });
    assert_eq!(rt; ran.output.as_slice(), layout);
    Ok(())
}

#[test]
fn the_layout_of_the_text_is_free(rt: HostRuntime) -> Result<(), Fail> {
    let alloc = rt.alloc();
    let late = job_with(alloc, ARRIVAL, LATE_CLOCK)?;
    let line = b"needs padding 180 early typ u1/Q u2/A u2/Y u3/D\n".as_slice();
    only_says(&rt, alloc, late.as_slice(), FREE_LINE, 9, line)?;
    let early = job_with(alloc, ARRIVAL, EARLY_CLOCK)?;
    is_laid_out(&rt, alloc, early.as_slice(), FREE_LINE, LINE)?;
    let unclocked = job_with(alloc, ARRIVAL, b"")?;
    is_laid_out(
        &rt,
        alloc,
        unclocked.as_slice(),
        b"module m; endmodule",
        NETLIST,
    )
}

#[test]
fn a_name_is_escaped_where_it_has_to_be(rt: HostRuntime) -> Result<(), Fail> {
    let job = job_with(rt.alloc(), ARRIVAL, EARLY_CLOCK)?;
    is_repaired(&rt, rt.alloc(), job.as_slice(), ESCAPED_LINE, CERTIFICATE)
}

/// A module with this body isn't served.
fn refuses_body(rt: &impl Abort, alloc: Global, table: &[u8], body: &[u8]) -> Result<(), Fail> {
    let job = job_with(alloc, ARRIVAL, table)?;
    let netlist = module_with(alloc, body)?;
    only_says(
        rt,
        alloc,
        job.as_slice(),
        netlist.as_slice(),
        3,
        NETLIST_REFUSED,
    )
}

/// A module with this body is served, and needs nothing.
fn serves_body(rt: &impl Abort, alloc: Global, body: &[u8]) -> Result<(), Fail> {
    let job = job_with(alloc, ARRIVAL, b"")?;
    let netlist = module_with(alloc, body)?;
    is_repaired(rt, alloc, job.as_slice(), netlist.as_slice(), CERTIFICATE)
}

/// A job of the form is one with this line at its end too.
fn serves_line(rt: &impl Abort, alloc: Global, line: &[u8]) -> Result<(), Fail> {
    let mut job = Vec::from_slice(alloc, JOB_HEAD)?;
    job.extend_from_slice(line)?;
    is_repaired(rt, alloc, job.as_slice(), NETLIST, CERTIFICATE)
}

/// The text, with more letters than a name may have for each `@`.
fn with_letters(alloc: Global, text: &[u8]) -> Result<Vec<u8>, Memory> {
    let mut out = Vec::new(alloc);
    for byte in text {
        if *byte == b'@' {
            put_letters(&mut out)?;
        } else {
            out.push(*byte)?;
        }
    }
    Ok(out)
}

/// Appends one letter more than a name may have.
fn put_letters(out: &mut Vec<u8>) -> Result<(), Memory> {
    for _ in 0..4097 {
        out.push(b'n')?;
    }
    Ok(())
}

/// This text is no job of the form.
fn refuses_job(rt: &impl Abort, alloc: Global, text: &[u8]) -> Result<(), Fail> {
    let job = with_letters(alloc, text)?;
    only_says(rt, alloc, job.as_slice(), NETLIST, 3, JOB_REFUSED)
}

/// A job of the form is none with this line at its end.
fn refuses_line(rt: &impl Abort, alloc: Global, line: &[u8]) -> Result<(), Fail> {
    let mut text = Vec::from_slice(alloc, JOB_HEAD)?;
    text.extend_from_slice(line)?;
    refuses_job(rt, alloc, text.as_slice())
}

/// Clocks of a gate and of nothing aren't served, nor a register at which no clock arrives.
fn refuses_clocks(rt: &impl Abort, alloc: Global) -> Result<(), Fail> {
    refuses_body(rt, alloc, LATE_CLOCK, b"  INV u3(.A(a), .Y(y));\n")?;
    refuses_body(rt, alloc, LATE_CLOCK, b"")?;
    let job = job_with(alloc, b"", LATE_CLOCK)?;
    only_says(rt, alloc, job.as_slice(), LINE, 3, NETLIST_REFUSED)?;
    let unclocked = job_with(alloc, b"", b"")?;
    let netlist = module_with(alloc, b"  DFF u1();\n")?;
    only_says(
        rt,
        alloc,
        unclocked.as_slice(),
        netlist.as_slice(),
        3,
        NETLIST_REFUSED,
    )
}

#[test]
fn netlists_outside_the_form_are_refused(rt: HostRuntime) -> Result<(), Fail> {
    let alloc = rt.alloc();
    for body in &BODIES {
        refuses_body(&rt, alloc, b"", body)?;
    }
    refuses_clocks(&rt, alloc)?;
    more_than_is_served_is_refused(&rt, alloc)
}

#[test]
fn jobs_outside_the_form_are_refused(rt: HostRuntime) -> Result<(), Fail> {
    let alloc = rt.alloc();
    for job in &JOBS {
        refuses_job(&rt, alloc, job)?;
    }
    Ok(())
}

#[test]
fn lines_outside_the_form_spoil_a_job(rt: HostRuntime) -> Result<(), Fail> {
    let alloc = rt.alloc();
    is_repaired(&rt, alloc, JOB_HEAD, NETLIST, CERTIFICATE)?;
    for line in &LINES {
        refuses_line(&rt, alloc, line)?;
    }
    Ok(())
}

#[test]
fn netlists_just_within_the_form_are_served(rt: HostRuntime) -> Result<(), Fail> {
    let alloc = rt.alloc();
    for body in &SERVED_BODIES {
        serves_body(&rt, alloc, body)?;
    }
    Ok(())
}

#[test]
fn jobs_just_within_the_form_are_served(rt: HostRuntime) -> Result<(), Fail> {
    let alloc = rt.alloc();
    for line in &SERVED_LINES {
        serves_line(&rt, alloc, line)?;
    }
    Ok(())
}

#[test]
fn a_job_is_refused_before_its_netlist(rt: HostRuntime) -> Result<(), Fail> {
    let alloc = rt.alloc();
    let job = job_with(alloc, b"nodes = 1\n", b"")?;
    let unserved = module_with(alloc, b"  wire [3:0] b;\n")?;
    for netlist in [unserved.as_slice(), b"module".as_slice()] {
        only_says(&rt, alloc, job.as_slice(), netlist, 3, JOB_REFUSED)?;
    }
    Ok(())
}

#[test]
fn a_failed_line_leaves_the_files(rt: HostRuntime) -> Result<(), Fail> {
    let alloc = rt.alloc();
    let job = job_with(alloc, ARRIVAL, LATE_CLOCK)?;
    let fails = fails_at(alloc, &[], &[], &[], &[0])?;
    let ran = run_over(alloc, b"e.toml", job.as_slice(), LINE, 1000, fails)?;
    assert_eq!(rt; status(&ran.outcome), 5);
    assert_eq!(rt; ran.output.as_slice(), b"old".as_slice());
    assert_eq!(rt; ran.said.as_slice(), b"".as_slice());
    Ok(())
}
