//! Runs over Verilog texts in any layout: those that are read, and the line that is said of each that isn't.

use super::timed::LINE;
use super::{CERTIFICATE, NETLIST, ran_well};
use crate::outcome::{Fault, Outcome, status};
use crate::refusal::refusal_line;
use hold_base::{Name, What};
use hold_vparse::VerilogFault;
use std::alloc::Global;
use std::process::Abort;
use std::test::Fail;

/// The text is read, and written in the canonical layout.
fn is_written_as(
    rt: &impl Abort,
    alloc: Global,
    netlist: &[u8],
    canonical: &[u8],
    certificate: &[u8],
) -> Result<(), Fail> {
    let ran = ran_well(alloc, b"e.toml", netlist)?;
    assert_eq!(rt; ran.outcome, Outcome::Repaired { cost: 0 });
    assert_eq!(rt; ran.output.as_slice(), canonical);
    assert_eq!(rt; ran.certificate.as_slice(), certificate);
    assert_eq!(rt; ran.said.as_slice(), b"repaired cost 0\n".as_slice());
    Ok(())
}

/// The text is refused by this line, and nothing is written.
fn is_refused_by(rt: &impl Abort, alloc: Global, netlist: &[u8], line: &[u8]) -> Result<(), Fail> {
    let ran = ran_well(alloc, b"e.toml", netlist)?;
    assert_eq!(rt; status(&ran.outcome), 3);
    assert_eq!(rt; ran.said.as_slice(), line);
    assert_eq!(rt; ran.output.as_slice(), b"old".as_slice());
    assert_eq!(rt; ran.certificate.as_slice(), b"old".as_slice());
    Ok(())
}

#[test]
fn texts_are_written_in_the_canonical_layout(rt: HostRuntime) -> Result<(), Fail> {
    let alloc = rt.alloc();
    is_written_as(&rt, alloc, b"module m; endmodule", NETLIST, CERTIFICATE)?;
    is_written_as(
        &rt,
        alloc,
        b"module a(b); input b; wire b; endmodule",
        b"module a(b);\n  input b;\nendmodule\n",
        CERTIFICATE,
    )?;
    is_written_as(
        &rt,
        alloc,
        b"module \\module ; wire \\wire , \\plain ; endmodule",
        b"module \\module ();\n  wire \\wire ;\n  wire plain;\nendmodule\n",
        CERTIFICATE,
    )
}

#[test]
fn texts_without_tokens_are_refused(rt: HostRuntime) -> Result<(), Fail> {
    let alloc = rt.alloc();
    is_refused_by(
        &rt,
        alloc,
        b"module m(); \x7f",
        b"input verilog badbyte 12\n",
    )?;
    is_refused_by(
        &rt,
        alloc,
        b"module m(); /* endmodule",
        b"input verilog opencomment 12\n",
    )?;
    is_refused_by(
        &rt,
        alloc,
        b"module m(); wire \\ a; endmodule",
        b"input verilog openname 17\n",
    )
}

#[test]
fn pieces_that_cannot_stand_are_refused(rt: HostRuntime) -> Result<(), Fail> {
    let alloc = rt.alloc();
    // The text ends in the connections of the instance that begins at this place.
    is_refused_by(&rt, alloc, &LINE[..113], b"input verilog syntax 101\n")?;
    is_refused_by(
        &rt,
        alloc,
        b"module m(); endmodule module n(); endmodule",
        b"input verilog leftout module 22\n",
    )
}

#[test]
fn names_that_are_declared_wrongly_are_refused(rt: HostRuntime) -> Result<(), Fail> {
    let alloc = rt.alloc();
    is_refused_by(
        &rt,
        alloc,
        b"module m(); wire a; wire a; endmodule",
        b"input verilog doublename a\n",
    )?;
    is_refused_by(
        &rt,
        alloc,
        b"module a(b); endmodule",
        b"input verilog badport b\n",
    )?;
    is_refused_by(
        &rt,
        alloc,
        b"module a(); assign x = y; endmodule",
        b"input verilog badbit y\n",
    )?;
    is_refused_by(
        &rt,
        alloc,
        b"module m(); DFF u(.D(), .D()); endmodule",
        b"input verilog doublename D\n",
    )
}

#[test]
fn texts_past_a_limit_are_refused(rt: HostRuntime) -> Result<(), Fail> {
    let alloc = rt.alloc();
    is_refused_by(
        &rt,
        alloc,
        b"module m(); wire [1048576:0] a; endmodule",
        b"input verilog limit bound\n",
    )?;
    // One bit more than 32 times 2^20, and as many and more assigned bits of one net.
    is_refused_by(
        &rt,
        alloc,
        b"module m(); wire [1048575:0] a,b,c,d,e,f,g,h,i,j,k,l,m,n,o,p,q,r,s,t,u,v,w,x,y,z,aa,bb,cc,dd,ee,ff; wire gg; endmodule",
        b"input verilog limit bits\n",
    )?;
    is_refused_by(
        &rt,
        alloc,
        b"module m(); wire [1048575:0] a,b; assign a=b,a=b,a=b,a=b,a=b,a=b,a=b,a=b,a=b,a=b,a=b,a=b,a=b,a=b,a=b,a=b,a=b,a=b,a=b,a=b,a=b,a=b,a=b,a=b,a=b,a=b,a=b,a=b,a=b,a=b,a=b,a=b,a=b; endmodule",
        b"input verilog limit assigns\n",
    )
}

/// The line that is said of a passed limit.
fn is_said_as(rt: &impl Abort, alloc: Global, what: What, line: &[u8]) -> Result<(), Fail> {
    let said = refusal_line(alloc, &Fault::Verilog(VerilogFault::Limit(what)))?;
    assert_eq!(rt; said.as_slice(), line);
    Ok(())
}

/// No file is long enough for so many instances or pins.
#[test]
fn each_limit_has_its_word(rt: HostRuntime) -> Result<(), Fail> {
    let alloc = rt.alloc();
    is_said_as(&rt, alloc, What::Bound, b"input verilog limit bound\n")?;
    is_said_as(&rt, alloc, What::Bits, b"input verilog limit bits\n")?;
    is_said_as(
        &rt,
        alloc,
        What::Instances,
        b"input verilog limit instances\n",
    )?;
    is_said_as(&rt, alloc, What::Pins, b"input verilog limit pins\n")?;
    is_said_as(&rt, alloc, What::Assigns, b"input verilog limit assigns\n")
}

#[test]
fn the_fault_is_answered(rt: HostRuntime) -> Result<(), Fail> {
    let ran = ran_well(rt.alloc(), b"e.toml", b"module a(b); endmodule")?;
    let name = Name::from_bytes(rt.alloc(), b"b")?;
    assert_eq!(rt;
        ran.outcome,
        Outcome::Input(Fault::Verilog(VerilogFault::BadPort(name)))
    );
    Ok(())
}

#[test]
fn vectors_and_assignments_are_not_built(rt: HostRuntime) -> Result<(), Fail> {
    let line = b"input notbuilt e.v\n";
    let alloc = rt.alloc();
    is_refused_by(&rt, alloc, b"module m(a); input [1:0] a; endmodule", line)?;
    is_refused_by(
        &rt,
        alloc,
        b"module m(a, y); input a; output y; assign y = a; endmodule",
        line,
    )
}
