mod lengths;
mod limits;
mod outside;
mod timed;
mod verilog;
mod words;

use crate::outcome::{Fault, Outcome, status};
use crate::top::run;
use hold_base::{List, Memory, Name};
use hold_files::{Fails, MemoryFiles, read_whole};
use std::alloc::Global;
use std::process::Abort;
use std::test::Fail;

const JOB: &[u8] =
    b"netlist = \"e.v\"\noutput = \"e_out.v\"\ncertificate = \"e.cert\"\nperiod = 1000\n[[corner]]\nname = \"typ\"\n";

const NETLIST: &[u8] = b"module m();\nendmodule\n";

/// A netlist whose canonical text, which this is, is longer than the certificate.
const PORTS: &[u8] = b"module m(a, b);\n  input a;\n  input b;\nendmodule\n";

const CERTIFICATE: &[u8] = b"hold-certificate 1\nrepaired 0\nleaf 1\nend\n";

/// What a run answered and left.
#[derive(Drop)]
struct Ran {
    outcome: Outcome,
    certificate: Vec<u8>,
    output: Vec<u8>,
    said: Vec<u8>,
}

/// The numbers of the calls that fail.
fn fails_at(
    alloc: Global,
    reads: &[u64],
    starts: &[u64],
    puts: &[u64],
    says: &[u64],
) -> Result<Fails, Memory> {
    Ok(Fails {
        reads: List::from_vec(Vec::from_slice(alloc, reads)?),
        starts: List::from_vec(Vec::from_slice(alloc, starts)?),
        puts: List::from_vec(Vec::from_slice(alloc, puts)?),
        says: List::from_vec(Vec::from_slice(alloc, says)?),
    })
}

fn add_text(
    alloc: Global,
    texts: &mut Vec<(Name, Vec<u8>)>,
    name: &[u8],
    text: &[u8],
) -> Result<(), Memory> {
    texts.push((
        Name::from_bytes(alloc, name)?,
        Vec::from_slice(alloc, text)?,
    ))?;
    Ok(())
}

/// The job and its netlist, with outputs that hold `old`.
fn files_with(
    alloc: Global,
    job: &[u8],
    netlist: &[u8],
    room: usize,
    fails: Fails,
) -> Result<MemoryFiles, Memory> {
    let mut texts = Vec::new(alloc);
    add_text(alloc, &mut texts, b"e.toml", job)?;
    add_text(alloc, &mut texts, b"e.v", netlist)?;
    add_text(alloc, &mut texts, b"e_out.v", b"old")?;
    add_text(alloc, &mut texts, b"e.cert", b"old")?;
    let mut outputs = Vec::new(alloc);
    outputs.push(Name::from_bytes(alloc, b"e_out.v")?)?;
    outputs.push(Name::from_bytes(alloc, b"e.cert")?)?;
    MemoryFiles::new(alloc, texts, outputs, room, fails)
}

/// The words that ask for the repair of this job, or no words where it has no name.
fn words_of(alloc: Global, job: &[u8]) -> Result<Vec<Name>, Memory> {
    let mut words = Vec::new(alloc);
    if !job.is_empty() {
        words.push(Name::from_bytes(alloc, b"repair")?)?;
        words.push(Name::from_bytes(alloc, job)?)?;
    }
    Ok(words)
}

fn content(alloc: Global, files: &mut MemoryFiles, name: &[u8]) -> Result<Vec<u8>, Fail> {
    let name = Name::from_bytes(alloc, name)?;
    Ok(read_whole(alloc, files, &name, u64::MAX)?)
}

fn run_over(
    alloc: Global,
    name: &[u8],
    job: &[u8],
    netlist: &[u8],
    room: usize,
    fails: Fails,
) -> Result<Ran, Fail> {
    let words = words_of(alloc, name)?;
    run_with(alloc, words.as_slice(), job, netlist, room, fails)
}

/// A run of these words.
fn run_with(
    alloc: Global,
    words: &[Name],
    job: &[u8],
    netlist: &[u8],
    room: usize,
    fails: Fails,
) -> Result<Ran, Fail> {
    let mut files = files_with(alloc, job, netlist, room, fails)?;
    run_in(alloc, words, &mut files)
}

/// A run of these words over files that may have been written before.
fn run_in(alloc: Global, words: &[Name], files: &mut MemoryFiles) -> Result<Ran, Fail> {
    let outcome = run(alloc, words, files);
    let said = Vec::from_slice(alloc, files.said())?;
    let certificate = content(alloc, files, b"e.cert")?;
    let output = content(alloc, files, b"e_out.v")?;
    Ok(Ran {
        outcome,
        certificate,
        output,
        said,
    })
}

/// A run without a fault.
fn ran_well(alloc: Global, name: &[u8], netlist: &[u8]) -> Result<Ran, Fail> {
    let fails = fails_at(alloc, &[], &[], &[], &[])?;
    run_over(alloc, name, JOB, netlist, 1000, fails)
}

#[test]
fn a_netlist_that_needs_nothing_is_written(rt: HostRuntime) -> Result<(), Fail> {
    let ran = ran_well(rt.alloc(), b"e.toml", NETLIST)?;
    assert_eq!(rt; ran.outcome, Outcome::Repaired { cost: 0 });
    assert_eq!(rt; status(&ran.outcome), 0);
    assert_eq!(rt; ran.output.as_slice(), NETLIST);
    assert_eq!(rt; ran.certificate.as_slice(), CERTIFICATE);
    assert_eq!(rt; ran.said.as_slice(), b"repaired cost 0\n".as_slice());
    Ok(())
}

#[test]
fn no_words_are_answered_by_the_usage(rt: HostRuntime) -> Result<(), Fail> {
    let ran = ran_well(rt.alloc(), b"", NETLIST)?;
    assert_eq!(rt; ran.outcome, Outcome::Words);
    assert_eq!(rt; status(&ran.outcome), 7);
    assert_eq!(rt;
        ran.said.as_slice(),
        b"usage: hold repair JOB, check JOB, report JOB, apply JOB or trial N\n".as_slice()
    );
    Ok(())
}

#[test]
fn a_missing_job_is_a_read_fault(rt: HostRuntime) -> Result<(), Fail> {
    let ran = ran_well(rt.alloc(), b"nojob", NETLIST)?;
    assert_eq!(rt; status(&ran.outcome), 4);
    assert_eq!(rt;
        ran.outcome,
        Outcome::ReadFault(Name::from_bytes(rt.alloc(), b"nojob")?)
    );
    assert_eq!(rt; ran.said.as_slice(), b"".as_slice());
    Ok(())
}

#[test]
fn another_netlist_is_not_built(rt: HostRuntime) -> Result<(), Fail> {
    let ran = ran_well(rt.alloc(), b"e.toml", b"module m; wire [1:0] a; endmodule")?;
    assert_eq!(rt; status(&ran.outcome), 3);
    assert_eq!(rt;
        ran.outcome,
        Outcome::Input(Fault::NotBuilt(Name::from_bytes(rt.alloc(), b"e.v")?))
    );
    assert_eq!(rt; ran.said.as_slice(), b"input notbuilt e.v\n".as_slice());
    assert_eq!(rt; ran.output.as_slice(), b"old".as_slice());
    Ok(())
}

#[test]
fn another_job_is_not_built(rt: HostRuntime) -> Result<(), Fail> {
    let alloc = rt.alloc();
    let fails = fails_at(alloc, &[], &[], &[], &[])?;
    let ran = run_over(alloc, b"e.toml", b"netlist = ", NETLIST, 1000, fails)?;
    assert_eq!(rt; status(&ran.outcome), 3);
    assert_eq!(rt; ran.said.as_slice(), b"input notbuilt e.toml\n".as_slice());
    Ok(())
}

/// A run of which something can't be written: what the outputs hold after it.
fn runs_into(
    rt: &impl Abort,
    alloc: Global,
    room: usize,
    fails: Fails,
    certificate: &[u8],
    output: &[u8],
) -> Result<(), Fail> {
    let ran = run_over(alloc, b"e.toml", JOB, NETLIST, room, fails)?;
    assert_eq!(rt; status(&ran.outcome), 5);
    assert_eq!(rt; ran.certificate.as_slice(), certificate);
    assert_eq!(rt; ran.output.as_slice(), output);
    assert_eq!(rt; ran.said.as_slice(), b"".as_slice());
    Ok(())
}

#[test]
fn a_failed_certificate_leaves_the_output(rt: HostRuntime) -> Result<(), Fail> {
    let alloc = rt.alloc();
    runs_into(
        &rt,
        alloc,
        1000,
        fails_at(alloc, &[], &[0], &[], &[])?,
        b"old",
        b"old",
    )?;
    runs_into(
        &rt,
        alloc,
        1000,
        fails_at(alloc, &[], &[], &[0], &[])?,
        b"",
        b"old",
    )?;
    runs_into(
        &rt,
        alloc,
        10,
        fails_at(alloc, &[], &[], &[], &[])?,
        b"hold-certi",
        b"old",
    )
}

#[test]
fn a_failed_output_or_line_leaves_the_certificate(rt: HostRuntime) -> Result<(), Fail> {
    let alloc = rt.alloc();
    runs_into(
        &rt,
        alloc,
        1000,
        fails_at(alloc, &[], &[1], &[], &[])?,
        CERTIFICATE,
        b"old",
    )?;
    runs_into(
        &rt,
        alloc,
        1000,
        fails_at(alloc, &[], &[], &[1], &[])?,
        CERTIFICATE,
        b"",
    )?;
    runs_into(
        &rt,
        alloc,
        1000,
        fails_at(alloc, &[], &[], &[], &[0])?,
        CERTIFICATE,
        NETLIST,
    )
}

#[test]
fn an_output_past_the_room_is_cut_short(rt: HostRuntime) -> Result<(), Fail> {
    let alloc = rt.alloc();
    let fails = fails_at(alloc, &[], &[], &[], &[])?;
    let ran = run_over(alloc, b"e.toml", JOB, PORTS, 44, fails)?;
    assert_eq!(rt; ran.outcome, Outcome::WriteFault);
    assert_eq!(rt; ran.certificate.as_slice(), CERTIFICATE);
    assert_eq!(rt; ran.output.as_slice(), &PORTS[..44]);
    assert_eq!(rt; ran.said.as_slice(), b"".as_slice());
    Ok(())
}

/// There is room for each file and for two lines that are said, so that the line of a third run ends past it.
#[test]
fn a_line_past_the_room_is_cut_short(rt: HostRuntime) -> Result<(), Fail> {
    let alloc = rt.alloc();
    let words = words_of(alloc, b"e.toml")?;
    let fails = fails_at(alloc, &[], &[], &[], &[])?;
    let mut files = files_with(alloc, JOB, NETLIST, 42, fails)?;
    let first = run_in(alloc, words.as_slice(), &mut files)?;
    let second = run_in(alloc, words.as_slice(), &mut files)?;
    let third = run_in(alloc, words.as_slice(), &mut files)?;
    assert_eq!(rt; first.outcome, Outcome::Repaired { cost: 0 });
    assert_eq!(rt; second.outcome, Outcome::Repaired { cost: 0 });
    assert_eq!(rt; third.outcome, Outcome::WriteFault);
    assert_eq!(rt; third.certificate.as_slice(), CERTIFICATE);
    assert_eq!(rt; third.output.as_slice(), NETLIST);
    assert_eq!(rt;
        third.said.as_slice(),
        b"repaired cost 0\nrepaired cost 0\nrepaired c".as_slice()
    );
    Ok(())
}

/// Each file is written by one start and one piece, and the line is said at once: no later call is there to fail.
#[test]
fn a_repair_writes_and_says_each_text_once(rt: HostRuntime) -> Result<(), Fail> {
    let alloc = rt.alloc();
    let fails = fails_at(alloc, &[], &[2], &[2], &[1])?;
    let ran = run_over(alloc, b"e.toml", JOB, NETLIST, 1000, fails)?;
    assert_eq!(rt; ran.outcome, Outcome::Repaired { cost: 0 });
    assert_eq!(rt; ran.certificate.as_slice(), CERTIFICATE);
    assert_eq!(rt; ran.output.as_slice(), NETLIST);
    assert_eq!(rt; ran.said.as_slice(), b"repaired cost 0\n".as_slice());
    Ok(())
}

/// A run of which the read of this number fails, in a file of this name.
fn read_fails(rt: &impl Abort, alloc: Global, read: u64, name: &[u8]) -> Result<(), Fail> {
    let fails = fails_at(alloc, &[read], &[], &[], &[])?;
    let ran = run_over(alloc, b"e.toml", JOB, NETLIST, 1000, fails)?;
    assert_eq!(rt;
        ran.outcome,
        Outcome::ReadFault(Name::from_bytes(alloc, name)?)
    );
    assert_eq!(rt; ran.output.as_slice(), b"old".as_slice());
    assert_eq!(rt; ran.said.as_slice(), b"".as_slice());
    Ok(())
}

#[test]
fn a_failed_read_names_its_file(rt: HostRuntime) -> Result<(), Fail> {
    let alloc = rt.alloc();
    read_fails(&rt, alloc, 0, b"e.toml")?;
    read_fails(&rt, alloc, 1, b"e.toml")?;
    read_fails(&rt, alloc, 2, b"e.v")?;
    read_fails(&rt, alloc, 3, b"e.v")
}

/// A run whose line can't be said, and that writes nothing.
fn line_fails(rt: &impl Abort, alloc: Global, name: &[u8], job: &[u8]) -> Result<(), Fail> {
    let fails = fails_at(alloc, &[], &[], &[], &[0])?;
    let ran = run_over(alloc, name, job, NETLIST, 1000, fails)?;
    assert_eq!(rt; status(&ran.outcome), 5);
    assert_eq!(rt; ran.certificate.as_slice(), b"old".as_slice());
    assert_eq!(rt; ran.said.as_slice(), b"".as_slice());
    Ok(())
}

#[test]
fn a_failed_line_is_a_write_fault(rt: HostRuntime) -> Result<(), Fail> {
    let alloc = rt.alloc();
    line_fails(&rt, alloc, b"", JOB)?;
    line_fails(&rt, alloc, b"e.toml", b"netlist = ")
}
