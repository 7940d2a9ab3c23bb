//! Where the text of a certificate is refused.

use crate::certificates::{ALL_KINDS, REPAIR};
use hold_base::{Memory, Stop};
use hold_certtext::{CertFault, read};
use std::alloc::Global;
use std::test::Fail;

/// Texts with their first bad lines: lines that are malformed, out of place, or there twice; numbers that don't rise or pass their limits; trees that aren't whole;
/// and what stands behind the end.
static ROWS: [(&'static [u8], u64); 72] = [
    (b"", 1),
    (b"\n", 1),
    (b"hold-certificate 2\n", 1),
    (b"hold-certificate 01\n", 1),
    (b"hold-certificate\n", 1),
    (b"hold-certificate 1 \n", 1),
    (b"hold-certificate 1\r\n", 1),
    (b"repaired 6\n", 1),
    (b"hold-certificate 1\n", 2),
    (b"hold-certificate 1\n\n", 2),
    (b"hold-certificate 1\nrepaired 06\n", 2),
    (b"hold-certificate 1\nrepaired  6\n", 2),
    (b"hold-certificate 1\n repaired 6\n", 2),
    (b"hold-certificate 1\nrepaired 6 \n", 2),
    (b"hold-certificate 1\nrepaired +6\n", 2),
    (b"hold-certificate 1\nrepaired -1\n", 2),
    (b"hold-certificate 1\nrepaired\n", 2),
    (b"hold-certificate 1\nrepaired 6 6\n", 2),
    (b"hold-certificate 1\nrepaired 18446744073709551616\n", 2),
    (b"hold-certificate 1\ninfeasible 0\n", 2),
    (b"hold-certificate 1\nInfeasible\n", 2),
    (b"hold-certificate 1\ncount 1 2\n", 2),
    (b"hold-certificate 1\nhold-certificate 1\n", 2),
    (b"hold-certificate 1\nrepaired 6\nrepaired 6\n", 3),
    (b"hold-certificate 1\nrepaired 6\ninfeasible\n", 3),
    (b"hold-certificate 1\nrepaired 6\ncount 1 0\n", 3),
    (b"hold-certificate 1\nrepaired 6\ncount 1 256\n", 3),
    (b"hold-certificate 1\nrepaired 6\ncount 4294967296 1\n", 3),
    (b"hold-certificate 1\nrepaired 6\ncount 1\n", 3),
    (b"hold-certificate 1\nrepaired 6\ncount 1 2 3\n", 3),
    (b"hold-certificate 1\nrepaired 6\nend\n", 3),
    (b"hold-certificate 1\nrepaired 6\ncount 1 2\ncount 1 1\n", 4),
    (b"hold-certificate 1\nrepaired 6\ncount 1 2\ncount 0 1\n", 4),
    (b"hold-certificate 1\ninfeasible\ncount 1 2\n", 3),
    (b"hold-certificate 1\ninfeasible\nleaf 1\n", 3),
    (b"hold-certificate 1\nrepaired 6\npath early 0 2\n", 3),
    (b"hold-certificate 1\nrepaired 6\npath Early 0 2 3\n", 3),
    (b"hold-certificate 1\nrepaired 6\npath early 256 2 3\n", 3),
    (
        b"hold-certificate 1\nrepaired 6\npath early 0 2 4294967296\n",
        3,
    ),
    (b"hold-certificate 1\nrepaired 6\npath early 0 2 3 \n", 3),
    (b"hold-certificate 1\nrepaired 6\npath early 0 2 03\n", 3),
    (
        b"hold-certificate 1\nrepaired 6\npath early 0 2 3\ncount 1 2\n",
        4,
    ),
    (
        b"hold-certificate 1\nrepaired 6\ncount 1 2\npath early 0 2 3 4 6\nleaf 100 p 1 3\n",
        5,
    ),
    (
        b"hold-certificate 1\nrepaired 6\ncount 1 2\npath early 0 2 3 4 6\nleaf 100 p 0 3 p 0 1\n",
        5,
    ),
    (
        b"hold-certificate 1\nrepaired 6\ncount 1 2\npath early 0 2 3 4 6\nleaf 100 p 0 0\n",
        5,
    ),
    (
        b"hold-certificate 1\nrepaired 6\ncount 1 2\npath early 0 2 3 4 6\nleaf 100 p 0\n",
        5,
    ),
    (
        b"hold-certificate 1\nrepaired 6\ncount 1 2\npath early 0 2 3 4 6\nleaf 100 p\n",
        5,
    ),
    (
        b"hold-certificate 1\nrepaired 6\ncount 1 2\npath early 0 2 3 4 6\nleaf\n",
        5,
    ),
    (
        b"hold-certificate 1\nrepaired 6\ncount 1 2\npath early 0 2 3 4 6\nleaf 100 s 1 1 p 0 3\n",
        5,
    ),
    (
        b"hold-certificate 1\nrepaired 6\ncount 1 2\npath early 0 2 3 4 6\nleaf 100 s 1 1 s 1 1\n",
        5,
    ),
    (
        b"hold-certificate 1\nrepaired 6\ncount 1 2\npath early 0 2 3 4 6\nleaf 100 s 4294967296 1\n",
        5,
    ),
    (
        b"hold-certificate 1\nrepaired 6\ncount 1 2\npath early 0 2 3 4 6\nleaf 100 q 0 3\n",
        5,
    ),
    (
        b"hold-certificate 1\nrepaired 6\ncount 1 2\npath early 0 2 3 4 6\nleaf 100  p 0 3\n",
        5,
    ),
    (
        b"hold-certificate 1\nrepaired 6\ncount 1 2\npath early 0 2 3 4 6\nleaf 1152921504606846976 p 0 1\n",
        5,
    ),
    (
        b"hold-certificate 1\nrepaired 6\ncount 1 2\npath early 0 2 3 4 6\nleaf 1 p 0 1152921504606846976\n",
        5,
    ),
    (
        b"hold-certificate 1\nrepaired 6\ncount 1 2\npath early 0 2 3 4 6\nleaf 1152921504606846977\n",
        5,
    ),
    (
        b"hold-certificate 1\nrepaired 6\ncount 1 2\npath early 0 2 3 4 6\nsplit 0 255\n",
        5,
    ),
    (
        b"hold-certificate 1\nrepaired 6\ncount 1 2\npath early 0 2 3 4 6\nsplit 4294967296 0\n",
        5,
    ),
    (
        b"hold-certificate 1\nrepaired 6\ncount 1 2\npath early 0 2 3 4 6\nsplit 0\n",
        5,
    ),
    (
        b"hold-certificate 1\nrepaired 6\ncount 1 2\npath early 0 2 3 4 6\nsplit 0 0 0\n",
        5,
    ),
    (
        b"hold-certificate 1\nrepaired 6\ncount 1 2\npath early 0 2 3 4 6\nsplit 0 0\nleaf 0\nend\n",
        7,
    ),
    (
        b"hold-certificate 1\nrepaired 6\ncount 1 2\npath early 0 2 3 4 6\nsplit 0 0\npath early 0 2 3\n",
        6,
    ),
    (
        b"hold-certificate 1\nrepaired 6\ncount 1 2\npath early 0 2 3 4 6\nleaf 100 p 0 3\nleaf 0\n",
        6,
    ),
    (
        b"hold-certificate 1\nrepaired 6\ncount 1 2\npath early 0 2 3 4 6\nleaf 100 p 0 3\nsplit 0 0\n",
        6,
    ),
    (
        b"hold-certificate 1\nrepaired 6\ncount 1 2\npath early 0 2 3 4 6\nleaf 100 p 0 3\npath early 0 2 3\n",
        6,
    ),
    (
        b"hold-certificate 1\nrepaired 6\ncount 1 2\npath early 0 2 3 4 6\nleaf 100 p 0 3\nend \n",
        6,
    ),
    (
        b"hold-certificate 1\nrepaired 6\ncount 1 2\npath early 0 2 3 4 6\nleaf 100 p 0 3\nend 0\n",
        6,
    ),
    (
        b"hold-certificate 1\nrepaired 6\ncount 1 2\npath early 0 2 3 4 6\nleaf 100 p 0 3\nend",
        6,
    ),
    (
        b"hold-certificate 1\nrepaired 6\ncount 1 2\npath early 0 2 3 4 6\nleaf 100 p 0 3\n",
        6,
    ),
    (
        b"hold-certificate 1\nrepaired 6\ncount 1 2\npath early 0 2 3 4 6\nleaf 100 p 0 3\nend\nend\n",
        7,
    ),
    (
        b"hold-certificate 1\nrepaired 6\ncount 1 2\npath early 0 2 3 4 6\nleaf 100 p 0 3\nend\n\n",
        7,
    ),
    (
        b"hold-certificate 1\nrepaired 6\ncount 1 2\npath early 0 2 3 4 6\nleaf 100 p 0 3\nend\n ",
        7,
    ),
];

/// The first bad line of a text, None where it is read.
fn first_bad(alloc: Global, text: &[u8]) -> Result<Option<u64>, Memory> {
    match read(alloc, text) {
        Ok(_certificate) => Ok(None),
        Err(Stop::Memory) => Err(Memory),
        Err(Stop::Fault(CertFault::Line(line))) => Ok(Some(line)),
    }
}

#[test]
fn texts_are_refused_at_their_first_bad_line(rt: HostRuntime) -> Result<(), Fail> {
    for (text, line) in &ROWS {
        assert_eq!(rt; first_bad(rt.alloc(), text)?, Some(*line));
    }
    Ok(())
}

/// The number of the line that the byte at that place belongs to.
fn line_at(text: &[u8], place: usize) -> u64 {
    let mut line: u64 = 1;
    for byte in text.iter().take(place) {
        if *byte == b'\n' {
            line = line.saturating_add(1);
        }
    }
    line
}

/// Whether each front of the text is refused at the line where it is cut.
fn is_refused_where_cut(alloc: Global, text: &[u8]) -> Result<bool, Memory> {
    for place in 0..text.len() {
        if first_bad(alloc, &text[..place])? != Some(line_at(text, place)) {
            return Ok(false);
        }
    }
    Ok(true)
}

#[test]
fn a_text_that_ends_early_is_refused_at_the_line_where_it_ends(
    rt: HostRuntime,
) -> Result<(), Fail> {
    let alloc = rt.alloc();
    assert!(rt; is_refused_where_cut(alloc, REPAIR)?);
    assert!(rt; is_refused_where_cut(alloc, ALL_KINDS)?);
    assert_eq!(rt; first_bad(alloc, REPAIR)?, None);
    Ok(())
}
