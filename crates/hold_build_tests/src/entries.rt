//! What the `clock` and `keep` entries of a job name.

use crate::answer::{Answer, is_answered};
use crate::lists::Lists;

/// Two registers with an inverter between them, and an opaque cell of which one pin is written.
const NETLIST: &[u8] =
    b"module e(clk, y); input clk; output y; wire a; wire b; DFF u1(.C(clk), .D(1'b0), .Q(a)); INV u2(.A(a), .Y(b)); DFF u3(.C(clk), .D(b), .Q(y)); LAT u4(.G()); endmodule";

/// The pins that are kept where a job has these lines.
static KEPT: [(&'static [u8], &'static [u32]); 5] = [
    (b"clock = []\nkeep = []\n", &[]),
    (
        b"clock = [{ inst = \"u3\", arrivals = [[300, 300]] }, { inst = \"u1\", arrivals = [[0, 9]] }]\n",
        &[],
    ),
    (b"keep = [{ inst = \"u2\", pin = \"A\" }]\n", &[3]),
    // A pin of any sort, and one that two entries name.
    (
        b"keep = [{ inst = \"u2\", pin = \"Y\" }, { inst = \"u1\", pin = \"C\" }, { inst = \"u4\", pin = \"G\" }, { inst = \"u2\", pin = \"Y\" }, { inst = \"u1\", pin = \"D\" }]\n",
        &[4, 0, 8, 1],
    ),
    (
        b"keep = [{ inst = \"u3\", pin = \"Q\" }]\nclock = [{ inst = \"u3\", arrivals = [[300, 300]] }]\n",
        &[7],
    ),
];

#[test]
fn kept_pins_are_those_that_entries_name(rt: HostRuntime) {
    for (lines, keeps) in &KEPT {
        let lists = Lists {
            pins: 11,
            arcs: &[
                (9, 0, true),
                (2, 3, true),
                (3, 4, false),
                (9, 5, true),
                (4, 6, true),
                (7, 10, true),
            ],
            launches: &[2, 7],
            captures: &[1, 6],
            clocks: &[0, 5],
            keeps: *keeps,
        };
        assert!(rt; is_answered(rt.alloc(), NETLIST, lines, Answer::Lists(lists)));
    }
}

/// The path of the first entry that names nothing where a job has these lines.
static UNKNOWN: [(&'static [u8], &'static [u8]); 15] = [
    // An instance that isn't there, also where a wire, a port or a type has the name, and one that is no register.
    (
        b"clock = [{ inst = \"u9\", arrivals = [[0, 0]] }]\n",
        b"clock.0",
    ),
    (
        b"clock = [{ inst = \"a\", arrivals = [[0, 0]] }]\n",
        b"clock.0",
    ),
    (
        b"clock = [{ inst = \"clk\", arrivals = [[0, 0]] }]\n",
        b"clock.0",
    ),
    (
        b"clock = [{ inst = \"DFF\", arrivals = [[0, 0]] }]\n",
        b"clock.0",
    ),
    (
        b"clock = [{ inst = \"u2\", arrivals = [[0, 0]] }]\n",
        b"clock.0",
    ),
    (
        b"clock = [{ inst = \"u4\", arrivals = [[0, 0]] }]\n",
        b"clock.0",
    ),
    // The first of several.
    (
        b"clock = [{ inst = \"u3\", arrivals = [[0, 0]] }, { inst = \"u2\", arrivals = [[0, 0]] }, { inst = \"u9\", arrivals = [[0, 0]] }]\n",
        b"clock.1",
    ),
    // An instance that isn't there, a pin that its type lacks, and one that isn't written.
    (b"keep = [{ inst = \"u9\", pin = \"A\" }]\n", b"keep.0"),
    (b"keep = [{ inst = \"y\", pin = \"y\" }]\n", b"keep.0"),
    (b"keep = [{ inst = \"u2\", pin = \"D\" }]\n", b"keep.0"),
    (b"keep = [{ inst = \"u2\", pin = \"a\" }]\n", b"keep.0"),
    (b"keep = [{ inst = \"u4\", pin = \"Q\" }]\n", b"keep.0"),
    (
        b"keep = [{ inst = \"u2\", pin = \"A\" }, { inst = \"u1\", pin = \"Q\" }, { inst = \"u1\", pin = \"QN\" }, { inst = \"u9\", pin = \"A\" }]\n",
        b"keep.2",
    ),
    // A place of two digits.
    (
        b"keep = [{ inst = \"u2\", pin = \"A\" }, { inst = \"u2\", pin = \"A\" }, { inst = \"u2\", pin = \"A\" }, { inst = \"u2\", pin = \"A\" }, { inst = \"u2\", pin = \"A\" }, { inst = \"u2\", pin = \"A\" }, { inst = \"u2\", pin = \"A\" }, { inst = \"u2\", pin = \"A\" }, { inst = \"u2\", pin = \"A\" }, { inst = \"u2\", pin = \"A\" }, { inst = \"u2\", pin = \"B\" }]\n",
        b"keep.10",
    ),
    // Clocks go before kept pins.
    (
        b"keep = [{ inst = \"u9\", pin = \"A\" }]\nclock = [{ inst = \"u1\", arrivals = [[0, 0]] }, { inst = \"u2\", arrivals = [[0, 0]] }]\n",
        b"clock.1",
    ),
];

#[test]
fn the_first_entry_that_names_nothing_is_refused(rt: HostRuntime) {
    for (lines, path) in &UNKNOWN {
        assert!(rt; is_answered(rt.alloc(), NETLIST, lines, Answer::Unknown(path)));
    }
}
