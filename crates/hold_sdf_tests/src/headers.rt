//! What stands before the cells, and what a file may be.

use crate::answer::{Answer, is_answered};

static HEADERS_AND_WHAT_THEY_SET: [(&'static [u8], Answer); 28] = [
    // Without a scale the unit is 1 ns.
    (
        b"(DELAYFILE (CELL (CELLTYPE \"T\") (INSTANCE u) (DELAY (ABSOLUTE (IOPATH A Y (1))))))",
        Answer::Entries(b"cell 62 u A Y 1000000 1000000 \n"),
    ),
    (
        b"(DELAYFILE (TIMESCALE 1ns) (CELL (CELLTYPE \"T\") (INSTANCE u) (DELAY (ABSOLUTE (IOPATH A Y (1))))))",
        Answer::Entries(b"cell 78 u A Y 1000000 1000000 \n"),
    ),
    (
        b"(DELAYFILE (TIMESCALE 1 ps) (CELL (CELLTYPE \"T\") (INSTANCE u) (DELAY (ABSOLUTE (IOPATH A Y (1))))))",
        Answer::Entries(b"cell 79 u A Y 1000 1000 \n"),
    ),
    (
        b"(DELAYFILE (TIMESCALE 1fs) (CELL (CELLTYPE \"T\") (INSTANCE u) (DELAY (ABSOLUTE (IOPATH A Y (1))))))",
        Answer::Entries(b"cell 78 u A Y 1 1 \n"),
    ),
    (
        b"(DELAYFILE (TIMESCALE 10 ns) (CELL (CELLTYPE \"T\") (INSTANCE u) (DELAY (ABSOLUTE (IOPATH A Y (1))))))",
        Answer::Entries(b"cell 80 u A Y 10000000 10000000 \n"),
    ),
    (
        b"(DELAYFILE (TIMESCALE 10ps) (CELL (CELLTYPE \"T\") (INSTANCE u) (DELAY (ABSOLUTE (IOPATH A Y (1))))))",
        Answer::Entries(b"cell 79 u A Y 10000 10000 \n"),
    ),
    (
        b"(DELAYFILE (TIMESCALE 10 fs) (CELL (CELLTYPE \"T\") (INSTANCE u) (DELAY (ABSOLUTE (IOPATH A Y (1))))))",
        Answer::Entries(b"cell 80 u A Y 10 10 \n"),
    ),
    (
        b"(DELAYFILE (TIMESCALE 100ns) (CELL (CELLTYPE \"T\") (INSTANCE u) (DELAY (ABSOLUTE (IOPATH A Y (1))))))",
        Answer::Entries(b"cell 80 u A Y 100000000 100000000 \n"),
    ),
    (
        b"(DELAYFILE (TIMESCALE 100 ps) (CELL (CELLTYPE \"T\") (INSTANCE u) (DELAY (ABSOLUTE (IOPATH A Y (1))))))",
        Answer::Entries(b"cell 81 u A Y 100000 100000 \n"),
    ),
    (
        b"(DELAYFILE (TIMESCALE 100fs) (CELL (CELLTYPE \"T\") (INSTANCE u) (DELAY (ABSOLUTE (IOPATH A Y (1))))))",
        Answer::Entries(b"cell 80 u A Y 100 100 \n"),
    ),
    (
        b"(DELAYFILE (TIMESCALE 1.0ns) (CELL (CELLTYPE \"T\") (INSTANCE u) (DELAY (ABSOLUTE (IOPATH A Y (1))))))",
        Answer::Entries(b"cell 80 u A Y 1000000 1000000 \n"),
    ),
    (
        b"(DELAYFILE (TIMESCALE 1.0 ps) (CELL (CELLTYPE \"T\") (INSTANCE u) (DELAY (ABSOLUTE (IOPATH A Y (1))))))",
        Answer::Entries(b"cell 81 u A Y 1000 1000 \n"),
    ),
    (
        b"(DELAYFILE (TIMESCALE 1.0fs) (CELL (CELLTYPE \"T\") (INSTANCE u) (DELAY (ABSOLUTE (IOPATH A Y (1))))))",
        Answer::Entries(b"cell 80 u A Y 1 1 \n"),
    ),
    (
        b"(DELAYFILE (TIMESCALE 10.0 ns) (CELL (CELLTYPE \"T\") (INSTANCE u) (DELAY (ABSOLUTE (IOPATH A Y (1))))))",
        Answer::Entries(b"cell 82 u A Y 10000000 10000000 \n"),
    ),
    (
        b"(DELAYFILE (TIMESCALE 10.0ps) (CELL (CELLTYPE \"T\") (INSTANCE u) (DELAY (ABSOLUTE (IOPATH A Y (1))))))",
        Answer::Entries(b"cell 81 u A Y 10000 10000 \n"),
    ),
    (
        b"(DELAYFILE (TIMESCALE 10.0 fs) (CELL (CELLTYPE \"T\") (INSTANCE u) (DELAY (ABSOLUTE (IOPATH A Y (1))))))",
        Answer::Entries(b"cell 82 u A Y 10 10 \n"),
    ),
    (
        b"(DELAYFILE (TIMESCALE 100.0ns) (CELL (CELLTYPE \"T\") (INSTANCE u) (DELAY (ABSOLUTE (IOPATH A Y (1))))))",
        Answer::Entries(b"cell 82 u A Y 100000000 100000000 \n"),
    ),
    (
        b"(DELAYFILE (TIMESCALE 100.0 ps) (CELL (CELLTYPE \"T\") (INSTANCE u) (DELAY (ABSOLUTE (IOPATH A Y (1))))))",
        Answer::Entries(b"cell 83 u A Y 100000 100000 \n"),
    ),
    (
        b"(DELAYFILE (TIMESCALE 100.0fs) (CELL (CELLTYPE \"T\") (INSTANCE u) (DELAY (ABSOLUTE (IOPATH A Y (1))))))",
        Answer::Entries(b"cell 82 u A Y 100 100 \n"),
    ),
    (
        b"(DELAYFILE (TIMESCALE 100 s) (CELL (CELLTYPE \"T\") (INSTANCE u) (DELAY (ABSOLUTE (IOPATH A Y (1e-10))))))",
        Answer::Entries(b"cell 80 u A Y 10000000 10000000 \n"),
    ),
    (
        b"(DELAYFILE (timescale 1 /**/ us) (CELL (CELLTYPE \"T\") (INSTANCE u) (DELAY (ABSOLUTE (IOPATH A Y (1))))))",
        Answer::Entries(b"cell 84 u A Y 1000000000 1000000000 \n"),
    ),
    (
        b"(DELAYFILE (TIMESCALE 1ms) (CELL (CELLTYPE \"T\") (INSTANCE u) (DELAY (ABSOLUTE (IOPATH A Y (0.01))))))",
        Answer::Entries(b"cell 78 u A Y 10000000000 10000000000 \n"),
    ),
    // Without a divider it is a point. Headers stand in any order, before the cells.
    (
        b"(DELAYFILE (CELL (CELLTYPE \"T\") (INSTANCE) (DELAY (ABSOLUTE (INTERCONNECT a/b.c d.e/f (1e-6))))))",
        Answer::Entries(b"wire 60 - a/b|c d|e/f 1 1 \n"),
    ),
    (
        b"(DELAYFILE (DIVIDER .)(CELL (CELLTYPE \"T\") (INSTANCE) (DELAY (ABSOLUTE (INTERCONNECT a/b.c d.e/f (1e-6))))))",
        Answer::Entries(b"wire 71 - a/b|c d|e/f 1 1 \n"),
    ),
    (
        b"(DELAYFILE (divider /)(CELL (CELLTYPE \"T\") (INSTANCE) (DELAY (ABSOLUTE (INTERCONNECT a/b.c d.e/f (1e-6))))))",
        Answer::Entries(b"wire 71 - a|b.c d.e|f 1 1 \n"),
    ),
    (
        b"(DELAYFILE (VOLTAGE 1.8::1.8) (TIMESCALE 1ns) (PROCESS \"x\") (SDFVERSION \"3.0\") (DIVIDER /) (DESIGN) (DATE) (VENDOR (x)) (PROGRAM) (VERSION) (TEMPERATURE :) (CELL (CELLTYPE \"T\") (INSTANCE) (DELAY (ABSOLUTE (INTERCONNECT a/b.c d.e/f (1e-6))))))",
        Answer::Entries(b"wire 205 - a|b.c d.e|f 1 1 \n"),
    ),
    (b"(delayfile)", Answer::Entries(b"")),
    (b" /* a */ (DELAYFILE // b\n) // c", Answer::Entries(b"")),
];

static FILES_THAT_ARE_REFUSED: [(&'static [u8], Answer); 38] = [
    // A header of another shape.
    (
        b"(DELAYFILE (DIVIDER) (CELL (CELLTYPE \"T\") (INSTANCE u) (DELAY (ABSOLUTE (IOPATH A Y (1))))))",
        Answer::Syntax(11),
    ),
    (
        b"(DELAYFILE (DIVIDER :) (CELL (CELLTYPE \"T\") (INSTANCE u) (DELAY (ABSOLUTE (IOPATH A Y (1))))))",
        Answer::Syntax(11),
    ),
    (
        b"(DELAYFILE (DIVIDER \\/) (CELL (CELLTYPE \"T\") (INSTANCE u) (DELAY (ABSOLUTE (IOPATH A Y (1))))))",
        Answer::Syntax(11),
    ),
    (
        b"(DELAYFILE (DIVIDER \"/\") (CELL (CELLTYPE \"T\") (INSTANCE u) (DELAY (ABSOLUTE (IOPATH A Y (1))))))",
        Answer::Syntax(11),
    ),
    (
        b"(DELAYFILE (DIVIDER / /) (CELL (CELLTYPE \"T\") (INSTANCE u) (DELAY (ABSOLUTE (IOPATH A Y (1))))))",
        Answer::Syntax(11),
    ),
    (
        b"(DELAYFILE (TIMESCALE) (CELL (CELLTYPE \"T\") (INSTANCE u) (DELAY (ABSOLUTE (IOPATH A Y (1))))))",
        Answer::Syntax(11),
    ),
    (
        b"(DELAYFILE (TIMESCALE 1) (CELL (CELLTYPE \"T\") (INSTANCE u) (DELAY (ABSOLUTE (IOPATH A Y (1))))))",
        Answer::Syntax(11),
    ),
    (
        b"(DELAYFILE (TIMESCALE ps) (CELL (CELLTYPE \"T\") (INSTANCE u) (DELAY (ABSOLUTE (IOPATH A Y (1))))))",
        Answer::Syntax(11),
    ),
    (
        b"(DELAYFILE (TIMESCALE 2ps) (CELL (CELLTYPE \"T\") (INSTANCE u) (DELAY (ABSOLUTE (IOPATH A Y (1))))))",
        Answer::Syntax(11),
    ),
    (
        b"(DELAYFILE (TIMESCALE 1 PS) (CELL (CELLTYPE \"T\") (INSTANCE u) (DELAY (ABSOLUTE (IOPATH A Y (1))))))",
        Answer::Syntax(11),
    ),
    (
        b"(DELAYFILE (TIMESCALE 1000ps) (CELL (CELLTYPE \"T\") (INSTANCE u) (DELAY (ABSOLUTE (IOPATH A Y (1))))))",
        Answer::Syntax(11),
    ),
    (
        b"(DELAYFILE (TIMESCALE 1.00ps) (CELL (CELLTYPE \"T\") (INSTANCE u) (DELAY (ABSOLUTE (IOPATH A Y (1))))))",
        Answer::Syntax(11),
    ),
    (
        b"(DELAYFILE (TIMESCALE 1p s) (CELL (CELLTYPE \"T\") (INSTANCE u) (DELAY (ABSOLUTE (IOPATH A Y (1))))))",
        Answer::Syntax(11),
    ),
    (
        b"(DELAYFILE (TIMESCALE 1 ps x) (CELL (CELLTYPE \"T\") (INSTANCE u) (DELAY (ABSOLUTE (IOPATH A Y (1))))))",
        Answer::Syntax(11),
    ),
    (
        b"(DELAYFILE (TIMESCALE 1 \"ps\") (CELL (CELLTYPE \"T\") (INSTANCE u) (DELAY (ABSOLUTE (IOPATH A Y (1))))))",
        Answer::Syntax(11),
    ),
    // A header a second time, or behind a cell.
    (b"(DELAYFILE (DIVIDER /) (DIVIDER /))", Answer::Syntax(23)),
    (
        b"(DELAYFILE (TIMESCALE 1ns) (TIMESCALE 1ns))",
        Answer::Syntax(27),
    ),
    (
        b"(DELAYFILE (CELL (CELLTYPE \"T\") (INSTANCE u) (DELAY (ABSOLUTE (IOPATH A Y (1))))) (DIVIDER /))",
        Answer::Syntax(82),
    ),
    (
        b"(DELAYFILE (CELL (CELLTYPE \"T\") (INSTANCE u) (DELAY (ABSOLUTE (IOPATH A Y (1))))) (DESIGN \"x\"))",
        Answer::Syntax(82),
    ),
    // What can't stand in a file, before or behind the cells.
    (
        b"(DELAYFILE (FOO) (CELL (CELLTYPE \"T\") (INSTANCE u) (DELAY (ABSOLUTE (IOPATH A Y (1))))))",
        Answer::Syntax(11),
    ),
    (
        b"(DELAYFILE (DELAY) (CELL (CELLTYPE \"T\") (INSTANCE u) (DELAY (ABSOLUTE (IOPATH A Y (1))))))",
        Answer::Syntax(11),
    ),
    (
        b"(DELAYFILE (CELL (CELLTYPE \"T\") (INSTANCE u) (DELAY (ABSOLUTE (IOPATH A Y (1))))) (CELLS))",
        Answer::Syntax(82),
    ),
    (b"(DELAYFILE x (DIVIDER))", Answer::Syntax(0)),
    (b"(DELAYFILE \"x\")", Answer::Syntax(0)),
    (b"(DELAYFILE (DIVIDER) :)", Answer::Syntax(0)),
    (b" (DELAY)", Answer::Syntax(1)),
    (b"()", Answer::Syntax(0)),
    (b"(\"DELAYFILE\")", Answer::Syntax(0)),
    // No whole group, or not that alone, whatever else is at fault.
    (b"(DELAYFILE", Answer::Syntax(10)),
    (b"", Answer::Syntax(0)),
    (b"  // x", Answer::Syntax(6)),
    (b"(DELAYFILE (FOO) \"x)", Answer::Syntax(20)),
    (b"(DELAYFILE (FOO) /* )", Answer::Syntax(21)),
    (b"(DELAYFILE (FOO) )\\", Answer::Syntax(19)),
    (b"(DELAYFILE (FOO)) (DELAYFILE)", Answer::Syntax(18)),
    (b"(FOO) )", Answer::Syntax(6)),
    (b"x (DELAYFILE)", Answer::Syntax(0)),
    (b"(DELAYFILE)) (", Answer::Syntax(14)),
];

#[test]
fn headers_and_what_they_set(rt: HostRuntime) {
    for (text, answer) in &HEADERS_AND_WHAT_THEY_SET {
        assert!(rt;
            is_answered(rt.alloc(), text, *answer),
            "{}",
            text.escape_ascii()
        );
    }
}

#[test]
fn files_that_are_refused(rt: HostRuntime) {
    for (text, answer) in &FILES_THAT_ARE_REFUSED {
        assert!(rt;
            is_answered(rt.alloc(), text, *answer),
            "{}",
            text.escape_ascii()
        );
    }
}
