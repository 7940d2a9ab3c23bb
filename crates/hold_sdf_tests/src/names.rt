//! Names with backslashes, and paths of pins.

use crate::answer::{Answer, is_answered};

static NAMES_AND_PATHS: [(&'static [u8], Answer); 5] = [
    // One instance by both spellings.
    (
        b"(DELAYFILE (TIMESCALE 1ps) (CELL (CELLTYPE \"T\") (INSTANCE u\\[3\\]) (DELAY (ABSOLUTE (IOPATH A Y (1))))))",
        Answer::Entries(b"cell 83 u[3] A Y 1000 1000 \n"),
    ),
    (
        b"(DELAYFILE (TIMESCALE 1ps) (CELL (CELLTYPE \"T\") (INSTANCE u[3]) (DELAY (ABSOLUTE (IOPATH A Y (1))))))",
        Answer::Entries(b"cell 81 u[3] A Y 1000 1000 \n"),
    ),
    // A backslash makes any byte plain, a star and a backslash too.
    (
        b"(DELAYFILE (TIMESCALE 1ps) (CELL (CELLTYPE \"T\") (INSTANCE \\*) (DELAY (ABSOLUTE (IOPATH a\\\\b \\(\\)\\: (1))))))",
        Answer::Entries(b"cell 79 * a\\b (): 1000 1000 \n"),
    ),
    (
        b"(DELAYFILE (TIMESCALE 1ps) (CELL (CELLTYPE \"T\") (INSTANCE a/b.c) (TIMINGCHECK (HOLD d\\. \\c (1)))))",
        Answer::Entries(b"check 78 a/b.c d. c - 1000 \n"),
    ),
    // A path is cut at the last divider that no backslash made plain.
    (
        b"(DELAYFILE (DIVIDER /) (TIMESCALE 1ps) (CELL (CELLTYPE \"T\") (INSTANCE) (DELAY (ABSOLUTE (INTERCONNECT a\\/b/c\\/d x\\/y (1)) (INTERCONNECT /a b/ (1)) (INTERCONNECT a\\\\/b p[0] (1)) (INTERCONNECT a/b\\\\\\/c \\// (1))))))",
        Answer::Entries(
            b"wire 88 - a/b|c/d -|x/y 1000 1000 \nwire 122 - |a b| 1000 1000 \nwire 147 - a\\|b -|p[0] 1000 1000 \nwire 177 - a|b\\/c /| 1000 1000 \n",
        ),
    ),
];

#[test]
fn names_and_paths(rt: HostRuntime) {
    for (text, answer) in &NAMES_AND_PATHS {
        assert!(rt;
            is_answered(rt.alloc(), text, *answer),
            "{}",
            text.escape_ascii()
        );
    }
}
