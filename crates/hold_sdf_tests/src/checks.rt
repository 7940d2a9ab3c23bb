//! Setup and hold times.

use crate::answer::{Answer, is_answered};

static CHECKS_OF_PINS: [(&'static [u8], Answer); 8] = [
    // The ceiling of the greatest number of each value.
    (
        b"(DELAYFILE (TIMESCALE 1ps) (CELL (CELLTYPE \"T\") (INSTANCE u) (TIMINGCHECK (SETUPHOLD D (posedge C) (0.040) (-0.030)))))",
        Answer::Entries(b"check 74 u D C 40 -30 \n"),
    ),
    (
        b"(DELAYFILE (TIMESCALE 1ps) (CELL (CELLTYPE \"T\") (INSTANCE u) (TIMINGCHECK (SETUP D C (1:3:2)) (HOLD D C (0.0001)) (hold D C ()))))",
        Answer::Entries(b"check 74 u D C 3000 - \ncheck 94 u D C - 1 \ncheck 114 u D C - - \n"),
    ),
    (
        b"(DELAYFILE (TIMESCALE 1ps) (CELL (CELLTYPE \"T\") (INSTANCE u) (TIMINGCHECK (SETUPHOLD D C () (1)))))",
        Answer::Entries(b"check 74 u D C - 1000 \n"),
    ),
    // Pins by an edge or a condition, however deep.
    (
        b"(DELAYFILE (TIMESCALE 1ps) (CELL (CELLTYPE \"T\") (INSTANCE u) (TIMINGCHECK (HOLD (posedge D) (COND a == b (negedge C)) (1)))))",
        Answer::Entries(b"check 74 u D C - 1000 \n"),
    ),
    (
        b"(DELAYFILE (TIMESCALE 1ps) (CELL (CELLTYPE \"T\") (INSTANCE u) (TIMINGCHECK (HOLD (COND a (COND (b) \"c\" (cond D))) (COND C) (1)))))",
        Answer::Entries(b"check 74 u D C - 1000 \n"),
    ),
    // Conditions of a check, and checks that are read past.
    (
        b"(DELAYFILE (TIMESCALE 1ps) (CELL (CELLTYPE \"T\") (INSTANCE u) (TIMINGCHECK (SETUPHOLD D C (1) (2) (SCOND a) (CCOND b (c)) (scond)))))",
        Answer::Entries(b"check 74 u D C 1000 2000 \n"),
    ),
    (
        b"(DELAYFILE (TIMESCALE 1ps) (CELL (CELLTYPE \"T\") (INSTANCE u) (TIMINGCHECK (RECOVERY) (REMOVAL x) (RECREM \"\") (WIDTH (posedge C) (1)) (PERIOD) (SKEW) (BIDIRECTSKEW) (NOCHANGE :) (HOLD D C (1)))))",
        Answer::Entries(b"check 177 u D C - 1000 \n"),
    ),
    (
        b"(DELAYFILE (TIMESCALE 1ps) (CELL (CELLTYPE \"T\") (INSTANCE u) (TIMINGCHECK) (TIMINGENV (x)) (LABEL) (TIMINGCHECK (SETUP D C (1)))))",
        Answer::Entries(b"check 112 u D C 1000 - \n"),
    ),
];

static CHECKS_THAT_ARE_REFUSED: [(&'static [u8], Answer); 20] = [
    // A check of another shape.
    (
        b"(DELAYFILE (TIMESCALE 1ps) (CELL (CELLTYPE \"T\") (INSTANCE u) (TIMINGCHECK (SETUP D C))))",
        Answer::Syntax(74),
    ),
    (
        b"(DELAYFILE (TIMESCALE 1ps) (CELL (CELLTYPE \"T\") (INSTANCE u) (TIMINGCHECK (SETUP D (1)))))",
        Answer::Syntax(74),
    ),
    (
        b"(DELAYFILE (TIMESCALE 1ps) (CELL (CELLTYPE \"T\") (INSTANCE u) (TIMINGCHECK (SETUP D C (1) (2)))))",
        Answer::Syntax(74),
    ),
    (
        b"(DELAYFILE (TIMESCALE 1ps) (CELL (CELLTYPE \"T\") (INSTANCE u) (TIMINGCHECK (HOLD D C 1))))",
        Answer::Syntax(74),
    ),
    (
        b"(DELAYFILE (TIMESCALE 1ps) (CELL (CELLTYPE \"T\") (INSTANCE u) (TIMINGCHECK (HOLD D C ((1))))))",
        Answer::Syntax(74),
    ),
    (
        b"(DELAYFILE (TIMESCALE 1ps) (CELL (CELLTYPE \"T\") (INSTANCE u) (TIMINGCHECK (HOLD D C (1:2)))))",
        Answer::Syntax(74),
    ),
    (
        b"(DELAYFILE (TIMESCALE 1ps) (CELL (CELLTYPE \"T\") (INSTANCE u) (TIMINGCHECK (HOLD D \"C\" (1)))))",
        Answer::Syntax(74),
    ),
    (
        b"(DELAYFILE (TIMESCALE 1ps) (CELL (CELLTYPE \"T\") (INSTANCE u) (TIMINGCHECK (HOLD D (C) (1)))))",
        Answer::Syntax(74),
    ),
    (
        b"(DELAYFILE (TIMESCALE 1ps) (CELL (CELLTYPE \"T\") (INSTANCE u) (TIMINGCHECK (HOLD D (COND) (1)))))",
        Answer::Syntax(74),
    ),
    (
        b"(DELAYFILE (TIMESCALE 1ps) (CELL (CELLTYPE \"T\") (INSTANCE u) (TIMINGCHECK (HOLD D (COND (x C)) (1)))))",
        Answer::Syntax(74),
    ),
    (
        b"(DELAYFILE (TIMESCALE 1ps) (CELL (CELLTYPE \"T\") (INSTANCE u) (TIMINGCHECK (SETUPHOLD D C (1)))))",
        Answer::Syntax(74),
    ),
    (
        b"(DELAYFILE (TIMESCALE 1ps) (CELL (CELLTYPE \"T\") (INSTANCE u) (TIMINGCHECK (SETUPHOLD D C (1) (2) (3)))))",
        Answer::Syntax(74),
    ),
    (
        b"(DELAYFILE (TIMESCALE 1ps) (CELL (CELLTYPE \"T\") (INSTANCE u) (TIMINGCHECK (SETUPHOLD D C (1) (2) (COND a)))))",
        Answer::Syntax(74),
    ),
    (
        b"(DELAYFILE (TIMESCALE 1ps) (CELL (CELLTYPE \"T\") (INSTANCE u) (TIMINGCHECK (SETUPHOLD D C (1) (2) SCOND))))",
        Answer::Syntax(74),
    ),
    // A number that is none, or too great: the first in the text.
    (
        b"(DELAYFILE (TIMESCALE 1ps) (CELL (CELLTYPE \"T\") (INSTANCE u) (TIMINGCHECK (SETUPHOLD D C (1:a:b) (c)))))",
        Answer::Number(92),
    ),
    (
        b"(DELAYFILE (TIMESCALE 1ps) (CELL (CELLTYPE \"T\") (INSTANCE u) (TIMINGCHECK (SETUPHOLD D C (1) (2:3:1e8)))))",
        Answer::Number(98),
    ),
    // Groups that can't stand there.
    (
        b"(DELAYFILE (TIMESCALE 1ps) (CELL (CELLTYPE \"T\") (INSTANCE u) (TIMINGCHECK (IOPATH A Y (1)))))",
        Answer::Syntax(74),
    ),
    (
        b"(DELAYFILE (TIMESCALE 1ps) (CELL (CELLTYPE \"T\") (INSTANCE u) (TIMINGCHECK (SCOND a))))",
        Answer::Syntax(74),
    ),
    (
        b"(DELAYFILE (TIMESCALE 1ps) (CELL (CELLTYPE \"T\") (INSTANCE u) (TIMINGCHECK D)))",
        Answer::Syntax(61),
    ),
    (
        b"(DELAYFILE (TIMESCALE 1ps) (CELL (CELLTYPE \"T\") (INSTANCE u) (SETUP D C (1))))",
        Answer::Syntax(61),
    ),
];

#[test]
fn checks_of_pins(rt: HostRuntime) {
    for (text, answer) in &CHECKS_OF_PINS {
        assert!(rt;
            is_answered(rt.alloc(), text, *answer),
            "{}",
            text.escape_ascii()
        );
    }
}

#[test]
fn checks_that_are_refused(rt: HostRuntime) {
    for (text, answer) in &CHECKS_THAT_ARE_REFUSED {
        assert!(rt;
            is_answered(rt.alloc(), text, *answer),
            "{}",
            text.escape_ascii()
        );
    }
}
