//! Delays of paths and wires.

use crate::answer::{Answer, is_answered};

static PATHS_AND_WIRES: [(&'static [u8], Answer); 23] = [
    // The hull of a value's numbers, each rounded outward; a value without numbers adds nothing.
    (
        b"(DELAYFILE (TIMESCALE 1ps) (CELL (CELLTYPE \"T\") (INSTANCE u) (DELAY (ABSOLUTE (IOPATH A Y (0.1::0.3) ())))))",
        Answer::Entries(b"cell 78 u A Y 100 300 \n"),
    ),
    (
        b"(DELAYFILE (TIMESCALE 1ps) (CELL (CELLTYPE \"T\") (INSTANCE u) (DELAY (ABSOLUTE (IOPATH A Y ())))))",
        Answer::Entries(b"cell 78 u A Y - - \n"),
    ),
    (
        b"(DELAYFILE (TIMESCALE 1ps) (CELL (CELLTYPE \"T\") (INSTANCE u) (DELAY (ABSOLUTE (IOPATH A Y (::))))))",
        Answer::Entries(b"cell 78 u A Y - - \n"),
    ),
    (
        b"(DELAYFILE (TIMESCALE 1ps) (CELL (CELLTYPE \"T\") (INSTANCE u) (DELAY (ABSOLUTE (IOPATH A Y (0.0004))))))",
        Answer::Entries(b"cell 78 u A Y 0 1 \n"),
    ),
    (
        b"(DELAYFILE (TIMESCALE 1ps) (CELL (CELLTYPE \"T\") (INSTANCE u) (DELAY (ABSOLUTE (IOPATH A Y (-0.0004))))))",
        Answer::Entries(b"cell 78 u A Y -1 0 \n"),
    ),
    (
        b"(DELAYFILE (TIMESCALE 1ps) (CELL (CELLTYPE \"T\") (INSTANCE u) (DELAY (ABSOLUTE (IOPATH A Y (3:1:2))))))",
        Answer::Entries(b"cell 78 u A Y 1000 3000 \n"),
    ),
    (
        b"(DELAYFILE (TIMESCALE 1ps) (CELL (CELLTYPE \"T\") (INSTANCE u) (DELAY (ABSOLUTE (IOPATH A Y (:1:))))))",
        Answer::Entries(b"cell 78 u A Y 1000 1000 \n"),
    ),
    (
        b"(DELAYFILE (TIMESCALE 1ps) (CELL (CELLTYPE \"T\") (INSTANCE u) (DELAY (ABSOLUTE (IOPATH A Y (1::))))))",
        Answer::Entries(b"cell 78 u A Y 1000 1000 \n"),
    ),
    (
        b"(DELAYFILE (TIMESCALE 1ps) (CELL (CELLTYPE \"T\") (INSTANCE u) (DELAY (ABSOLUTE (IOPATH A Y (::1))))))",
        Answer::Entries(b"cell 78 u A Y 1000 1000 \n"),
    ),
    (
        b"(DELAYFILE (TIMESCALE 1ps) (CELL (CELLTYPE \"T\") (INSTANCE u) (DELAY (ABSOLUTE (IOPATH A Y (1:2:))))))",
        Answer::Entries(b"cell 78 u A Y 1000 2000 \n"),
    ),
    (
        b"(DELAYFILE (TIMESCALE 1ps) (CELL (CELLTYPE \"T\") (INSTANCE u) (DELAY (ABSOLUTE (IOPATH A Y (1 : 2 /* typ */ : 3))))))",
        Answer::Entries(b"cell 78 u A Y 1000 3000 \n"),
    ),
    (
        b"(DELAYFILE (TIMESCALE 1ps) (CELL (CELLTYPE \"T\") (INSTANCE u) (DELAY (ABSOLUTE (IOPATH A Y (1) (5) (-2))))))",
        Answer::Entries(b"cell 78 u A Y -2000 5000 \n"),
    ),
    // One to twelve delays.
    (
        b"(DELAYFILE (TIMESCALE 1ps) (CELL (CELLTYPE \"T\") (INSTANCE u) (DELAY (ABSOLUTE (IOPATH A Y (1)(2)(3)(4)(5)(6)(7)(8)(9)(10)(11)(12))))))",
        Answer::Entries(b"cell 78 u A Y 1000 12000 \n"),
    ),
    // A delay of several values is the first of them.
    (
        b"(DELAYFILE (TIMESCALE 1ps) (CELL (CELLTYPE \"T\") (INSTANCE u) (DELAY (ABSOLUTE (IOPATH A Y ((1)) ((2:3:4) (9)) ((5) (x) (1e99::y)))))))",
        Answer::Entries(b"cell 78 u A Y 1000 5000 \n"),
    ),
    (
        b"(DELAYFILE (TIMESCALE 1ps) (CELL (CELLTYPE \"T\") (INSTANCE u) (DELAY (ABSOLUTE (IOPATH A Y (() (9)))))))",
        Answer::Entries(b"cell 78 u A Y - - \n"),
    ),
    // A pin or an edge of one.
    (
        b"(DELAYFILE (TIMESCALE 1ps) (CELL (CELLTYPE \"T\") (INSTANCE u) (DELAY (ABSOLUTE (IOPATH (posedge C) Q (1)) (iopath (NEGEDGE C) Q (2))))))",
        Answer::Entries(b"cell 78 u C Q 1000 1000 \ncell 105 u C Q 2000 2000 \n"),
    ),
    // Conditions: the last part is the path, and its place is the entry's.
    (
        b"(DELAYFILE (TIMESCALE 1ps) (CELL (CELLTYPE \"T\") (INSTANCE u) (DELAY (ABSOLUTE (COND B == 1'b0 (IOPATH A Y (0.050:0.055:0.058) (0.052))) (CONDELSE (IOPATH A Y (0.051) (0.060)))))))",
        Answer::Entries(b"cell 94 u A Y 50 58 \ncell 146 u A Y 51 60 \n"),
    ),
    (
        b"(DELAYFILE (TIMESCALE 1ps) (CELL (CELLTYPE \"T\") (INSTANCE u) (DELAY (ABSOLUTE (COND (IOPATH A Y (1)))))))",
        Answer::Entries(b"cell 84 u A Y 1000 1000 \n"),
    ),
    (
        b"(DELAYFILE (TIMESCALE 1ps) (CELL (CELLTYPE \"T\") (INSTANCE u) (DELAY (ABSOLUTE (COND \"name\" (a : (b)) (IOPATH A Y (RETAIN ())) (IOPATH A Y (1)))))))",
        Answer::Entries(b"cell 126 u A Y 1000 1000 \n"),
    ),
    // Wires, whose pins are cut at the last divider.
    (
        b"(DELAYFILE (TIMESCALE 1ps) (CELL (CELLTYPE \"T\") (INSTANCE ) (DELAY (ABSOLUTE (INTERCONNECT u1.Q u2.A (1) (2))))))",
        Answer::Entries(b"wire 77 - u1|Q u2|A 1000 2000 \n"),
    ),
    (
        b"(DELAYFILE (TIMESCALE 1ps) (CELL (CELLTYPE \"T\") (INSTANCE ) (DELAY (ABSOLUTE (INTERCONNECT in a.b.c ())))))",
        Answer::Entries(b"wire 77 - -|in a.b|c - - \n"),
    ),
    (
        b"(DELAYFILE (TIMESCALE 1ps) (CELL (CELLTYPE \"T\") (INSTANCE u) (DELAY (ABSOLUTE (IOPATH A Y (1)) (INTERCONNECT x y (1)) (IOPATH B Y (2))))))",
        Answer::Entries(
            b"cell 78 u A Y 1000 1000 \nwire 95 u -|x -|y 1000 1000 \ncell 118 u B Y 2000 2000 \n",
        ),
    ),
    // Groups that are read past.
    (
        b"(DELAYFILE (TIMESCALE 1ps) (CELL (CELLTYPE \"T\") (INSTANCE u) (DELAY (PATHPULSE A Y (1)) (PATHPULSEPERCENT \"x\") (ABSOLUTE) (absolute (IOPATH A Y (1)))) (DELAY)))",
        Answer::Entries(b"cell 132 u A Y 1000 1000 \n"),
    ),
];

static PATHS_THAT_ARE_REFUSED: [(&'static [u8], Answer); 60] = [
    // A path of another shape.
    (
        b"(DELAYFILE (TIMESCALE 1ps) (CELL (CELLTYPE \"T\") (INSTANCE u) (DELAY (ABSOLUTE (IOPATH A Y)))))",
        Answer::Syntax(78),
    ),
    (
        b"(DELAYFILE (TIMESCALE 1ps) (CELL (CELLTYPE \"T\") (INSTANCE u) (DELAY (ABSOLUTE (IOPATH A (1))))))",
        Answer::Syntax(78),
    ),
    (
        b"(DELAYFILE (TIMESCALE 1ps) (CELL (CELLTYPE \"T\") (INSTANCE u) (DELAY (ABSOLUTE (IOPATH A (posedge Y) (1))))))",
        Answer::Syntax(78),
    ),
    (
        b"(DELAYFILE (TIMESCALE 1ps) (CELL (CELLTYPE \"T\") (INSTANCE u) (DELAY (ABSOLUTE (IOPATH (edge A) Y (1))))))",
        Answer::Syntax(78),
    ),
    (
        b"(DELAYFILE (TIMESCALE 1ps) (CELL (CELLTYPE \"T\") (INSTANCE u) (DELAY (ABSOLUTE (IOPATH (posedge A B) Y (1))))))",
        Answer::Syntax(78),
    ),
    (
        b"(DELAYFILE (TIMESCALE 1ps) (CELL (CELLTYPE \"T\") (INSTANCE u) (DELAY (ABSOLUTE (IOPATH (posedge) Y (1))))))",
        Answer::Syntax(78),
    ),
    (
        b"(DELAYFILE (TIMESCALE 1ps) (CELL (CELLTYPE \"T\") (INSTANCE u) (DELAY (ABSOLUTE (IOPATH \"A\" Y (1))))))",
        Answer::Syntax(78),
    ),
    (
        b"(DELAYFILE (TIMESCALE 1ps) (CELL (CELLTYPE \"T\") (INSTANCE u) (DELAY (ABSOLUTE (IOPATH A Y 1)))))",
        Answer::Syntax(78),
    ),
    (
        b"(DELAYFILE (TIMESCALE 1ps) (CELL (CELLTYPE \"T\") (INSTANCE u) (DELAY (ABSOLUTE (IOPATH A Y (1) x)))))",
        Answer::Syntax(78),
    ),
    (
        b"(DELAYFILE (TIMESCALE 1ps) (CELL (CELLTYPE \"T\") (INSTANCE u) (DELAY (ABSOLUTE (IOPATH)))))",
        Answer::Syntax(78),
    ),
    (
        b"(DELAYFILE (TIMESCALE 1ps) (CELL (CELLTYPE \"T\") (INSTANCE u) (DELAY (ABSOLUTE (IOPATH A Y (1)(2)(3)(4)(5)(6)(7)(8)(9)(10)(11)(12)(13))))))",
        Answer::Syntax(78),
    ),
    // A value of another shape.
    (
        b"(DELAYFILE (TIMESCALE 1ps) (CELL (CELLTYPE \"T\") (INSTANCE u) (DELAY (ABSOLUTE (IOPATH A Y (1 2))))))",
        Answer::Syntax(78),
    ),
    (
        b"(DELAYFILE (TIMESCALE 1ps) (CELL (CELLTYPE \"T\") (INSTANCE u) (DELAY (ABSOLUTE (IOPATH A Y (1:2))))))",
        Answer::Syntax(78),
    ),
    (
        b"(DELAYFILE (TIMESCALE 1ps) (CELL (CELLTYPE \"T\") (INSTANCE u) (DELAY (ABSOLUTE (IOPATH A Y (:))))))",
        Answer::Syntax(78),
    ),
    (
        b"(DELAYFILE (TIMESCALE 1ps) (CELL (CELLTYPE \"T\") (INSTANCE u) (DELAY (ABSOLUTE (IOPATH A Y (1:2:3:4))))))",
        Answer::Syntax(78),
    ),
    (
        b"(DELAYFILE (TIMESCALE 1ps) (CELL (CELLTYPE \"T\") (INSTANCE u) (DELAY (ABSOLUTE (IOPATH A Y (1:2:3 4))))))",
        Answer::Syntax(78),
    ),
    (
        b"(DELAYFILE (TIMESCALE 1ps) (CELL (CELLTYPE \"T\") (INSTANCE u) (DELAY (ABSOLUTE (IOPATH A Y (\"1\"))))))",
        Answer::Syntax(78),
    ),
    (
        b"(DELAYFILE (TIMESCALE 1ps) (CELL (CELLTYPE \"T\") (INSTANCE u) (DELAY (ABSOLUTE (IOPATH A Y ((1) (2) (3) (4)))))))",
        Answer::Syntax(78),
    ),
    (
        b"(DELAYFILE (TIMESCALE 1ps) (CELL (CELLTYPE \"T\") (INSTANCE u) (DELAY (ABSOLUTE (IOPATH A Y ((1) 2))))))",
        Answer::Syntax(78),
    ),
    (
        b"(DELAYFILE (TIMESCALE 1ps) (CELL (CELLTYPE \"T\") (INSTANCE u) (DELAY (ABSOLUTE (IOPATH A Y ((1:2)))))))",
        Answer::Syntax(78),
    ),
    (
        b"(DELAYFILE (TIMESCALE 1ps) (CELL (CELLTYPE \"T\") (INSTANCE u) (DELAY (ABSOLUTE (IOPATH A Y (((1))))))))",
        Answer::Syntax(78),
    ),
    // A path that keeps its old value, which goes before its shape and its numbers.
    (
        b"(DELAYFILE (TIMESCALE 1ps) (CELL (CELLTYPE \"T\") (INSTANCE u) (DELAY (ABSOLUTE (IOPATH A Y (RETAIN (1)) (1))))))",
        Answer::LeftOut(b"RETAIN", 78),
    ),
    (
        b"(DELAYFILE (TIMESCALE 1ps) (CELL (CELLTYPE \"T\") (INSTANCE u) (DELAY (ABSOLUTE (IOPATH A Y (x) (retain (1)))))))",
        Answer::LeftOut(b"retain", 78),
    ),
    (
        b"(DELAYFILE (TIMESCALE 1ps) (CELL (CELLTYPE \"T\") (INSTANCE u) (DELAY (ABSOLUTE (IOPATH (RETAIN) (Retain))))))",
        Answer::LeftOut(b"RETAIN", 78),
    ),
    (
        b"(DELAYFILE (TIMESCALE 1ps) (CELL (CELLTYPE \"T\") (INSTANCE u) (DELAY (ABSOLUTE (IOPATH A Y ((RETAIN (1))))))))",
        Answer::Syntax(78),
    ),
    // A number that is none, or too great.
    (
        b"(DELAYFILE (TIMESCALE 1ps) (CELL (CELLTYPE \"T\") (INSTANCE u) (DELAY (ABSOLUTE (IOPATH A Y (1) (2:x:y))))))",
        Answer::Number(97),
    ),
    (
        b"(DELAYFILE (TIMESCALE 1ps) (CELL (CELLTYPE \"T\") (INSTANCE u) (DELAY (ABSOLUTE (IOPATH A Y (1e8))))))",
        Answer::Number(91),
    ),
    (
        b"(DELAYFILE (TIMESCALE 1ps) (CELL (CELLTYPE \"T\") (INSTANCE u) (DELAY (ABSOLUTE (COND a (IOPATH A Y (-)))))))",
        Answer::Number(99),
    ),
    (
        b"(DELAYFILE (TIMESCALE 1ps) (CELL (CELLTYPE \"T\") (INSTANCE u) (DELAY (ABSOLUTE (INTERCONNECT a b (1.2.3))))))",
        Answer::Number(97),
    ),
    (
        b"(DELAYFILE (TIMESCALE 1ps) (CELL (CELLTYPE \"T\") (INSTANCE u) (DELAY (ABSOLUTE (IOPATH A Y (x)) (IOPATH A)))))",
        Answer::Number(91),
    ),
    (
        b"(DELAYFILE (TIMESCALE 1ps) (CELL (CELLTYPE \"T\") (INSTANCE u) (DELAY (ABSOLUTE (IOPATH A) (IOPATH A Y (x))))))",
        Answer::Syntax(78),
    ),
    (
        b"(DELAYFILE (TIMESCALE 1ps) (CELL (CELLTYPE \"T\") (INSTANCE u) (DELAY (ABSOLUTE (IOPATH A Y (x) y)))))",
        Answer::Syntax(78),
    ),
    // A condition of another shape is at fault itself for what is in it.
    (
        b"(DELAYFILE (TIMESCALE 1ps) (CELL (CELLTYPE \"T\") (INSTANCE u) (DELAY (ABSOLUTE (COND)))))",
        Answer::Syntax(78),
    ),
    (
        b"(DELAYFILE (TIMESCALE 1ps) (CELL (CELLTYPE \"T\") (INSTANCE u) (DELAY (ABSOLUTE (COND a)))))",
        Answer::Syntax(78),
    ),
    (
        b"(DELAYFILE (TIMESCALE 1ps) (CELL (CELLTYPE \"T\") (INSTANCE u) (DELAY (ABSOLUTE (COND a (IOPATH A))))))",
        Answer::Syntax(78),
    ),
    (
        b"(DELAYFILE (TIMESCALE 1ps) (CELL (CELLTYPE \"T\") (INSTANCE u) (DELAY (ABSOLUTE (COND (IOPATH A Y (1)) a)))))",
        Answer::Syntax(78),
    ),
    (
        b"(DELAYFILE (TIMESCALE 1ps) (CELL (CELLTYPE \"T\") (INSTANCE u) (DELAY (ABSOLUTE (COND a (COND b (IOPATH A Y (1))))))))",
        Answer::Syntax(78),
    ),
    (
        b"(DELAYFILE (TIMESCALE 1ps) (CELL (CELLTYPE \"T\") (INSTANCE u) (DELAY (ABSOLUTE (COND a (INTERCONNECT A Y (1)))))))",
        Answer::Syntax(78),
    ),
    (
        b"(DELAYFILE (TIMESCALE 1ps) (CELL (CELLTYPE \"T\") (INSTANCE u) (DELAY (ABSOLUTE (CONDELSE)))))",
        Answer::Syntax(78),
    ),
    (
        b"(DELAYFILE (TIMESCALE 1ps) (CELL (CELLTYPE \"T\") (INSTANCE u) (DELAY (ABSOLUTE (CONDELSE a (IOPATH A Y (1)))))))",
        Answer::Syntax(78),
    ),
    (
        b"(DELAYFILE (TIMESCALE 1ps) (CELL (CELLTYPE \"T\") (INSTANCE u) (DELAY (ABSOLUTE (COND a (IOPATH A Y (RETAIN (1)) (1)))))))",
        Answer::LeftOut(b"RETAIN", 78),
    ),
    (
        b"(DELAYFILE (TIMESCALE 1ps) (CELL (CELLTYPE \"T\") (INSTANCE u) (DELAY (ABSOLUTE (CONDELSE (IOPATH A (RETAIN (1))))))))",
        Answer::LeftOut(b"RETAIN", 78),
    ),
    (
        b"(DELAYFILE (TIMESCALE 1ps) (CELL (CELLTYPE \"T\") (INSTANCE u) (DELAY (ABSOLUTE (CONDELSE a (IOPATH A Y (RETAIN (1)) (1)))))))",
        Answer::LeftOut(b"RETAIN", 78),
    ),
    (
        b"(DELAYFILE (TIMESCALE 1ps) (CELL (CELLTYPE \"T\") (INSTANCE u) (DELAY (ABSOLUTE (COND (IOPATH A Y (RETAIN (1)) (1)) a)))))",
        Answer::Syntax(78),
    ),
    // A wire of another shape.
    (
        b"(DELAYFILE (TIMESCALE 1ps) (CELL (CELLTYPE \"T\") (INSTANCE u) (DELAY (ABSOLUTE (INTERCONNECT a b)))))",
        Answer::Syntax(78),
    ),
    (
        b"(DELAYFILE (TIMESCALE 1ps) (CELL (CELLTYPE \"T\") (INSTANCE u) (DELAY (ABSOLUTE (INTERCONNECT (posedge a) b (1))))))",
        Answer::Syntax(78),
    ),
    (
        b"(DELAYFILE (TIMESCALE 1ps) (CELL (CELLTYPE \"T\") (INSTANCE u) (DELAY (ABSOLUTE (INTERCONNECT a (1))))))",
        Answer::Syntax(78),
    ),
    // Groups that are left out, and that can't stand there.
    (
        b"(DELAYFILE (TIMESCALE 1ps) (CELL (CELLTYPE \"T\") (INSTANCE u) (DELAY (ABSOLUTE (PORT a (1))))))",
        Answer::LeftOut(b"PORT", 78),
    ),
    (
        b"(DELAYFILE (TIMESCALE 1ps) (CELL (CELLTYPE \"T\") (INSTANCE u) (DELAY (ABSOLUTE (NetDelay n (1))))))",
        Answer::LeftOut(b"NetDelay", 78),
    ),
    (
        b"(DELAYFILE (TIMESCALE 1ps) (CELL (CELLTYPE \"T\") (INSTANCE u) (DELAY (ABSOLUTE (DEVICE (1))))))",
        Answer::LeftOut(b"DEVICE", 78),
    ),
    (
        b"(DELAYFILE (TIMESCALE 1ps) (CELL (CELLTYPE \"T\") (INSTANCE u) (DELAY (INCREMENT (IOPATH)))))",
        Answer::LeftOut(b"INCREMENT", 68),
    ),
    (
        b"(DELAYFILE (TIMESCALE 1ps) (CELL (CELLTYPE \"T\") (INSTANCE u) (DELAY (ABSOLUTE (SETUP D C (1))))))",
        Answer::Syntax(78),
    ),
    (
        b"(DELAYFILE (TIMESCALE 1ps) (CELL (CELLTYPE \"T\") (INSTANCE u) (DELAY (ABSOLUTE (\"IOPATH\" A Y (1))))))",
        Answer::Syntax(78),
    ),
    (
        b"(DELAYFILE (TIMESCALE 1ps) (CELL (CELLTYPE \"T\") (INSTANCE u) (DELAY (ABSOLUTE ((IOPATH A Y (1)))))))",
        Answer::Syntax(78),
    ),
    (
        b"(DELAYFILE (TIMESCALE 1ps) (CELL (CELLTYPE \"T\") (INSTANCE u) (DELAY (ABSOLUTE ()))))",
        Answer::Syntax(78),
    ),
    (
        b"(DELAYFILE (TIMESCALE 1ps) (CELL (CELLTYPE \"T\") (INSTANCE u) (DELAY (ABSOLUTE (\\IOPATH A Y (1))))))",
        Answer::Syntax(78),
    ),
    (
        b"(DELAYFILE (TIMESCALE 1ps) (CELL (CELLTYPE \"T\") (INSTANCE u) (DELAY (IOPATH A Y (1)))))",
        Answer::Syntax(68),
    ),
    (
        b"(DELAYFILE (TIMESCALE 1ps) (CELL (CELLTYPE \"T\") (INSTANCE u) (DELAY (ABSOLUTE x))))",
        Answer::Syntax(68),
    ),
    (
        b"(DELAYFILE (TIMESCALE 1ps) (CELL (CELLTYPE \"T\") (INSTANCE u) (DELAY (ABSOLUTE : (IOPATH A)))))",
        Answer::Syntax(68),
    ),
    (
        b"(DELAYFILE (TIMESCALE 1ps) (CELL (CELLTYPE \"T\") (INSTANCE u) (DELAY \"x\" (INCREMENT))))",
        Answer::Syntax(61),
    ),
];

#[test]
fn paths_and_wires(rt: HostRuntime) {
    for (text, answer) in &PATHS_AND_WIRES {
        assert!(rt;
            is_answered(rt.alloc(), text, *answer),
            "{}",
            text.escape_ascii()
        );
    }
}

#[test]
fn paths_that_are_refused(rt: HostRuntime) {
    for (text, answer) in &PATHS_THAT_ARE_REFUSED {
        assert!(rt;
            is_answered(rt.alloc(), text, *answer),
            "{}",
            text.escape_ascii()
        );
    }
}
