//! Cells, and the order of faults.

use crate::answer::{Answer, is_answered};

static CELLS_OF_INSTANCES: [(&'static [u8], Answer); 2] = [
    (
        b"(DELAYFILE (TIMESCALE 1ps) (CELL (CELLTYPE \"\") (INSTANCE)) (cell (celltype \"x y\") (instance a) (delay (absolute (iopath A Y (1)))) (timingcheck (hold D C (2)))) (CELL (CELLTYPE \"T\") (INSTANCE) (DELAY (ABSOLUTE (IOPATH A Y (1))))))",
        Answer::Entries(
            b"cell 112 a A Y 1000 1000 \ncheck 144 a D C - 2000 \ncell 210 - A Y 1000 1000 \n",
        ),
    ),
    // Two cells of one instance, and several groups of one sort.
    (
        b"(DELAYFILE (TIMESCALE 1ps) (CELL (CELLTYPE \"T\") (INSTANCE a) (DELAY (ABSOLUTE (IOPATH A Y (1))) (ABSOLUTE (IOPATH A Y (2))))) (CELL (CELLTYPE \"T\") (INSTANCE a) (DELAY (ABSOLUTE (IOPATH A Y (3))))))",
        Answer::Entries(
            b"cell 78 a A Y 1000 1000 \ncell 106 a A Y 2000 2000 \ncell 177 a A Y 3000 3000 \n",
        ),
    ),
];

static CELLS_THAT_ARE_REFUSED: [(&'static [u8], Answer); 25] = [
    // A cell of another shape.
    (b"(DELAYFILE (TIMESCALE 1ps) (CELL))", Answer::Syntax(27)),
    (
        b"(DELAYFILE (TIMESCALE 1ps) (CELL (CELLTYPE \"T\")))",
        Answer::Syntax(27),
    ),
    (
        b"(DELAYFILE (TIMESCALE 1ps) (CELL (INSTANCE u) (CELLTYPE \"T\")))",
        Answer::Syntax(27),
    ),
    (
        b"(DELAYFILE (TIMESCALE 1ps) (CELL (INSTANCE u)))",
        Answer::Syntax(27),
    ),
    (
        b"(DELAYFILE (TIMESCALE 1ps) (CELL (CELLTYPE T) (INSTANCE u)))",
        Answer::Syntax(27),
    ),
    (
        b"(DELAYFILE (TIMESCALE 1ps) (CELL (CELLTYPE) (INSTANCE u)))",
        Answer::Syntax(27),
    ),
    (
        b"(DELAYFILE (TIMESCALE 1ps) (CELL (CELLTYPE \"T\" \"T\") (INSTANCE u)))",
        Answer::Syntax(27),
    ),
    (
        b"(DELAYFILE (TIMESCALE 1ps) (CELL (CELLTYPE \"T\") (INSTANCE u v)))",
        Answer::Syntax(27),
    ),
    (
        b"(DELAYFILE (TIMESCALE 1ps) (CELL (CELLTYPE \"T\") (INSTANCE \"u\")))",
        Answer::Syntax(27),
    ),
    (
        b"(DELAYFILE (TIMESCALE 1ps) (CELL (CELLTYPE \"T\") (INSTANCE (u))))",
        Answer::Syntax(27),
    ),
    (
        b"(DELAYFILE (TIMESCALE 1ps) (CELL (CELLTYPE \"T\") (INSTANCE u) x))",
        Answer::Syntax(27),
    ),
    (
        b"(DELAYFILE (TIMESCALE 1ps) (CELL x (CELLTYPE \"T\") (INSTANCE u)))",
        Answer::Syntax(27),
    ),
    (
        b"(DELAYFILE (TIMESCALE 1ps) (CELL (CELLTYPE \"T\") (INSTANCE u) (FOO) \"x\" (IOPATH)))",
        Answer::Syntax(27),
    ),
    // Any instance is left out, whatever else is at fault with the cell.
    (
        b"(DELAYFILE (CELL (CELLTYPE \"INV\") (INSTANCE *)))",
        Answer::LeftOut(b"*", 11),
    ),
    (
        b"(DELAYFILE (TIMESCALE 1ps) (CELL (CELLTYPE \"T\") (instance *) (FOO)))",
        Answer::LeftOut(b"*", 27),
    ),
    (
        b"(DELAYFILE (TIMESCALE 1ps) (CELL (INSTANCE *)))",
        Answer::LeftOut(b"*", 27),
    ),
    (
        b"(DELAYFILE (TIMESCALE 1ps) (CELL (CELLTYPE \"T\") (INSTANCE u) (FOO) (INSTANCE *) x))",
        Answer::LeftOut(b"*", 27),
    ),
    (
        b"(DELAYFILE (TIMESCALE 1ps) (CELL (CELLTYPE \"T\") (INSTANCE * x)))",
        Answer::Syntax(27),
    ),
    (
        b"(DELAYFILE (TIMESCALE 1ps) (CELL (CELLTYPE \"T\") (INSTANCE u) (FOO (INSTANCE *))))",
        Answer::Syntax(61),
    ),
    // A second type or instance is at fault itself.
    (
        b"(DELAYFILE (TIMESCALE 1ps) (CELL (CELLTYPE \"T\") (INSTANCE u) (CELLTYPE \"T\")))",
        Answer::Syntax(61),
    ),
    (
        b"(DELAYFILE (TIMESCALE 1ps) (CELL (CELLTYPE \"T\") (INSTANCE u) (DELAY) (INSTANCE v)))",
        Answer::Syntax(69),
    ),
    // The first group at fault is answered, whatever its fault.
    (
        b"(DELAYFILE (TIMESCALE 1ps) (CELL (CELLTYPE \"T\") (INSTANCE u) (DELAY (ABSOLUTE (IOPATH A Y (x)))) (FOO)) (CELL))",
        Answer::Number(91),
    ),
    (
        b"(DELAYFILE (TIMESCALE 1ps) (CELL (CELLTYPE \"T\") (INSTANCE u) (FOO) (DELAY (ABSOLUTE (IOPATH A Y (x)) (PORT)))) (CELL))",
        Answer::Syntax(61),
    ),
    (
        b"(DELAYFILE (TIMESCALE 1ps) (CELL (CELLTYPE \"T\") (INSTANCE u) (DELAY (ABSOLUTE (PORT) (IOPATH A Y (x))))) (CELL))",
        Answer::LeftOut(b"PORT", 78),
    ),
    (
        b"(DELAYFILE (TIMESCALE 1ps) (CELL (CELLTYPE \"T\") (INSTANCE u)) (CELL))",
        Answer::Syntax(62),
    ),
];

#[test]
fn cells_of_instances(rt: HostRuntime) {
    for (text, answer) in &CELLS_OF_INSTANCES {
        assert!(rt;
            is_answered(rt.alloc(), text, *answer),
            "{}",
            text.escape_ascii()
        );
    }
}

#[test]
fn cells_that_are_refused(rt: HostRuntime) {
    for (text, answer) in &CELLS_THAT_ARE_REFUSED {
        assert!(rt;
            is_answered(rt.alloc(), text, *answer),
            "{}",
            text.escape_ascii()
        );
    }
}
