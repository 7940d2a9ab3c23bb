//! Counts of buffers, their cost, and the box of all counts.
ghost use Rattle.std.specs.Prelude.{IfOk};
ghost use Rattle.hold_graph.specs.Problem.{IsValid};

use crate::counted::{count_of, counts_with};
use crate::graphs::{NAND2, graph_of};
use crate::parts::Shape;
use crate::problems::problem_of;
use hold_base::{Memory, Stop};
use hold_graph::{Boxed, Cycle, Problem, cost};
use std::alloc::Global;
use std::test::Fail;

/// The problem over the graph of a shape, with two kinds of these costs, which are from 1 to 10^6.
fn problem_over(
    alloc: Global,
    shape: Shape<'_>,
    first: u64,
    second: u64,
) -> Result<Problem, Stop<Cycle>>
    ensures { IfOk result IsValid }
{
    let graph = graph_of(alloc, shape)?;
    let fits = graph.parts().pins <= 1048576
        && graph.parts().arcs.as_slice().len() <= 4194304
        && 1 <= first
        && first <= 1000000
        && 1 <= second
        && second <= 1000000;
    if !fits {
        return Err(Stop::Memory);
    }
    Ok(problem_of(alloc, graph, first, second)?)
}

#[test]
fn the_empty_counts_cost_nothing(rt: HostRuntime) -> Result<(), Fail> {
    let problem = problem_over(rt.alloc(), NAND2, 3, 5)?;
    let counts = counts_with(rt.alloc(), &problem, &[])?;
    // Four sites of two kinds.
    assert_eq!(rt; counts.as_slice(), [0u8; 8].as_slice());
    assert_eq!(rt; cost(&problem, &counts), 0);
    Ok(())
}

#[test]
fn a_set_count_is_there_alone_and_costs_its_kind(rt: HostRuntime) -> Result<(), Fail> {
    let problem = problem_over(rt.alloc(), NAND2, 3, 5)?;
    let counts = counts_with(rt.alloc(), &problem, &[(3, 2), (6, 1), (6, 16)])?;
    assert_eq!(rt; count_of(&counts, 3), Some(2));
    assert_eq!(rt; count_of(&counts, 6), Some(16));
    assert_eq!(rt; count_of(&counts, 7), Some(0));
    assert_eq!(rt; count_of(&counts, 8), None);
    assert_eq!(rt; counts.as_slice(), [0u8, 0, 0, 2, 0, 0, 16, 0].as_slice());
    // Two of the kind that costs 5, and sixteen of the one that costs 3.
    assert_eq!(rt; cost(&problem, &counts), 58);
    Ok(())
}

/// A launch, and a wire to each of so many captures.
fn put_star(arcs: &mut Vec<(u32, u32, bool)>, ends: &mut Vec<u32>, n: u32) -> Result<(), Memory> {
    for pin in 1..n {
        arcs.push((0, pin, true))?;
        ends.push(pin)?;
    }
    Ok(())
}

#[test]
fn a_cost_may_pass_four_thousand_million(rt: HostRuntime) -> Result<(), Fail> {
    let mut arcs = Vec::new(rt.alloc());
    let mut ends = Vec::new(rt.alloc());
    put_star(&mut arcs, &mut ends, 301)?;
    let star = Shape {
        pins: 301,
        arcs: arcs.as_slice(),
        launches: &[0],
        captures: ends.as_slice(),
        clocks: &[],
        keeps: &[],
    };
    let problem = problem_over(rt.alloc(), star, 1000000, 1000000)?;
    let mut sets = Vec::new(rt.alloc());
    for var in 0..600u32 {
        sets.push((var, 16u8))?;
    }
    let counts = counts_with(rt.alloc(), &problem, sets.as_slice())?;
    // 300 sites of two kinds, with sixteen each at the greatest cost.
    assert_eq!(rt; cost(&problem, &counts), 9600000000);
    Ok(())
}

#[test]
fn the_root_box_goes_from_none_to_the_chain_limit(rt: HostRuntime) -> Result<(), Fail> {
    let problem = problem_over(rt.alloc(), NAND2, 3, 5)?;
    let whole = Boxed::root(rt.alloc(), &problem)?;
    assert_eq!(rt; whole.low.as_slice(), [0u8; 8].as_slice());
    assert_eq!(rt; whole.high.as_slice(), [4u8; 8].as_slice());
    Ok(())
}
