//! A hundred small graphs of a fixed generator, against the slow body.
ghost use Rattle.std.specs.Prelude.{◌≤◌};

use crate::parts::{Shape, parts_of};
use crate::walked::{has_cycle, is_site};
use hold_base::{Memory, PinNo, SiteNo, Stop};
use hold_graph::{Arc, Cycle, Graph};
use std::alloc::Global;
use std::test::Fail;

/// Numbers that look random, always the same.
#[derive(Drop)]
struct Numbers(u64);

impl Numbers {
    /// A number below n; 0 where n is 0.
    fn below(&mut self, n: u32) -> u32
        ensures { result ≤ n }
    {
        self.0 = self
            .0
            .wrapping_mul(6364136223846793005)
            .wrapping_add(1442695040888963407);
        if n == 0 {
            return 0;
        }
        ((self.0 >> 33) as u32) % n
    }

    fn some(&mut self, alloc: Global, most: u32, pins: u32) -> Result<Vec<u32>, Memory> {
        let mut some = Vec::new(alloc);
        for _turn in 0..self.below(most) {
            some.push(self.below(pins))?;
        }
        Ok(some)
    }

    /// Arcs; where `upward`, each runs to a pin of a higher number.
    fn arcs(
        &mut self,
        alloc: Global,
        pins: u32,
        upward: bool,
    ) -> Result<Vec<(u32, u32, bool)>, Memory> {
        let mut arcs = Vec::new(alloc);
        for _turn in 0..self.below(25) {
            let a = self.below(pins);
            let b = self.below(pins);
            if !upward || a < b {
                arcs.push((a, b, self.below(2) == 0))?;
            }
        }
        Ok(arcs)
    }
}

/// Whether an arc of the shape leads from the one pin to the other.
fn has_arc(arcs: &[(u32, u32, bool)], from: PinNo, to: PinNo) -> bool {
    arcs.iter().any(|(a, b, _wire)| *a == from.0 && *b == to.0)
}

/// Whether the pins go round in the arcs, are different, and begin with the least.
fn is_cycle(arcs: &[(u32, u32, bool)], pins: &[PinNo]) -> bool {
    let [first, .., last] = pins else {
        return match pins {
            [only] => has_arc(arcs, *only, *only),
            _ => false,
        };
    };
    has_arc(arcs, *last, *first)
        && pins.windows(2).all(|pair| match pair {
            [a, b] => has_arc(arcs, *a, *b),
            _ => false,
        })
        && pins.iter().all(|pin| first.0 <= pin.0)
        && pins.iter().all(|pin| pins.iter().filter(|other| **other == *pin).count() == 1)
}

fn place_in(order: &[PinNo], pin: PinNo) -> Option<usize> {
    order.iter().position(|other| *other == pin)
}

/// Whether each arc runs forward.
fn runs_forward(arcs: &[Arc], order: &[PinNo]) -> bool {
    arcs.iter().all(|arc| match (place_in(order, arc.from), place_in(order, arc.to)) {
        (Some(from), Some(to)) => from < to,
        _ => false,
    })
}

/// Whether the pin's arcs and site are told as the shape has them.
fn is_pin_told(shape: Shape<'_>, graph: &Graph, pin: u32) -> bool {
    if pin >= graph.parts().pins {
        return false;
    }
    let incoming = graph.incoming(PinNo(pin)).len();
    let outgoing = graph.outgoing(PinNo(pin)).len();
    let ends = shape.arcs.iter().filter(|arc| arc.1 == pin).count();
    let begins = shape.arcs.iter().filter(|arc| arc.0 == pin).count();
    let place = place_in(graph.sites(), PinNo(pin));
    let site = graph.site_of(PinNo(pin));
    let same = match (place, site) {
        (Some(place), Some(SiteNo(site))) => place == site as usize,
        (None, None) => true,
        _ => false,
    };
    incoming == ends && outgoing == begins && same && place.is_some() == is_site(shape, pin)
}

/// Whether the graph is that of the shape.
fn is_graph(shape: Shape<'_>, graph: &Graph) -> bool {
    graph.order().len() == shape.pins as usize
        && runs_forward(graph.parts().arcs.as_slice(), graph.order())
        && (0..graph.parts().pins).all(|pin| is_pin_told(shape, graph, pin))
        && graph.site_of(PinNo(shape.pins)).is_none()
}

/// How a shape is answered.
#[derive(Clone, Copy)]
enum Answer {
    /// By a cycle.
    Cycle,
    /// By a graph without a site.
    NoSite,
    /// By a graph with a site or more.
    Sites,
}

/// How the shape is answered, where the slow body has it so too.
fn answer_of(alloc: Global, shape: Shape<'_>) -> Option<Answer> {
    if shape.arcs.len() > 4194304 {
        return None;
    }
    let Ok(parts) = parts_of(alloc, shape) else {
        return None;
    };
    match Graph::make(alloc, parts) {
        Ok(graph) if !has_cycle(shape) && is_graph(shape, &graph) => {
            if graph.sites().is_empty() {
                Some(Answer::NoSite)
            } else {
                Some(Answer::Sites)
            }
        }
        Err(Stop::Fault(Cycle { pins })) if is_cycle(shape.arcs, pins.as_slice()) => Some(
            Answer::Cycle,
        ),
        _ => None,
    }
}

/// The same of the next shape. Where `upward`, it has no cycle.
fn next_answer(
    alloc: Global,
    numbers: &mut Numbers,
    upward: bool,
) -> Result<Option<Answer>, Memory> {
    let pins = 1 + numbers.below(12);
    let arcs = numbers.arcs(alloc, pins, upward)?;
    let launches = numbers.some(alloc, 6, pins)?;
    let captures = numbers.some(alloc, 6, pins)?;
    let clocks = numbers.some(alloc, 2, pins)?;
    let keeps = numbers.some(alloc, 3, pins)?;
    let shape = Shape {
        pins,
        arcs: arcs.as_slice(),
        launches: launches.as_slice(),
        captures: captures.as_slice(),
        clocks: clocks.as_slice(),
        keeps: keeps.as_slice(),
    };
    Ok(answer_of(alloc, shape))
}

#[test]
fn a_hundred_random_shapes_are_as_the_slow_body_has_them(rt: HostRuntime) -> Result<(), Fail> {
    let mut numbers = Numbers(7);
    let mut cycles = 0u32;
    let mut with_sites = 0u32;
    for turn in 0..100 {
        match next_answer(rt.alloc(), &mut numbers, turn % 3 != 0)? {
            Some(Answer::Cycle) => cycles = cycles.saturating_add(1),
            Some(Answer::Sites) => with_sites = with_sites.saturating_add(1),
            Some(Answer::NoSite) => {}
            None => assert!(rt; false, "shape {turn}"),
        }
    }
    // Each answer comes often enough to mean something.
    assert_eq!(rt; cycles, 29);
    assert_eq!(rt; with_sites, 18);
    Ok(())
}
