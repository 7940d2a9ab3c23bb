//! Graphs by hand: rings, kept pins, branches to clock pins.

use crate::parts::{Shape, parts_of};
use hold_base::{Memory, PinNo, SiteNo, Stop};
use hold_graph::{Cycle, Graph};
use std::alloc::Global;
use std::test::Fail;

/// A register's output, a NAND2 with both inputs on it, an inverter behind, and the register's data pin. Pin 0 is the register's
/// output Q, 1 and 2 are the inputs A and B of the NAND2, 3 its output Y, 4 the inverter's input, 5 its output, 6 the data pin D,
/// 7 the clock pin C and 8 the port that drives the clock.
pub(crate) const NAND2: Shape<'static> = Shape {
    pins: 9,
    arcs: &[
        (0, 1, true),
        (0, 2, true),
        (1, 3, false),
        (2, 3, false),
        (3, 4, true),
        (4, 5, false),
        (5, 6, true),
        (8, 7, true),
    ],
    launches: &[0],
    captures: &[6],
    clocks: &[7],
    keeps: &[],
};

/// The graph of a shape that has no cycle.
pub(crate) fn graph_of(alloc: Global, shape: Shape<'_>) -> Result<Graph, Stop<Cycle>> {
    if shape.arcs.len() > 4194304 {
        return Err(Stop::Memory);
    }
    let parts = parts_of(alloc, shape)?;
    Graph::make(alloc, parts)
}

/// Whether the graph of the shape has these sites.
fn has_sites(alloc: Global, shape: Shape<'_>, sites: &[u32]) -> bool {
    match graph_of(alloc, shape) {
        Ok(graph) => graph
            .sites()
            .iter()
            .map(|site| site.0)
            .eq(sites.iter().copied()),
        Err(_) => false,
    }
}

/// Whether the shape is answered by a cycle of these pins.
fn has_cycle(alloc: Global, shape: Shape<'_>, pins: &[u32]) -> bool {
    match graph_of(alloc, shape) {
        Err(Stop::Fault(cycle)) => cycle
            .pins
            .as_slice()
            .iter()
            .map(|pin| pin.0)
            .eq(pins.iter().copied()),
        _ => false,
    }
}

#[test]
fn the_sites_of_a_nand_between_registers_are_its_wires_ends(rt: HostRuntime) {
    assert!(rt; has_sites(rt.alloc(), NAND2, &[1, 2, 4, 6]));
}

#[test]
fn a_kept_pin_is_no_site(rt: HostRuntime) {
    assert!(rt;
        has_sites(
            rt.alloc(),
            Shape {
                keeps: &[2, 6, 2],
                ..NAND2
            },
            &[1, 4]
        )
    );
}

#[test]
fn a_branch_that_reaches_a_clock_pin_is_no_site(rt: HostRuntime) {
    // The inverter's output also clocks a second register, by a wire to pin 7.
    let shape = Shape {
        arcs: &[
            (0, 1, true),
            (0, 2, true),
            (1, 3, false),
            (3, 4, true),
            (4, 5, false),
            (5, 6, true),
            (5, 7, true),
        ],
        ..NAND2
    };
    assert!(rt; has_sites(rt.alloc(), shape, &[6]));
}

#[test]
fn where_no_path_is_checked_there_is_no_site(rt: HostRuntime) {
    assert!(rt;
        has_sites(
            rt.alloc(),
            Shape {
                launches: &[8],
                ..NAND2
            },
            &[]
        )
    );
    assert!(rt;
        has_sites(
            rt.alloc(),
            Shape {
                captures: &[],
                ..NAND2
            },
            &[]
        )
    );
}

#[test]
fn a_pin_that_a_cell_arc_alone_ends_at_is_no_site(rt: HostRuntime) {
    assert!(rt;
        has_sites(
            rt.alloc(),
            Shape {
                captures: &[3],
                ..NAND2
            },
            &[1, 2]
        )
    );
}

#[test]
fn no_pins_have_no_sites(rt: HostRuntime) {
    let none = Shape {
        pins: 0,
        arcs: &[],
        launches: &[],
        captures: &[],
        clocks: &[],
        keeps: &[],
    };
    assert!(rt; has_sites(rt.alloc(), none, &[]));
}

#[test]
fn a_ring_of_inverters_is_shown_from_its_least_pin(rt: HostRuntime) {
    let ring = Shape {
        arcs: &[
            (8, 7, true),
            (5, 2, false),
            (2, 6, true),
            (6, 4, false),
            (4, 3, true),
            (3, 5, true),
        ],
        ..NAND2
    };
    assert!(rt; has_cycle(rt.alloc(), ring, &[2, 6, 4, 3, 5]));
}

#[test]
fn an_arc_from_a_pin_to_itself_is_a_cycle_of_one_pin(rt: HostRuntime) {
    let selfish = Shape {
        arcs: &[(0, 1, true), (1, 1, false), (1, 6, true)],
        ..NAND2
    };
    assert!(rt; has_cycle(rt.alloc(), selfish, &[1]));
}

#[test]
fn a_graph_lends_its_parts_and_its_arcs_by_their_ends(rt: HostRuntime) -> Result<(), Fail> {
    let graph = graph_of(rt.alloc(), NAND2)?;
    assert_eq!(rt; graph.parts().captures.as_slice(), [PinNo(6)].as_slice());
    assert_eq!(rt; graph.order().len(), 9);
    if graph.parts().pins == 9 {
        assert_eq!(rt; graph.incoming(PinNo(3)), [2, 3].as_slice());
        assert_eq!(rt; graph.outgoing(PinNo(0)), [0, 1].as_slice());
        assert_eq!(rt; graph.outgoing(PinNo(6)), [].as_slice());
    } else {
        assert!(rt; false);
    }
    assert_eq!(rt; graph.site_of(PinNo(4)), Some(SiteNo(2)));
    assert_eq!(rt; graph.site_of(PinNo(3)), None);
    assert_eq!(rt; graph.site_of(PinNo(4294967295)), None);
    Ok(())
}
