//! The sites of graphs that are built.

use crate::answer::graph;
use std::alloc::Global;

/// Whether these are the sites of the netlist, where a job has these lines.
fn are_sites(alloc: Global, netlist: &[u8], lines: &[u8], sites: &[u32]) -> bool {
    match graph(alloc, netlist, lines) {
        Some(graph) => graph
            .sites()
            .iter()
            .map(|site| site.0)
            .eq(sites.iter().copied()),
        None => false,
    }
}

static ROWS: [(&'static [u8], &'static [u8], &'static [u32]); 5] = [
    (
        b"module e(clk, y); input clk; output y; wire a; wire b; DFF u1(.C(clk), .D(1'b0), .Q(a)); INV u2(.A(a), .Y(b)); DFF u3(.C(clk), .D(b), .Q(y)); endmodule",
        b"",
        &[3, 6],
    ),
    // An assignment, and a kept pin.
    (
        b"module e(clk, y); input clk; output y; wire a; wire b; wire b2; assign b2 = b; DFF u1(.C(clk), .D(1'b0), .Q(a)); INV u2(.A(a), .Y(b)); DFF u3(.C(clk), .D(b2), .Q(y)); endmodule",
        b"",
        &[3, 6],
    ),
    (
        b"module e(clk, y); input clk; output y; wire a; wire b; wire b2; assign b2 = b; DFF u1(.C(clk), .D(1'b0), .Q(a)); INV u2(.A(a), .Y(b)); DFF u3(.C(clk), .D(b2), .Q(y)); endmodule",
        b"keep = [{ inst = \"u2\", pin = \"A\" }]\n",
        &[6],
    ),
    // A branch that reaches a clock pin.
    (
        b"module e(clk, y); input clk; output y; wire a; wire b; DFF u1(.C(clk), .D(1'b0), .Q(a)); INV u2(.A(a), .Y(b)); DFF u3(.C(clk), .D(b), .Q(y)); DFF u4(.C(b), .D(1'b0), .Q()); endmodule",
        b"",
        &[6],
    ),
    // Two ways that meet again.
    (
        b"module n(clk); input clk; wire q, x, y; DFF u1(.C(clk), .D(1'b0), .Q(q)); INV u2(.A(q), .Y(x)); NAND2 u3(.A(q), .B(x), .Y(y)); DFF u4(.C(clk), .D(y), .Q()); endmodule",
        b"",
        &[3, 5, 6, 9],
    ),
];

#[test]
fn sites_are_wires_ends_on_checked_paths(rt: HostRuntime) {
    let alloc = rt.alloc();
    for (netlist, lines, sites) in &ROWS {
        assert!(rt; are_sites(alloc, netlist, lines, sites));
    }
}
