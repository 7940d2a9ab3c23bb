ghost use Rattle.std.specs.Prelude.{◌<◌};
ghost use Rattle.hold_base.specs.declared.number.PinNo.{PinNo as Pin};
ghost use Rattle.hold_build.specs.Listing.{StandsOnce};
ghost use Rattle.hold_told.specs.Told.{HasRoom};
ghost use Rattle.hold_told.specs.inner.Told.{AreJoined, NamesPin, target};

use crate::place::Place;
use crate::slots::{add_delay, add_span, add_time};
use crate::told::Told;
use hold_graph::Graph;

/// Joins what is said at a place to what was told.
pub(crate) fn join(told: &mut Told, graph: &Graph, place: Place)
    requires room { HasRoom graph.now told.old }
    requires once { StandsOnce graph.now.arcs }
    requires within { (p : Pin) → NamesPin (target place) p → p.0 < graph.now.pins }
    ensures { AreJoined graph.now place told.old told.new }
{
    match place {
        Place::Arc {
            from,
            to,
            wire,
            clocked,
            span,
        } => {
            add_span(&mut told.spans, graph, from, to, wire, span);
            add_delay(&mut told.delays, clocked, to, span);
        }
        Place::Check { pin, setup, hold } => {
            add_time(&mut told.setups, pin, setup);
            add_time(&mut told.holds, pin, hold);
        }
    }
}
