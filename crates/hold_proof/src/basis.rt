use crate::places::Places;
use hold_base::PinNo;
use hold_graph::{Listed, Problem};

/// What leaves speak of: a problem with its sites, the places of its launches and captures, and listed paths.
#[derive(Clone, Copy)]
pub(crate) struct Basis<'a> {
    pub problem: &'a Problem,
    pub sites: &'a [PinNo],
    pub launches: &'a Places,
    pub captures: &'a Places,
    pub paths: &'a [Listed],
}
