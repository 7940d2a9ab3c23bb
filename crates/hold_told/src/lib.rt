//! What the SDF entries of a corner tell of a netlist's timing graph: the span of each arc and launch, setups and holds.
#![tactic(auto)]

mod first_numbers;
mod indexed;
mod joining;
mod name_places;
mod named;
mod names;
mod place;
mod places;
mod port_bits;
mod slots;
mod stray;
mod telling;
mod told;
mod type_pins;

pub use stray::Stray;
pub use telling::tell;
pub use told::Told;
