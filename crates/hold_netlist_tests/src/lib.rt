//! Tests of the public calls of `hold_netlist` and `hold_vwrite`: what is made, said and written, with ample memory.
#![tactic(auto)]

#[cfg(test)]
mod copies;
#[cfg(test)]
mod names;
#[cfg(test)]
mod parts;
#[cfg(test)]
mod said;
#[cfg(test)]
mod tables;
#[cfg(test)]
mod text;
