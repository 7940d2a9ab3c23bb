//! The arrivals at each pin of a problem, early and late, in each corner: the worst sums over all walks from launches. By them
//! whether every check is met, the worst end of the checked paths, and a path that has the least slack at a capture.
#![tactic(auto)]

mod added;
mod arrivals;
mod back;
mod corners;
mod end;
mod offer;
mod pass;
mod required;
mod slack;
mod spread;
mod times;
mod worse;
mod worst;

pub use arrivals::Arrivals;
pub use end::End;
