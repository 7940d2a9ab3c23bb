//! What every floor of `hold` speaks of: names, times, numbers of things and the limits to them, lists that contracts see as
//! lists, and the two ways in which a call can stop.
#![tactic(auto)]

pub mod limits;
mod list;
mod name;
mod number;
mod plan;
mod stop;
#[cfg(test)]
mod tests;
mod text;
mod time;

pub use list::List;
pub use name::{Name, is_printed};
pub use number::{
    CornerNo, InstNo, KindNo, NetNo, NodeNo, PathNo, PinNo, SearcherNo, SiteNo, VarNo,
};
pub use plan::{PlanFault, PlanLine};
pub use stop::{Memory, Stop, What};
pub use text::put_number;
pub use time::{Interval, Side};
