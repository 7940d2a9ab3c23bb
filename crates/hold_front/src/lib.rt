//! The line that says why an input is refused.
#![tactic(auto)]

mod fault_text;
mod line;
mod refusal;
mod said;

pub use line::refusal_line;
pub use refusal::Refusal;
