//! White space and comments of texts, which the readers of this project have alike.
#![tactic(auto)]

mod blank;
mod comment;

pub use blank::{is_blank, stands_at};
pub use comment::{comment_end, line_len};
