//! Where texts come from and go to: files by name and lines that are said, over any `Files`, with whole
//! reads and whole writes whose faults each have a cause.
#![tactic(auto)]

mod files;
mod host;
mod memory;
mod reading;
mod writing;

pub use files::{Failed, Files};
pub use host::HostFiles;
pub use memory::{Fails, MemoryFiles};
pub use reading::{ReadError, read_whole};
pub use writing::{say_whole, write_whole};
