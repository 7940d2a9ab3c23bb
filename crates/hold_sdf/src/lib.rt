//! Reads a text of the Standard Delay Format (a profile of IEEE 1497-2001) as the list of its entries, or answers its first fault.
#![tactic(auto)]

mod cell;
mod check;
mod entry;
mod fault;
mod file;
mod iopath;
mod items;
pub mod keyword;
mod number;
mod path;
mod pin;
mod scene;
mod settings;
mod span;
mod timing;
mod value;

pub use entry::{Entry, PinPath};
pub use fault::SdfFault;
pub use file::read;
