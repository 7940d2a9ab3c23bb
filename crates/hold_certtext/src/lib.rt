//! The texts of certificates and plans. Each has one text: what is written is read again as it was, and a text is refused at the
//! first line that can't stand there.
#![tactic(auto)]

mod draft;
mod fault;
mod kind;
mod leaf;
mod line;
mod number;
mod pad;
mod part;
mod plan_draft;
mod plan_reader;
mod put;
mod put_node;
mod reader;
mod stage;
mod terms;
mod words;
mod writer;

pub use fault::CertFault;
pub use plan_reader::{know_one_plan, read_plan};
pub use reader::{know_one_certificate, read};
pub use writer::write;
