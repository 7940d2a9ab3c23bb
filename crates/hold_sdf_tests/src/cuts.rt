//! Texts that end too early.

use crate::answer::{Answer, is_answered};
use crate::file::SDF;

// A text that is cut anywhere before its group's end is refused at its length, whatever it holds.
#[test]
fn cut_texts(rt: HostRuntime) {
    for len in 0..SDF.len() - 1 {
        assert!(rt;
            is_answered(rt.alloc(), &SDF[..len], Answer::Syntax(len as u64)),
            "cut at {len}"
        );
    }
}
