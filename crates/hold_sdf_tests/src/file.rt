//! A file as tools write it.

use crate::answer::{Answer, is_answered};

pub(crate) static SDF: &[u8] = b"(DELAYFILE
 (SDFVERSION \"3.0\") (DESIGN \"e\") (DIVIDER /) (TIMESCALE 1ps)
 (CELL (CELLTYPE \"INV\") (INSTANCE u2)
  (DELAY (ABSOLUTE
   (COND B == 1'b0 (IOPATH A Y (0.050:0.055:0.058) (0.052)))
   (CONDELSE (IOPATH A Y (0.051) (0.060))))))
 (CELL (CELLTYPE \"DFF\") (INSTANCE u3)
  (TIMINGCHECK (SETUPHOLD D (posedge C) (0.040) (-0.030)))))
";

#[test]
fn a_small_file_is_read(rt: HostRuntime) {
    let lines =
        b"cell 148 u2 A Y 50 58 \ncell 203 u2 A Y 51 60 \ncheck 289 u3 D C 40 -30 \n".as_slice();
    assert!(rt; is_answered(rt.alloc(), SDF, Answer::Entries(lines)));
}
