ghost use Rattle.std.specs.Prelude.{◌≡◌, is_some};
ghost use Rattle.hold_words.specs.Rows.{first_row};
ghost use Rattle.hold_vlex.specs.Front.{line_directives};

use hold_words::WordTable;

const LINE_DIRECTIVES: WordTable<5> = WordTable {
    rows: &[
        b"timescale",
        b"celldefine",
        b"endcelldefine",
        b"default_nettype",
        b"resetall",
    ],
};

/// Whether the directive of that name is read past with the rest of its line.
#[tactic(auto, unfolding(crate::specs::Front::line_directives))]
pub fn is_line_directive(name: &[u8]) -> bool
    ensures { result ≡ is_some (first_row name.now line_directives) }
{
    LINE_DIRECTIVES.find(name).is_some()
}
