ghost use Rattle.std.specs.Prelude.{◌≡◌};
ghost use Rattle.hold_certtext.specs.inner.Reading.{next_stage};

use crate::kind::Kind;

/// Where the text of a certificate stands.
#[derive(Clone, Copy, PartialEq, Eq)]
pub(crate) enum Stage {
    /// Before its first line.
    Head,
    /// Before the claim.
    Claim,
    /// Behind the cost of a repair, where counts may stand.
    Counts,
    /// Behind the counts, where paths may stand.
    Paths,
    /// Behind a node of the tree.
    Tree,
    /// Behind its last line.
    Whole,
}

/// The one table of lines: where the text stands behind a line of this kind, None where none may stand at that stage.
pub(crate) fn next_stage(stage: Stage, kind: Kind) -> Option<Stage>
    ensures { result ≡ next_stage stage kind }
{
    match (stage, kind) {
        (Stage::Head, Kind::Head) => Some(Stage::Claim),
        (Stage::Claim, Kind::Repaired) => Some(Stage::Counts),
        (Stage::Claim, Kind::Infeasible) => Some(Stage::Paths),
        (Stage::Counts, Kind::Count) => Some(Stage::Counts),
        (Stage::Counts | Stage::Paths, Kind::Path) => Some(Stage::Paths),
        (Stage::Counts | Stage::Paths | Stage::Tree, Kind::Split | Kind::Leaf) => Some(Stage::Tree),
        (Stage::Tree, Kind::End) => Some(Stage::Whole),
        _ => None,
    }
}
