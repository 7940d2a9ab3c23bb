ghost use Rattle.std.specs.Prelude.{◌≡◌};
ghost use Rattle.hold_certtext.specs.inner.Reading.{kind_of};

/// What a line of a certificate says. Its first word tells.
#[derive(Clone, Copy, PartialEq, Eq)]
pub(crate) enum Kind {
    Head,
    Repaired,
    Infeasible,
    Count,
    Path,
    Split,
    Leaf,
    End,
}

/// The kind of the lines that begin with this word, None where no line does. The nodes of a tree, which are the most, come first.
pub(crate) fn kind_of(word: &[u8]) -> Option<Kind>
    ensures { result ≡ kind_of word.now }
{
    if word == b"leaf".as_slice() {
        Some(Kind::Leaf)
    } else if word == b"split".as_slice() {
        Some(Kind::Split)
    } else if word == b"path".as_slice() {
        Some(Kind::Path)
    } else if word == b"count".as_slice() {
        Some(Kind::Count)
    } else if word == b"hold-certificate".as_slice() {
        Some(Kind::Head)
    } else if word == b"repaired".as_slice() {
        Some(Kind::Repaired)
    } else if word == b"infeasible".as_slice() {
        Some(Kind::Infeasible)
    } else if word == b"end".as_slice() {
        Some(Kind::End)
    } else {
        None
    }
}
