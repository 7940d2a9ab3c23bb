ghost use Rattle.std.specs.Prelude.{◌≡◌, ◌≤◌, length, drop};
ghost use Rattle.hold_vlex.specs.Front.{attribute_end};
ghost use Rattle.hold_vlex.specs.inner.Past.{within_after, is_plain};

use hold_text::stands_at;

/// Where a byte of an attribute stands.
#[derive(Clone, Copy, Debug)]
pub enum Within {
    /// In no string.
    Plain,
    /// In a string.
    Quoted,
    /// After a backslash in a string.
    Slashed,
}

impl Within {
    fn is_plain(self) -> bool
        ensures { result ≡ is_plain self }
    {
        matches!(self, Within::Plain)
    }

    /// Where the next byte stands, after the byte b that stands here.
    fn after(self, b: u8) -> Within
        ensures { result ≡ within_after self b }
    {
        match self {
            Within::Plain if b == b'"' => Within::Quoted,
            Within::Plain => Within::Plain,
            Within::Quoted if b == b'"' => Within::Plain,
            Within::Quoted if b == b'\\' => Within::Slashed,
            Within::Quoted | Within::Slashed => Within::Quoted,
        }
    }
}

/// The place after the end of the attribute, in a text that begins with the attribute's opening sign.
#[tactic(auto, using(crate::proofs::PastLemmas::end_from_next))]
pub fn attribute_end(text: &[u8]) -> Option<usize>
    requires { 2 ≤ length text.now }
    ensures { result ≡ attribute_end 2 (drop 2 text.now) }
{
    let mut within = Within::Plain;
    for i in 2..text.len() {
        if within.is_plain() && text[i] == b'*' && stands_at(text, i + 1, b')') {
            return Some(i + 2);
        }
        within = within.after(text[i]);
    }
    None
}
