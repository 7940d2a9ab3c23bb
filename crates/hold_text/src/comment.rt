ghost use Rattle.std.specs.Prelude.{◌≡◌, ◌≤◌, length, drop};
ghost use Rattle.hold_text.specs.Blanks.{line_len, comment_end};

use crate::blank::stands_at;

/// How many bytes stand before the end of the line.
pub fn line_len(text: &[u8]) -> usize
    ensures value { result ≡ line_len text.now }
    ensures within { result ≤ length text.now }
{
    text.iter().take_while(|b| **b != b'\n').count()
}

/// The place after the end of the comment, in a text that begins with the comment's opening sign, which is two bytes long.
pub fn comment_end(text: &[u8]) -> Option<usize>
    requires { 2 ≤ length text.now }
    ensures { result ≡ comment_end 2 (drop 2 text.now) }
{
    for i in 2..text.len() {
        if text[i] == b'*' && stands_at(text, i + 1, b'/') {
            return Some(i + 2);
        }
    }
    None
}
