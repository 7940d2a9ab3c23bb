ghost use Rattle.std.specs.Prelude.{◌≡◌, drop};
ghost use Rattle.hold_text.specs.Blanks.{is_blank, heads};

/// White space: space, tab, newline, carriage return or form feed.
pub fn is_blank(b: u8) -> bool
    ensures { result ≡ is_blank b }
{
    matches!(b, b' ' | b'\t' | b'\n' | b'\r' | 0x0c)
}

/// Whether the text has the byte b at that place.
pub fn stands_at(text: &[u8], at: usize, b: u8) -> bool
    ensures { result ≡ heads b (drop at text.now) }
{
    at < text.len() && text[at] == b
}
