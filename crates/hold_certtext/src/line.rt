ghost use Rattle.std.specs.Prelude.{◌≡◌, ◌++◌, IfSome, IfNone};
ghost use Rattle.hold_certtext.specs.Lines.{ended, IsLine};

use hold_text::line_len;

/// The first line of a text, without the newline that ends it, and what stands behind; None where no newline is left.
pub(crate) fn next_line(text: &[u8]) -> Option<(&[u8], &[u8])>
    ensures cut { IfSome result (λ cut. text.now ≡ ended cut.0.now ++ cut.1.now) }
    ensures line { IfSome result (λ cut. IsLine cut.0.now) }
    ensures none { IfNone result (IsLine text.now) }
{
    let (line, rest) = text.split_at(line_len(text));
    if rest.is_empty() {
        return None;
    }
    let (_, behind) = rest.split_at(1);
    Some((line, behind))
}
