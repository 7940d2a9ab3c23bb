ghost use Rattle.std.specs.Prelude.{◌≡◌};
ghost use Rattle.hold_vparse.specs.inner.Found.{merged, found_ident};

use hold_vsyntax::tree::Ident;

/// Whichever of two identifiers stands first in the text.
pub(crate) fn soonest_of<'a>(found: Option<&'a Ident>, next: Option<&'a Ident>) -> Option<&'a Ident>
    ensures { found_ident result ≡ merged (found_ident found.entry) (found_ident next.entry) }
{
    match (found, next) {
        (Some(i), Some(j)) if j.at < i.at => next,
        (Some(_), _) => found,
        (None, _) => next,
    }
}
