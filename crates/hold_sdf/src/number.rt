ghost use Rattle.std.specs.Prelude.{◌≡◌, ℕ, Ok, Err};
ghost use Rattle.hold_base.specs.Answers.{Answers};
ghost use Rattle.hold_sdflex.specs.ItemsRead.{word_read};
ghost use Rattle.hold_sdf.specs.inner.Hulls.{number_at};

use crate::fault::SdfFault;
use hold_base::{Interval, Stop};
use hold_decimal::{Scale, to_fs};
use hold_sdflex::Atom;

/// The time that an atom spells.
pub(crate) fn number(atom: Atom<'_>, scale: Scale) -> Result<Interval, Stop<SdfFault>>
    ensures { Answers result (number_at scale.exponent (word_read atom.entry)) }
{
    match to_fs(atom.bytes, scale) {
        Ok(time) => Ok(time),
        Err(_) => Err(Stop::Fault(SdfFault::Number(atom.at))),
    }
}
