ghost use Rattle.std.specs.Prelude.{◌≡◌, IfOk};
ghost use Rattle.hold_base.specs.Answers.{IfStopFault};
ghost use Rattle.hold_sdf.specs.Entries.{path_in};

use crate::entry::PinPath;
use crate::fault::SdfFault;
use hold_base::{Memory, Name, Stop};
use hold_decimal::Scale;
use hold_sdflex::{last_bare, plain_name};
use std::alloc::Global;

/// What holds in a cell: the instance that it names, None for the design itself, the divider of paths and the scale of
/// numbers.
#[derive(Drop)]
pub(crate) struct Scene {
    pub(crate) inst: Option<Name>,
    pub(crate) divider: u8,
    pub(crate) scale: Scale,
}

/// A copy of an instance's name, which shares its bytes.
pub(crate) fn copy_of(inst: &Option<Name>) -> Result<Option<Name>, Memory>
    ensures { IfOk result (λ copy. copy ≡ inst.now) }
{
    match inst {
        Some(name) => {
            let copy = name.clone()?;
            Ok(Some(copy))
        }
        None => Ok(None),
    }
}

/// The pin that an atom names: an instance and its pin, cut at the last divider that no backslash made plain, or
/// without one a port.
#[tactic(auto, unfolding(crate::specs::Entries::path_in))]
pub(crate) fn path_in(alloc: Global, divider: u8, bytes: &[u8]) -> Result<PinPath, Memory>
    ensures { IfOk result (λ path. path ≡ path_in divider bytes.now) }
{
    match last_bare(divider, bytes) {
        Some(cut) => {
            let (inst, _) = bytes.split_at(cut);
            let (_, pin) = bytes.split_at(cut + 1);
            let inst = plain_name(alloc, inst)?;
            let pin = plain_name(alloc, pin)?;
            Ok(PinPath {
                inst: Some(inst),
                pin,
            })
        }
        None => {
            let pin = plain_name(alloc, bytes)?;
            Ok(PinPath { inst: None, pin })
        }
    }
}

/// The refusal of a group at this place.
pub(crate) fn syntax(at: u64) -> Stop<SdfFault>
    ensures { result ≡ Stop.Fault (SdfFault.Syntax at) }
{
    Stop::Fault(SdfFault::Syntax(at))
}

/// The refusal of a group at this place that has a word which is left out.
pub(crate) fn left_out(alloc: Global, word: &[u8], at: u64) -> Stop<SdfFault>
    ensures { IfStopFault result (λ fault. fault ≡ SdfFault.LeftOut word.now at) }
{
    match Name::from_bytes(alloc, word) {
        Ok(word) => Stop::Fault(SdfFault::LeftOut(word, at)),
        Err(Memory) => Stop::Memory,
    }
}
