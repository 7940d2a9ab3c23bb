ghost use Rattle.std.specs.Prelude.{◌≡◌, ℕ, List, ◌<◌, ◌≤◌, length, vec_len, IfOk, IsErrOf};
ghost use Rattle.hold_files.specs.Told.{Rose, OnlyReads};

use crate::files::{Failed, Files};
use hold_base::Name;
use std::alloc::{AllocError, Global};

/// Bytes asked for at a time.
const PIECE: usize = 65536;

/// Why a file wasn't read whole.
#[derive(Clone, Copy, Debug, PartialEq, Eq)]
pub enum ReadError {
    /// A read failed.
    Fault,
    /// The content is longer than the limit.
    TooLong,
    Memory,
}

impl From<Failed> for ReadError {
    ghost use Rattle.std.specs.Prelude.{◌≡◌};
    ghost use Rattle.hold_files.specs.declared.reading.ReadError.TheVariants.{Fault};

    ghost from_gives = { λ _ e. e ≡ Fault };

    fn from(_error: Failed) -> ReadError {
        ReadError::Fault
    }
}

impl From<AllocError> for ReadError {
    ghost use Rattle.std.specs.Prelude.{◌≡◌};
    ghost use Rattle.hold_files.specs.declared.reading.ReadError.TheVariants.{Memory as OutOfMemory};

    ghost from_gives = { λ _ e. e ≡ OutOfMemory };

    fn from(_error: AllocError) -> ReadError {
        ReadError::Memory
    }
}

/// The whole content of a file, of at most `limit` bytes (`u64::MAX` for no limit).
pub fn read_whole<F: Files>(
    alloc: Global,
    files: &mut F,
    name: &Name,
    limit: u64,
) -> Result<Vec<u8>, ReadError>
    ensures whole { IfOk result (λ bytes. (text : List ℕ) → (F.told files.old).content name.now ≡ Some text
        → bytes.items ≡ text) }
    ensures within { IfOk result (λ bytes. vec_len bytes ≤ limit) }
    ensures too_long { IsErrOf result ReadError.TooLong → (text : List ℕ)
        → (F.told files.old).content name.now ≡ Some text → limit < length text }
    ensures fault { IsErrOf result ReadError.Fault
        → Rose ((F.told files.old).read_faults name.now) ((F.told files.new).read_faults name.now) }
    ensures stays { OnlyReads (F.told files.old) (F.told files.new) }
{
    let mut piece = zeros(alloc, PIECE)?;
    let mut text = Vec::new(alloc);
    loop {
        let place = text.len() as u64;
        let count = files.read_at(name, place, piece.as_mut_slice())?;
        if count == 0 {
            return Ok(text);
        }
        if count as u64 > limit - place {
            return Err(ReadError::TooLong);
        }
        text.extend_from_slice(&piece[..count])?;
    }
}

/// That many bytes, all 0.
fn zeros(alloc: Global, count: usize) -> Result<Vec<u8>, AllocError>
    ensures { IfOk result (λ bytes. vec_len bytes ≡ count) }
{
    vec![in alloc; 0u8; count]
}
