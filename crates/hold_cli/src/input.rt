ghost use Rattle.std.specs.Prelude.{◌≡◌, ◌<◌, ◌≤◌, ℕ, List, length, Some, vec_len, IfOk, IsErrOf};
ghost use Rattle.hold_files.specs.Told.{Rose, OnlyReads};
ghost use Rattle.hold_cli.specs.declared.outcome.Fault.{Fault as Refusal};
ghost use Rattle.hold_base.specs.Limits.{file_limit};

use crate::outcome::Fault;
use hold_base::{Memory, Name, limits};
use hold_files::{Files, ReadError, read_whole};
use std::alloc::{AllocError, Global};

/// Why the work on a job stops before anything is written.
#[derive(Debug, Drop)]
pub enum Stopped {
    /// The file of this name can't be read.
    Read(Name),
    Refused(Fault),
    Memory,
}

impl From<AllocError> for Stopped {
    ghost use Rattle.std.specs.Prelude.{◌≡◌};
    ghost use Rattle.hold_cli.specs.declared.input.Stopped.TheVariants.{Memory as OutOfMemory};

    ghost from_gives = { λ _ e. e ≡ OutOfMemory };

    fn from(_error: AllocError) -> Stopped {
        Stopped::Memory
    }
}

impl From<Memory> for Stopped {
    ghost use Rattle.std.specs.Prelude.{◌≡◌};
    ghost use Rattle.hold_cli.specs.declared.input.Stopped.TheVariants.{Memory as OutOfMemory};

    ghost from_gives = { λ _ e. e ≡ OutOfMemory };

    fn from(_error: Memory) -> Stopped {
        Stopped::Memory
    }
}

/// The whole text of an input file.
pub fn read_input<F: Files>(alloc: Global, files: &mut F, name: &Name) -> Result<Vec<u8>, Stopped>
    ensures whole { IfOk result (λ bytes. (text : List ℕ)
        → (F.told files.old).content name.now ≡ Some text → bytes.items ≡ text) }
    ensures within { IfOk result (λ bytes. vec_len bytes ≤ file_limit) }
    ensures read { (file : List ℕ) → IsErrOf result (Stopped.Read file) → file ≡ name.now }
    ensures read_cause { (file : List ℕ) → IsErrOf result (Stopped.Read file)
        → Rose ((F.told files.old).read_faults name.now) ((F.told files.new).read_faults name.now) }
    ensures refused { (fault : Refusal) → IsErrOf result (Stopped.Refused fault)
        → fault ≡ Fault.TooLong name.now }
    ensures too_long { (fault : Refusal) → IsErrOf result (Stopped.Refused fault) → (text : List ℕ)
        → (F.told files.old).content name.now ≡ Some text → file_limit < length text }
    ensures stays { OnlyReads (F.told files.old) (F.told files.new) }
{
    match read_whole(alloc, files, name, limits::FILE_BYTES) {
        Ok(text) => Ok(text),
        Err(ReadError::Fault) => Err(Stopped::Read(name.clone()?)),
        Err(ReadError::TooLong) => Err(Stopped::Refused(Fault::TooLong(name.clone()?))),
        Err(ReadError::Memory) => Err(Stopped::Memory),
    }
}
