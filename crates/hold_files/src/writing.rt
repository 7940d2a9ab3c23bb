ghost use Rattle.std.specs.Prelude.{◌≡◌, ℕ, List, ◌++◌, IsSome, OnOk, OnErr};
ghost use Rattle.hold_files.specs.Told.{Rose, OnlyWrites, OnlySays};
ghost use Rattle.hold_files.specs.Whole.{IsPartWritten, IsPartSaid};

use crate::files::{Failed, Files};
use hold_base::Name;

/// Makes a text the whole content of a file: one `start`, then `put` with the whole rest until nothing is
/// left.
pub fn write_whole<F: Files>(files: &mut F, name: &Name, text: &[u8]) -> Result<(), Failed>
    ensures written { OnOk result (IsSome ((F.told files.old).content name.now)
        → (F.told files.new).content name.now ≡ Some text.now) }
    ensures failed { OnErr result (Rose ((F.told files.old).write_faults name.now) ((F.told files.new).write_faults name.now)) }
    ensures left { OnErr result (IsPartWritten (F.told files.old) (F.told files.new) name.now text.now) }
    ensures stays { OnlyWrites (F.told files.old) (F.told files.new) name.now }
{
    files.start(name)?;
    let mut place = 0;
    while place < text.len() {
        place += files.put(name, &text[place..])?;
    }
    Ok(())
}

/// Appends a text to the bytes said: `say` with the whole rest until nothing is left.
pub fn say_whole<F: Files>(files: &mut F, text: &[u8]) -> Result<(), Failed>
    ensures said { OnOk result ((before : List ℕ) → (F.told files.old).said ≡ Some before
        → (F.told files.new).said ≡ Some (before ++ text.now)) }
    ensures failed { OnErr result (Rose (F.told files.old).say_faults (F.told files.new).say_faults) }
    ensures left { OnErr result (IsPartSaid (F.told files.old) (F.told files.new) text.now) }
    ensures stays { OnlySays (F.told files.old) (F.told files.new) }
{
    let mut place = 0;
    while place < text.len() {
        place += files.say(&text[place..])?;
    }
    Ok(())
}
