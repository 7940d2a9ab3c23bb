ghost use Rattle.std.specs.Prelude.{◌≡◌, ℕ, List, [], IfOk, OnOk};
ghost use Rattle.std.specs.Option.{option_map_or};
ghost use Rattle.hold_files.specs.Memory.{entry_of};
ghost use Rattle.hold_files.specs.inner.Entries.{IsSet, IsTextAdded, IsOutputAdded, entry_in_texts, entry_with_outputs};

use super::buffer::Buffer;
use super::entry::Entry;
use hold_base::{Memory, Name};
use std::alloc::Global;
use std::collections::BTreeMap;

/// The files of these texts, none of them an output. Of several texts of one name the first counts.
pub fn entries_of(
    alloc: Global,
    texts: Vec<(Name, Vec<u8>)>,
) -> Result<BTreeMap<Name, Entry>, Memory>
    ensures { IfOk result (λ entries. (q : List ℕ) → entry_of entries q ≡ entry_in_texts q texts.items) }
{
    let mut entries = BTreeMap::new(alloc);
    for (name, bytes) in texts {
        add_text(&mut entries, name, bytes)?;
    }
    Ok(entries)
}

/// Makes these names outputs with this room. One that has a text begins with it, and each other one empty.
pub fn add_outputs(
    alloc: Global,
    entries: &mut BTreeMap<Name, Entry>,
    outputs: Vec<Name>,
    room: usize,
) -> Result<(), Memory>
    ensures { OnOk result ((q : List ℕ) → entry_of entries.new q ≡ entry_with_outputs q outputs.items room (entry_of entries.old q)) }
{
    for name in outputs {
        add_output(alloc, entries, name, room)?;
    }
    Ok(())
}

/// Adds a file that is no output, where there is none of that name.
fn add_text(entries: &mut BTreeMap<Name, Entry>, name: Name, bytes: Vec<u8>) -> Result<(), Memory>
    ensures { OnOk result (IsTextAdded entries.old entries.new name bytes.items) }
{
    if entries.contains_key(&name) {
        return Ok(());
    }
    set_entry(entries, name, Entry::new(bytes, 0, false)?)
}

/// Makes a file an output; it keeps its text.
fn add_output(
    alloc: Global,
    entries: &mut BTreeMap<Name, Entry>,
    name: Name,
    room: usize,
) -> Result<(), Memory>
    ensures { OnOk result (IsOutputAdded entries.old entries.new name room) }
{
    let bytes = take_text(alloc, entries, &name);
    set_entry(entries, name, Entry::new(bytes, room, true)?)
}

/// Puts a file at a name.
fn set_entry(entries: &mut BTreeMap<Name, Entry>, name: Name, entry: Entry) -> Result<(), Memory>
    ensures { OnOk result (IsSet entries.old entries.new name (Some entry)) }
{
    entries.insert(name, entry)?;
    Ok(())
}

/// Takes a file out, and gives its text, which is empty where there is no such file.
fn take_text(alloc: Global, entries: &mut BTreeMap<Name, Entry>, name: &Name) -> Vec<u8>
    ensures text { result.items ≡ option_map_or (λ e. e.buffer.text) (entry_of entries.old name.now) [] }
    ensures gone { IsSet entries.old entries.new name.now None }
{
    match entries.remove(name) {
        Some(entry) => entry.buffer.into_bytes(),
        None => Vec::new(alloc),
    }
}
