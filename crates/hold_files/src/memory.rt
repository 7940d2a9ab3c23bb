ghost use Rattle.std.specs.Prelude.{◌≡◌, ◌↔◌, ℕ, List, [], ◌++◌, ◌<◌, ◌≤◌, length, take, drop, Contains, IsTrue, IsSome, IsErr, IfOk, OnOk, OnErr};
ghost use Rattle.hold_files.specs.Told.{Told, Rose, Keeps, KeepsOrEmpties, KeepsSaid, SameReadFaults, SameWriteFaults, OnlyReads, OnlyWrites, OnlySays};

mod buffer;
mod entries;
mod entry;

use self::buffer::Buffer;
use self::entries::{add_outputs, entries_of};
use self::entry::Entry;
use crate::files::{Failed, Files};
use hold_base::{List, Memory, Name};
use std::alloc::Global;
use std::collections::BTreeMap;

/// For each sort of call, the numbers from 0 of the calls that fail.
#[derive(Clone, Debug, Drop, PartialEq, Eq)]
pub struct Fails {
    pub reads: List<u64>,
    pub starts: List<u64>,
    pub puts: List<u64>,
    pub says: List<u64>,
}

/// How many calls of each sort there were.
#[derive(Clone, Copy, Debug)]
struct Calls {
    reads: u64,
    starts: u64,
    puts: u64,
    says: u64,
}

/// Files in memory, which fail where they are told to, and count no other fault. Their room is reserved from the
/// start.
#[derive(Drop)]
pub struct MemoryFiles {
    entries: BTreeMap<Name, Entry>,
    said: Buffer,
    fails: Fails,
    calls: Calls,
    /// Faults of all names that have no entry.
    other_read_faults: u64,
    other_write_faults: u64,
    say_faults: u64,
}

impl MemoryFiles {
    ghost use Rattle.hold_files.specs.Memory.{told_of, IsOutput, IsRoomOf, IsFresh, HasNoFault};
    ghost use Rattle.hold_files.specs.FirstContent.{first_content, is_listed_name};

    /// Files with these texts. Of several texts of one name the first counts. An output begins with its
    /// text, or empty. Takes `room` bytes for each output and for what is said, so that no later call takes
    /// memory.
    pub fn new(
        alloc: Global,
        texts: Vec<(Name, Vec<u8>)>,
        outputs: Vec<Name>,
        room: usize,
        fails: Fails,
    ) -> Result<MemoryFiles, Memory>
        ensures contents { IfOk result (λ m. (q : List ℕ) → (told_of m).content q ≡ first_content q texts.items outputs.items) }
        ensures said { IfOk result (λ m. (told_of m).said ≡ Some []) }
        ensures faults { IfOk result (λ m. HasNoFault (told_of m)) }
        ensures outputs { IfOk result (λ m. (q : List ℕ) → IsOutput m q ↔ IsTrue (is_listed_name q outputs.items)) }
        ensures room { IfOk result (λ m. IsRoomOf m room) }
        ensures fresh { IfOk result (λ m. IsFresh m fails) }
    {
        let mut entries = entries_of(alloc, texts)?;
        add_outputs(alloc, &mut entries, outputs, room)?;
        Ok(MemoryFiles {
            entries,
            said: Buffer::new(Vec::new(alloc), room)?,
            fails,
            calls: Calls {
                reads: 0,
                starts: 0,
                puts: 0,
                says: 0,
            },
            other_read_faults: 0,
            other_write_faults: 0,
            say_faults: 0,
        })
    }

    /// Lends the bytes said.
    pub fn said(&self) -> &[u8]
        ensures { (told_of self.now).said ≡ Some result.now }
    {
        self.said.text()
    }
}

impl Files for MemoryFiles {
    ghost use Rattle.hold_files.specs.Memory.{told_of, RisesAlone, ReadFails, StartFails, PutFails, SayFails, IsNext, put_growth, say_growth};
    ghost use Rattle.hold_files.specs.Shelf.{bytes_at, risen};

    ghost told = { told_of };

    fn read_at(&mut self, name: &Name, at: u64, into: &mut [u8]) -> Result<usize, Failed>
        ensures count { IfOk result (λ n. n ≤ length into.old) }
        ensures copied { IfOk result (λ n. (text : List ℕ) → (told_of self.old).content name.now ≡ Some text
            → take n into.new ≡ take n (drop at text)) }
        ensures end { IfOk result (λ n. (text : List ℕ) → (told_of self.old).content name.now ≡ Some text
            → n ≡ 0 → 0 < length into.old → length text ≤ at) }
        ensures failed { OnErr result (Rose ((told_of self.old).read_faults name.now) ((told_of self.new).read_faults name.now)) }
        ensures stays { OnlyReads (told_of self.old) (told_of self.new) }

        ensures cause { IsErr result ↔ ReadFails self.old name.now }
        ensures counted { OnOk result (SameReadFaults (told_of self.old) (told_of self.new)) }
        ensures alone { RisesAlone self.old name.now (told_of self.old).read_faults (told_of self.new).read_faults }
        ensures all { IfOk result (λ n. (text : List ℕ) → (told_of self.old).content name.now ≡ Some text
            → n ≡ bytes_at at into.old text) }
        ensures next { IsNext self.old self.new (record self.old.calls { reads = risen self.old.calls.reads }) }
    {
        let is_refused = is_listed(&self.fails.reads, self.calls.reads);
        self.calls.reads = self.calls.reads.saturating_add(1);
        let Some(entry) = self.entries.get_mut(name) else {
            self.other_read_faults = self.other_read_faults.saturating_add(1);
            return Err(Failed);
        };
        entry.read_at(is_refused, at, into)
    }

    fn start(&mut self, name: &Name) -> Result<(), Failed>
        ensures emptied { OnOk result (IsSome ((told_of self.old).content name.now) → (told_of self.new).content name.now ≡ Some []) }
        ensures failed { OnErr result (Rose ((told_of self.old).write_faults name.now) ((told_of self.new).write_faults name.now)) }
        ensures left { OnErr result (KeepsOrEmpties (told_of self.old) (told_of self.new) name.now) }
        ensures stays { OnlyWrites (told_of self.old) (told_of self.new) name.now }

        ensures cause { IsErr result ↔ StartFails self.old name.now }
        ensures counted { OnOk result (SameWriteFaults (told_of self.old) (told_of self.new)) }
        ensures alone { RisesAlone self.old name.now (told_of self.old).write_faults (told_of self.new).write_faults }
        ensures next { IsNext self.old self.new (record self.old.calls { starts = risen self.old.calls.starts }) }
    {
        let is_refused = is_listed(&self.fails.starts, self.calls.starts);
        self.calls.starts = self.calls.starts.saturating_add(1);
        let Some(entry) = self.entries.get_mut(name) else {
            self.other_write_faults = self.other_write_faults.saturating_add(1);
            return Err(Failed);
        };
        entry.start(is_refused)
    }

    fn put(&mut self, name: &Name, piece: &[u8]) -> Result<usize, Failed>
        ensures count { IfOk result (λ n. n ≤ length piece.now) }
        ensures some { IfOk result (λ n. 0 < length piece.now → 0 < n) }
        ensures appended { IfOk result (λ n. (text : List ℕ) → (told_of self.old).content name.now ≡ Some text
            → (told_of self.new).content name.now ≡ Some (text ++ take n piece.now)) }
        ensures failed { OnErr result (Rose ((told_of self.old).write_faults name.now) ((told_of self.new).write_faults name.now)) }
        ensures left { OnErr result (Keeps (told_of self.old) (told_of self.new) name.now) }
        ensures stays { OnlyWrites (told_of self.old) (told_of self.new) name.now }

        ensures cause { IsErr result ↔ PutFails self.old name.now piece.now }
        ensures counted { OnOk result (SameWriteFaults (told_of self.old) (told_of self.new)) }
        ensures alone { RisesAlone self.old name.now (told_of self.old).write_faults (told_of self.new).write_faults }
        ensures fits { IfOk result (λ n. n ≡ put_growth self.old name.now piece.now) }
        ensures next { IsNext self.old self.new (record self.old.calls { puts = risen self.old.calls.puts }) }
    {
        let is_refused = is_listed(&self.fails.puts, self.calls.puts);
        self.calls.puts = self.calls.puts.saturating_add(1);
        let Some(entry) = self.entries.get_mut(name) else {
            self.other_write_faults = self.other_write_faults.saturating_add(1);
            return Err(Failed);
        };
        entry.put(is_refused, piece)
    }

    fn say(&mut self, piece: &[u8]) -> Result<usize, Failed>
        ensures count { IfOk result (λ n. n ≤ length piece.now) }
        ensures some { IfOk result (λ n. 0 < length piece.now → 0 < n) }
        ensures appended { IfOk result (λ n. (said : List ℕ) → (told_of self.old).said ≡ Some said
            → (told_of self.new).said ≡ Some (said ++ take n piece.now)) }
        ensures failed { OnErr result (Rose (told_of self.old).say_faults (told_of self.new).say_faults) }
        ensures left { OnErr result (KeepsSaid (told_of self.old) (told_of self.new)) }
        ensures stays { OnlySays (told_of self.old) (told_of self.new) }

        ensures cause { IsErr result ↔ SayFails self.old piece.now }
        ensures counted { OnOk result ((told_of self.new).say_faults ≡ (told_of self.old).say_faults) }
        ensures fits { IfOk result (λ n. n ≡ say_growth self.old piece.now) }
        ensures next { IsNext self.old self.new (record self.old.calls { says = risen self.old.calls.says }) }
    {
        let is_refused = is_listed(&self.fails.says, self.calls.says);
        self.calls.says = self.calls.says.saturating_add(1);
        if !is_refused {
            if let Ok(count) = self.said.append(piece) {
                return Ok(count);
            }
        }
        self.say_faults = self.say_faults.saturating_add(1);
        Err(Failed)
    }
}

/// Whether a number is in the list.
fn is_listed(numbers: &List<u64>, number: u64) -> bool
    ensures { IsTrue result ↔ Contains numbers.now number }
{
    numbers.as_slice().contains(&number)
}
