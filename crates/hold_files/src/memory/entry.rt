ghost use Rattle.std.specs.Prelude.{◌≡◌, ◌≤◌, ◌↔◌, ◌⊎◌, ◌++◌, [], ℕ, List, length, take, drop, IsTrue, IsErr, IfOk, OnOk, OnErr};
ghost use Rattle.hold_files.specs.Shelf.{Reserved, IsFull, growth, risen, bytes_at};

use super::buffer::Buffer;
use crate::files::Failed;
use std::alloc::AllocError;

/// A file in memory, with the counts of its faults.
#[derive(Debug, Drop)]
pub struct Entry {
    pub buffer: Buffer,
    pub is_output: bool,
    pub read_faults: u64,
    pub write_faults: u64,
}

impl Entry {
    ghost use Rattle.hold_files.specs.inner.Entries.{new_entry};

    /// A file with this text and no fault.
    pub fn new(bytes: Vec<u8>, room: usize, is_output: bool) -> Result<Entry, AllocError>
        ensures { IfOk result (λ e. e ≡ new_entry bytes.items room is_output) }
    {
        Ok(Entry {
            buffer: Buffer::new(bytes, room)?,
            is_output,
            read_faults: 0,
            write_faults: 0,
        })
    }

    /// Reads, or counts a fault where the call is to fail.
    pub fn read_at(&mut self, is_refused: bool, at: u64, into: &mut [u8]) -> Result<usize, Failed>
        ensures failed { IsErr result ↔ IsTrue is_refused }
        ensures count { IfOk result (λ n. n ≡ bytes_at at into.old self.old.buffer.text) }
        ensures copied { IfOk result (λ n. take n into.new ≡ take n (drop at self.old.buffer.text)) }
        ensures ok { OnOk result (self.new ≡ self.old) }
        ensures err { OnErr result (self.new ≡ record self.old { read_faults = risen self.old.read_faults }) }
        ensures text { self.new.buffer.text ≡ self.old.buffer.text }
        ensures output { self.new.is_output ≡ self.old.is_output }
        ensures room { self.new.buffer.room ≡ self.old.buffer.room }
        ensures reads { self.old.read_faults ≤ self.new.read_faults }
        ensures writes { self.new.write_faults ≡ self.old.write_faults }
    {
        if is_refused {
            self.read_faults = self.read_faults.saturating_add(1);
            return Err(Failed);
        }
        Ok(copy_from(self.buffer.text(), at as usize, into))
    }

    /// Makes the file empty, or counts a fault where the call is to fail or the file is no output.
    pub fn start(&mut self, is_refused: bool) -> Result<(), Failed>
        ensures failed { IsErr result ↔ (IsTrue is_refused ⊎ (¬ IsTrue self.old.is_output)) }
        ensures ok { OnOk result (self.new ≡ record self.old { buffer = record { text = []; room = self.old.buffer.room } }) }
        ensures err { OnErr result (self.new ≡ record self.old { write_faults = risen self.old.write_faults }) }
        ensures output { self.new.is_output ≡ self.old.is_output }
        ensures room { self.new.buffer.room ≡ self.old.buffer.room }
        ensures reads { self.new.read_faults ≡ self.old.read_faults }
        ensures writes { self.old.write_faults ≤ self.new.write_faults }
    {
        if is_refused || !self.is_output {
            self.write_faults = self.write_faults.saturating_add(1);
            return Err(Failed);
        }
        self.buffer.clear();
        Ok(())
    }

    /// Appends what fits of a piece, or counts a fault where the call is to fail, the file is no output or
    /// nothing fits.
    pub fn put(&mut self, is_refused: bool, piece: &[u8]) -> Result<usize, Failed>
        ensures failed { IsErr result ↔ (IsTrue is_refused ⊎ (¬ IsTrue self.old.is_output) ⊎ IsFull self.old.buffer piece.now) }
        ensures count { IfOk result (λ n. n ≡ growth self.old.buffer piece.now) }
        ensures ok { IfOk result (λ n. self.new ≡ record self.old { buffer = record { text = self.old.buffer.text ++ take n piece.now; room = self.old.buffer.room } }) }
        ensures err { OnErr result (self.new ≡ record self.old { write_faults = risen self.old.write_faults }) }
        ensures output { self.new.is_output ≡ self.old.is_output }
        ensures room { self.new.buffer.room ≡ self.old.buffer.room }
        ensures reads { self.new.read_faults ≡ self.old.read_faults }
        ensures writes { self.old.write_faults ≤ self.new.write_faults }
    {
        if !is_refused && self.is_output {
            if let Ok(count) = self.buffer.append(piece) {
                return Ok(count);
            }
        }
        self.write_faults = self.write_faults.saturating_add(1);
        Err(Failed)
    }
}

/// Copies bytes of a text from this place on to the front of a slice, and answers their number.
fn copy_from(text: &[u8], at: usize, into: &mut [u8]) -> usize
    ensures count { result ≡ bytes_at at into.old text.now }
    ensures copied { take result into.new ≡ take result (drop at text.now) }
{
    let count = into.len().min(text.len().saturating_sub(at));
    if count > 0 {
        into[..count].copy_from_slice(&text[at..at + count]);
    }
    count
}
