ghost use Rattle.std.specs.Prelude.{◌≡◌, ◌↔◌, [], ◌++◌, take, IsErr, IfOk, OnErr};
ghost use Rattle.hold_files.specs.Shelf.{Reserved, IsFull, growth};

use crate::files::Failed;
use std::alloc::AllocError;
use std::marker::Model;

/// A text with room reserved for it, so that growing up to there takes no memory.
#[derive(Debug, Drop)]
pub struct Buffer {
    bytes: Vec<u8>,
    room: usize,
}

impl Model for Buffer {
    ghost use Rattle.std.specs.Prelude.{◌≤◌, vec_capacity};
    ghost use Rattle.hold_files.specs.Shelf.{Reserved};

    ghost Value = { Reserved };

    ghost view = { λ b. record { text = b.bytes.items; room = b.room } };

    ghost invariant = { λ b. b.room ≤ vec_capacity b.bytes };
}

impl Buffer {
    /// Takes the bytes over and reserves the room.
    pub fn new(mut bytes: Vec<u8>, room: usize) -> Result<Buffer, AllocError>
        ensures { IfOk result (λ b. b ≡ record { text = bytes.items; room = room }) }
    {
        bytes.reserve_exact(room.saturating_sub(bytes.len()))?;
        Ok(Buffer { bytes, room })
    }

    /// Gives the text back.
    pub fn into_bytes(self) -> Vec<u8>
        ensures { result.items ≡ self.text }
    {
        let Buffer { bytes, .. } = self;
        bytes
    }

    /// Lends the text.
    pub fn text(&self) -> &[u8]
        ensures { result.now ≡ self.now.text }
    {
        self.bytes.as_slice()
    }

    /// Makes the text empty; the room stays reserved.
    pub fn clear(&mut self)
        ensures { self.new ≡ record { text = []; room = self.old.room } }
    {
        self.bytes.clear();
    }

    /// Appends what fits of a piece, and answers how many bytes that is.
    pub fn append(&mut self, piece: &[u8]) -> Result<usize, Failed>
        ensures failed { IsErr result ↔ IsFull self.old piece.now }
        ensures count { IfOk result (λ n. n ≡ growth self.old piece.now) }
        ensures appended { IfOk result (λ n. self.new ≡ record { text = self.old.text ++ take n piece.now; room = self.old.room }) }
        ensures left { OnErr result (self.new ≡ self.old) }
    {
        let count = piece.len().min(self.room.saturating_sub(self.bytes.len()));
        if count == 0 && !piece.is_empty() {
            return Err(Failed);
        }
        match self.bytes.extend_from_slice(&piece[..count]) {
            Ok(()) => Ok(count),
            Err(_) => Err(Failed),
        }
    }
}
