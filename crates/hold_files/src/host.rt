ghost use Rattle.std.specs.Prelude.{◌≡◌, ◌<◌, ◌≤◌, length, IfOk};

use crate::files::{Failed, Files};
use hold_base::Name;
use std::fs::{self, OpenOptions};
use std::io::{self, Read, Seek, SeekFrom, Write};
use std::rt::Runtime;

/// The real disk and standard output. Nothing is told of their contents, and each error counts as a
/// fault: one count of reads and one of writes for all names, and one of sayings.
#[derive(Drop)]
pub struct HostFiles<R: Runtime> {
    rt: R,
    read_faults: u64,
    write_faults: u64,
    say_faults: u64,
}

impl<R: Runtime> HostFiles<R> {
    ghost use Rattle.hold_files.specs.Host.{untold, told_of_host};

    /// Keeps the runtime; no call has failed yet.
    pub fn new(rt: R) -> HostFiles<R>
        ensures { told_of_host result ≡ untold 0 0 0 }
    {
        HostFiles {
            rt,
            read_faults: 0,
            write_faults: 0,
            say_faults: 0,
        }
    }
}

impl<R: Runtime> Files for HostFiles<R> {
    ghost use Rattle.hold_files.specs.Host.{told_of_host};

    ghost told = { told_of_host };

    fn read_at(&mut self, name: &Name, at: u64, into: &mut [u8]) -> Result<usize, Failed> {
        let read = read_from(&self.rt, name, at, into);
        if read.is_err() {
            self.read_faults = self.read_faults.saturating_add(1);
        }
        read
    }

    fn start(&mut self, name: &Name) -> Result<(), Failed> {
        let started = make_empty(&self.rt, name);
        if started.is_err() {
            self.write_faults = self.write_faults.saturating_add(1);
        }
        started
    }

    fn put(&mut self, name: &Name, piece: &[u8]) -> Result<usize, Failed> {
        let written = append_to(&self.rt, name, piece);
        if written.is_err() {
            self.write_faults = self.write_faults.saturating_add(1);
        }
        written
    }

    fn say(&mut self, piece: &[u8]) -> Result<usize, Failed> {
        let said = write_some(&mut io::writer(&self.rt), piece);
        if said.is_err() {
            self.say_faults = self.say_faults.saturating_add(1);
        }
        said
    }
}

impl From<io::Error> for Failed {
    fn from(_error: io::Error) -> Failed {
        Failed
    }
}

/// Reads from this place on.
fn read_from<R: Runtime>(rt: &R, name: &Name, at: u64, into: &mut [u8]) -> Result<usize, Failed>
    ensures { IfOk result (λ n. n ≤ length into.old) }
{
    let mut file = OpenOptions::new().read(true).open(rt, path_of(name)?)?;
    file.seek(SeekFrom::Start(at))?;
    Ok(file.read(into)?)
}

/// Makes a file empty, or makes an empty file.
fn make_empty<R: Runtime>(rt: &R, name: &Name) -> Result<(), Failed> {
    fs::create(rt, path_of(name)?)?;
    Ok(())
}

/// Appends to a file that is there.
fn append_to<R: Runtime>(rt: &R, name: &Name, piece: &[u8]) -> Result<usize, Failed>
    ensures count { IfOk result (λ n. n ≤ length piece.now) }
    ensures some { IfOk result (λ n. 0 < length piece.now → 0 < n) }
{
    let mut file = OpenOptions::new().append(true).open(rt, path_of(name)?)?;
    write_some(&mut file, piece)
}

/// Writes the front of a piece; a write of nothing where there is something to write is an error.
fn write_some<W: Write>(to: &mut W, piece: &[u8]) -> Result<usize, Failed>
    ensures count { IfOk result (λ n. n ≤ length piece.now) }
    ensures some { IfOk result (λ n. 0 < length piece.now → 0 < n) }
{
    let count = to.write(piece)?;
    if count == 0 && !piece.is_empty() {
        return Err(Failed);
    }
    Ok(count)
}

/// The path of a name, which has to be UTF-8.
fn path_of(name: &Name) -> Result<&str, Failed>
    ensures { IfOk result (λ path. path.now ≡ name.now) }
{
    match str::from_utf8(name.bytes()) {
        Ok(path) => Ok(path),
        Err(_) => Err(Failed),
    }
}
