// The bytes of a file in memory.
ghost use Rattle.std.specs.Prelude.{◌≡◌, ◌+◌, ◌-◌, ◌<◌, ◌≤◌, ◌++◌, [], length, take, drop, replicate, IfOk, OnOk, OnErr};
ghost use Rattle.sea_disk.specs.Calls.{overlaid};

use std::alloc::{AllocError, Global};
use std::marker::Model;

/// The bytes of a file in memory, seen by contracts as the list of them.
#[derive(Drop)]
pub struct FileBytes {
    bytes: Vec<u8>,
}

impl Model for FileBytes {
    ghost use Rattle.std.specs.Prelude.{ℕ, List};

    ghost Value = { List ℕ };

    ghost view = { λ it. it.bytes.items };
}

impl FileBytes {
    /// No bytes.
    pub fn new(alloc: Global) -> FileBytes
        ensures { result ≡ [] }
    {
        FileBytes {
            bytes: Vec::new(alloc),
        }
    }

    /// The bytes.
    pub fn as_slice(&self) -> &[u8]
        ensures { result.now ≡ self.now }
    {
        self.bytes.as_slice()
    }

    /// Other bytes that are equal to these.
    pub fn copy(&self, alloc: Global) -> Result<FileBytes, AllocError>
        ensures { IfOk result (λ copy. copy ≡ self.now) }
    {
        let bytes = Vec::from_slice(alloc, self.bytes.as_slice())?;
        Ok(FileBytes { bytes })
    }

    /// Lays a piece over the bytes from a place on, with zeros between their end and that place. Without memory it
    /// leaves them as they were.
    pub fn overlay(&mut self, at: u64, piece: &[u8]) -> Result<(), AllocError>
        ensures ok { OnOk result (self.new ≡ overlaid self.old at piece.now) }
        ensures fits { OnOk result (at + length piece.now ≤ length self.new) }
        ensures err { OnErr result (self.new ≡ self.old) }
    {
        overlay(&mut self.bytes, at as usize, piece)
    }

    /// Keeps the first bytes alone.
    pub fn cut(&mut self, len: u64)
        ensures { self.new ≡ take len self.old }
    {
        self.bytes.truncate(len as usize);
    }
}

impl From<Vec<u8>> for FileBytes {
    ghost from_gives = { λ vec bytes. bytes ≡ vec.items };

    fn from(bytes: Vec<u8>) -> FileBytes {
        FileBytes { bytes }
    }
}

// Lays a piece over bytes.
fn overlay(bytes: &mut Vec<u8>, at: usize, piece: &[u8]) -> Result<(), AllocError>
    ensures ok { OnOk result (bytes.new.items ≡ overlaid bytes.old.items at piece.now) }
    ensures fits { OnOk result (at + length piece.now ≤ length bytes.new.items) }
    ensures err { OnErr result (bytes.new.items ≡ bytes.old.items) }
{
    let Some(end) = at.checked_add(piece.len()) else {
        return Err(AllocError);
    };
    grow(bytes, end)?;
    put(bytes.as_mut_slice(), at, piece);
    Ok(())
}

// Puts a piece in the place of bytes that are there.
fn put(bytes: &mut [u8], at: usize, piece: &[u8])
    requires { at + length piece.now ≤ length bytes.old }
    ensures { bytes.new ≡ take at bytes.old ++ piece.now ++ drop (at + length piece.now) bytes.old }
{
    let end = at + piece.len();
    bytes[at..end].copy_from_slice(piece);
}

// Appends zeros up to a length.
fn grow(bytes: &mut Vec<u8>, end: usize) -> Result<(), AllocError>
    ensures ok { OnOk result (bytes.new.items ≡ bytes.old.items ++ replicate (end - length bytes.old.items) 0) }
    ensures err { OnErr result (bytes.new.items ≡ bytes.old.items) }
{
    if end <= bytes.len() {
        return Ok(());
    }
    bytes.resize(end, 0)
}
