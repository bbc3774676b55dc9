// Reading a file in large pieces.
ghost use Rattle.std.specs.Prelude.{◌≡◌, ◌+◌, ◌≤◌, ◌↔◌, ℕ, List, length, take, drop, [], IsTrue, IfOk, IfErr, OnOk};
ghost use Rattle.sea_disk.specs.Calls.{Rests};
ghost use Rattle.sea_log.specs.Faults.{LogCause};
ghost use Rattle.sea_log.specs.Reading.{StandAt, IsFromBelow};

use crate::fault::LogFault;
use sea_disk::{Disk, File};
use sea_fields::Bytes;
use std::alloc::Global;

/// How many bytes a piece has at most.
pub const PIECE: u64 = 1_048_576;

/// A file of a disk, and how many bytes it has.
#[derive(Clone, Copy)]
pub struct Whole {
    pub file: File,
    pub size: u64,
}

/// Bytes of a file that were read at once, and the place of the first of them.
#[derive(Drop)]
pub struct Piece {
    bytes: Vec<u8>,
    from: u64,
}

impl Piece {
    /// No bytes.
    pub fn new(alloc: Global) -> Piece
        ensures bytes { result.bytes.items ≡ [] }
    {
        Piece {
            bytes: Vec::new(alloc),
            from: 0,
        }
    }

    // Whether so many bytes from a place on are in the piece.
    fn has(&self, at: u64, count: u64) -> bool
        ensures { IsTrue result ↔ ((self.now.from ≤ at) × (at + count ≤ self.now.from + length self.now.bytes.items)) }
    {
        let length = self.bytes.len() as u64;
        if at < self.from || at - self.from > length {
            return false;
        }
        count <= length - (at - self.from)
    }

    /// Reads the file anew from a place on, unless the piece has so many bytes from there.
    pub fn reach<D: Disk>(
        &mut self,
        alloc: Global,
        disk: &mut D,
        whole: Whole,
        at: u64,
        count: u64,
    ) -> Result<(), LogFault>
        requires within { at + count ≤ whole.size }
        requires fits { count ≤ PIECE }
        requires size { D.told → whole.size ≡ length ((D.shows disk.old).seen whole.file) }
        requires piece { D.told → StandAt self.old.bytes.items self.old.from ((D.shows disk.old).seen whole.file) }
        ensures from { OnOk result (self.new.from ≤ at) }
        ensures to { OnOk result (at + count ≤ self.new.from + length self.new.bytes.items) }
        ensures piece { D.told → OnOk result (StandAt self.new.bytes.items self.new.from ((D.shows disk.old).seen whole.file)) }
        ensures below { IfErr result IsFromBelow }
        ensures rests { D.told → Rests (D.shows disk.old) (D.shows disk.new) }
        ensures faults { LogCause result (D.faults disk.old) (D.faults disk.new) }
        ensures failed { D.failed disk.new ≡ D.failed disk.old }
    {
        if self.has(at, count) {
            return Ok(());
        }
        // the old bytes go first, so that there is one piece at a time
        self.bytes = Vec::new(alloc);
        self.bytes = bytes_at(alloc, disk, whole, at, PIECE.min(whole.size - at))?;
        self.from = at;
        Ok(())
    }

    /// So many bytes from a place on.
    pub fn part(&self, at: u64, count: u64) -> &[u8]
        requires from { self.now.from ≤ at }
        requires to { at + count ≤ self.now.from + length self.now.bytes.items }
        ensures length { length result.now ≡ count }
        ensures bytes { (content : List ℕ) → StandAt self.now.bytes.items self.now.from content → result.now ≡ take count (drop at content) }
    {
        let start = (at - self.from) as usize;
        &self.bytes[start..start + count as usize]
    }
}

// So many bytes of a file from a place on, in a vector of their own.
fn bytes_at<D: Disk>(
    alloc: Global,
    disk: &mut D,
    whole: Whole,
    at: u64,
    count: u64,
) -> Result<Vec<u8>, LogFault>
    requires within { at + count ≤ whole.size }
    requires size { D.told → whole.size ≡ length ((D.shows disk.old).seen whole.file) }
    ensures bytes { D.told → IfOk result (λ bytes. bytes.items ≡ take count (drop at ((D.shows disk.old).seen whole.file))) }
    ensures length { IfOk result (λ bytes. length bytes.items ≡ count) }
    ensures below { IfErr result IsFromBelow }
    ensures rests { D.told → Rests (D.shows disk.old) (D.shows disk.new) }
    ensures faults { LogCause result (D.faults disk.old) (D.faults disk.new) }
    ensures failed { D.failed disk.new ≡ D.failed disk.old }
{
    let mut bytes = vec![in alloc; 0u8; count as usize]?;
    disk.read(whole.file, at, bytes.as_mut_slice())?;
    Ok(bytes)
}

/// The payload of so many bytes that begins at a place. One that is longer than a piece is read by itself.
pub fn payload_at<D: Disk>(
    alloc: Global,
    disk: &mut D,
    whole: Whole,
    piece: &mut Piece,
    at: u64,
    count: u64,
) -> Result<Bytes, LogFault>
    requires within { at + count ≤ whole.size }
    requires size { D.told → whole.size ≡ length ((D.shows disk.old).seen whole.file) }
    requires piece { D.told → StandAt piece.old.bytes.items piece.old.from ((D.shows disk.old).seen whole.file) }
    ensures payload { D.told → IfOk result (λ payload. payload ≡ take count (drop at ((D.shows disk.old).seen whole.file))) }
    ensures length { IfOk result (λ payload. length payload ≡ count) }
    ensures piece { D.told → OnOk result (StandAt piece.new.bytes.items piece.new.from ((D.shows disk.old).seen whole.file)) }
    ensures below { IfErr result IsFromBelow }
    ensures rests { D.told → Rests (D.shows disk.old) (D.shows disk.new) }
    ensures faults { LogCause result (D.faults disk.old) (D.faults disk.new) }
    ensures failed { D.failed disk.new ≡ D.failed disk.old }
{
    if count > PIECE {
        let payload = bytes_at(alloc, disk, whole, at, count)?;
        return Ok(Bytes::from(payload));
    }
    piece.reach(alloc, disk, whole, at, count)?;
    let payload = Vec::from_slice(alloc, piece.part(at, count))?;
    Ok(Bytes::from(payload))
}
