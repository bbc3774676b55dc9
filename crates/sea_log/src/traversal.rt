// Reading a log.
ghost use Rattle.std.specs.Prelude.{◌≡◌, ◌+◌, ◌^◌, ◌<◌, ◌≤◌, ℕ, List, length, min, take, drop, IfOk, IfErr, IfSome, IsErrOf, OnOk};
ghost use Rattle.std.specs.Int.{w32, to_be_bytes};
ghost use Rattle.sea_disk.specs.Calls.{Rests};
ghost use Rattle.sea_log.specs.Faults.{LogCause};
ghost use Rattle.sea_log.specs.Reading.{StandAt, IsNoRecord, HasLength, HasPayload};
ghost use Rattle.sea_log.specs.Records.{IsLog, HoldsList};

use crate::fault::LogFault;
use crate::list::{Payloads, Scan};
use crate::piece::{Piece, Whole, payload_at};
use sea_disk::{Disk, File};
use sea_fields::Bytes;
use std::alloc::Global;

/// A gate that is open.
const OPEN: u8 = 1;

/// How many bytes a record has at least with the gates before it and behind it. In a log of fewer no gate counts.
pub const SHORTEST_LOG: u64 = 6;

// How many bytes stand before its payload: its gate and its length.
const HEADER: u64 = 5;

/// Reads the list that a log holds, from its front on, in pieces of at most 1,048,576 bytes or one payload.
///
/// Refuses with DiskFault where a call of the disk failed, and with BadLog exactly where the file holds no list: where a
/// gate is open and has no record and no gate behind it.
pub fn scan<D: Disk>(alloc: Global, disk: &mut D, file: File) -> Result<Scan, LogFault>
    ensures list { D.told → IfOk result (λ scan. IsLog ((D.shows disk.old).seen file) scan.payloads scan.end) }
    ensures bad { D.told → IsErrOf result LogFault.BadLog → (payloads : List (List ℕ)) → ¬ HoldsList payloads ((D.shows disk.old).seen file) }
    ensures not_full { (size : ℕ) → ¬ IsErrOf result (LogFault.LogFull size) }
    ensures rests { D.told → Rests (D.shows disk.old) (D.shows disk.new) }
    ensures faults { LogCause result (D.faults disk.old) (D.faults disk.new) }
    ensures failed { D.failed disk.new ≡ D.failed disk.old }
{
    let size = disk.size(file)?;
    let mut payloads = Payloads::new(alloc);
    let mut end = 0;
    if size < SHORTEST_LOG {
        return Ok(Scan { payloads, end });
    }
    let whole = Whole { file, size };
    let mut piece = Piece::new(alloc);
    while let Some(payload) = next_payload(alloc, disk, whole, &mut piece, end)? {
        end += HEADER + payload.len() as u64;
        payloads.push(payload)?;
    }
    Ok(Scan { payloads, end })
}

// The payload of the record whose gate is at `end`, or None where that gate is closed.
fn next_payload<D: Disk>(
    alloc: Global,
    disk: &mut D,
    whole: Whole,
    piece: &mut Piece,
    end: u64,
) -> Result<Option<Bytes>, LogFault>
    requires within { end < whole.size }
    requires size { D.told → whole.size ≡ length ((D.shows disk.old).seen whole.file) }
    requires piece { D.told → StandAt piece.old.bytes.items piece.old.from ((D.shows disk.old).seen whole.file) }
    ensures further { IfOk result (λ next. IfSome next (λ payload. end + 5 + length payload < whole.size)) }
    ensures payload { D.told → IfOk result (λ next. HasPayload next (drop end ((D.shows disk.old).seen whole.file))) }
    ensures bad { D.told → IsErrOf result LogFault.BadLog → IsNoRecord (drop end ((D.shows disk.old).seen whole.file)) }
    ensures not_full { (size : ℕ) → ¬ IsErrOf result (LogFault.LogFull size) }
    ensures piece { D.told → OnOk result (StandAt piece.new.bytes.items piece.new.from ((D.shows disk.old).seen whole.file)) }
    ensures rests { D.told → Rests (D.shows disk.old) (D.shows disk.new) }
    ensures faults { LogCause result (D.faults disk.old) (D.faults disk.new) }
    ensures failed { D.failed disk.new ≡ D.failed disk.old }
{
    let left = whole.size - end;
    let count = left.min(HEADER);
    piece.reach(alloc, disk, whole, end, count)?;
    let Some(length) = payload_length(piece.part(end, count), left)? else {
        return Ok(None);
    };
    let payload = payload_at(alloc, disk, whole, piece, end + HEADER, u64::from(length))?;
    Ok(Some(payload))
}

// How many bytes the payload has of the record whose gate begins what is left of a file, or None where that gate is
// closed. `header` are the first five bytes, or all where fewer are left.
fn payload_length(header: &[u8], left: u64) -> Result<Option<u32>, LogFault>
    requires some { 0 < left }
    requires header { length header.now ≡ min left 5 }
    ensures within { IfOk result (λ it. IfSome it (λ count. count + 6 ≤ left)) }
    ensures fits { IfOk result (λ it. IfSome it (λ count. count < 2 ^ 32)) }
    ensures length { (rest : List ℕ) → header.now ≡ take (min left 5) rest → left ≡ length rest → IfOk result (λ it. HasLength it rest) }
    ensures bad { (rest : List ℕ) → header.now ≡ take (min left 5) rest → left ≡ length rest → IfErr result (λ _. IsNoRecord rest) }
    ensures only_bad { IfErr result (λ fault. fault ≡ LogFault.BadLog) }
{
    if header[0] != OPEN {
        return Ok(None);
    }
    if left < SHORTEST_LOG {
        return Err(LogFault::BadLog);
    }
    let length = number_in(&header[1..]);
    if left - SHORTEST_LOG < u64::from(length) {
        return Err(LogFault::BadLog);
    }
    Ok(Some(length))
}

// The number in four bytes, the highest first.
fn number_in(bytes: &[u8]) -> u32
    requires { length bytes.now ≡ 4 }
    ensures { to_be_bytes w32 result ≡ bytes.now }
{
    u32::from_be_bytes([bytes[0], bytes[1], bytes[2], bytes[3]])
}
