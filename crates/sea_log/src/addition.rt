// One record more.
ghost use Rattle.std.specs.Prelude.{◌≡◌, ◌+◌, ◌-◌, ◌^◌, ◌<◌, ◌≤◌, ◌++◌, ◌∷◌, [], ◌↔◌, ℕ, List, length, min, max, IfOk, OnOk, IsErrOf};
ghost use Rattle.sea_disk.specs.Shown.{IsSettled};
ghost use Rattle.sea_disk.specs.Runs.{Works};
ghost use Rattle.sea_fields.specs.Fields.{led};
ghost use Rattle.sea_log.specs.Faults.{LogCause};
ghost use Rattle.sea_log.specs.Images.{IsClosedInImages, with_record};
ghost use Rattle.sea_log.specs.Records.{HoldsWithOrWithout, size_with};

use crate::fault::LogFault;
use sea_disk::{Disk, File, write_through};
use sea_fields::{Bytes, put_bytes, put_u8};
use std::alloc::{AllocError, Global};

/// Appends a record to a log whose list ends at the closed gate at `end`, and answers the place of the closed gate
/// behind it. The log then has one byte more than that. `most` is how many bytes it may have, at most 268,435,456.
///
/// The record is written behind the gate and made safe, and then the gate is opened and made safe: two writes, two
/// syncs. A stop at any moment leaves the list or the list with the payload, and after Ok the latter alone.
///
/// Refuses with LogFull exactly where the log would have more than `most` bytes, and for want of memory; then nothing
/// was touched. Refuses with DiskFault where a call of the disk failed.
pub fn append<D: Disk>(
    alloc: Global,
    disk: &mut D,
    file: File,
    end: u64,
    payload: &[u8],
    most: u64,
) -> Result<u64, LogFault>
    requires { most ≤ 268435456 }
    ensures any_moment { D.told → (payloads : List (List ℕ)) → IsClosedInImages (D.shows disk.old) file payloads end
        → Works file (HoldsWithOrWithout payloads payload.now) (D.shows disk.old) (D.shows disk.new) }
    ensures added { D.told → (payloads : List (List ℕ)) → IsClosedInImages (D.shows disk.old) file payloads end
        → IfOk result (λ place. IsClosedInImages (D.shows disk.new) file (payloads ++ payload.now ∷ []) place) }
    ensures settled { D.told → OnOk result (IsSettled (D.shows disk.new) file) }
    ensures bytes { D.told → OnOk result ((D.shows disk.new).seen file ≡ with_record ((D.shows disk.old).seen file) end payload.now) }
    ensures size { D.told → OnOk result (length ((D.shows disk.new).seen file) ≡ max (length ((D.shows disk.old).seen file)) (end + 6 + length payload.now)) }
    ensures place { IfOk result (λ place. place ≡ end + 5 + length payload.now) }
    ensures full { (size : ℕ) → IsErrOf result (LogFault.LogFull size) ↔ ((size ≡ size_with end payload.now) × (most < size)) }
    ensures not_bad { ¬ IsErrOf result LogFault.BadLog }
    ensures untouched_full { (size : ℕ) → IsErrOf result (LogFault.LogFull size) → disk.new ≡ disk.old }
    ensures untouched_memory { IsErrOf result LogFault.Memory → disk.new ≡ disk.old }
    ensures faults { LogCause result (D.faults disk.old) (D.faults disk.new) }
    ensures failed { LogCause result (D.failed disk.old) (D.failed disk.new) }
{
    let size = log_size(end, payload.len() as u64);
    if size > most {
        return Err(LogFault::LogFull { size });
    }
    let record = closed_record(alloc, payload)?;
    write_through(disk, file, end + 1, record.as_slice())?;
    write_through(disk, file, end, &[1])?;
    Ok(size - 1)
}

/// How many bytes a log has whose last record, of a payload of `length` bytes, stands behind the gate at `end`: the gate
/// behind the record is counted. A number past the last one stands there.
pub fn log_size(end: u64, length: u64) -> u64
    ensures { result ≡ min (end + 6 + length) (2 ^ 64 - 1) }
{
    end.saturating_add(6).saturating_add(length)
}

// A record and the closed gate behind it, as they stand behind the gate before them.
fn closed_record(alloc: Global, payload: &[u8]) -> Result<Bytes, AllocError>
    requires { length payload.now < 2 ^ 32 }
    ensures { IfOk result (λ bytes. bytes ≡ led payload.now ++ 0 ∷ []) }
{
    let mut record = Bytes::new(alloc);
    put_bytes(&mut record, payload)?;
    put_u8(&mut record, 0)?;
    Ok(record)
}
