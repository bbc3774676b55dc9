// The base after an entry, and the entry's record.
ghost use Rattle.std.specs.Prelude.{◌≡◌, ◌≢◌, Ok, Err, MatchResult};
ghost use Rattle.sea_moment.specs.Moment.{IsMoment};
ghost use Rattle.sea_operation.specs.declared.base.Plain.{Plain};
ghost use Rattle.sea_operation.specs.declared.operation.Entry.{Entry};
ghost use Rattle.sea_operation.specs.Apply.{apply};
ghost use Rattle.sea_core.specs.Taking.{IsRefusedBy, IsRecordOf, IsTooLarge};

use crate::base::Core;
use crate::fault::CoreFault;
use sea_disk::Disk;
use sea_fields::Bytes;
use sea_log::log_size;
use sea_operation::{Entry, OpRefusal, Plain};
use sea_plain::apply_plain;
use sea_record::{long_fields_make_long_records, record_length, record_of_entry};
use std::alloc::Global;

impl<D: Disk> Core<D> {
    ghost use Rattle.sea_core.specs.Taking.{IsPrepared, IsFirstCause};

    /// The base with an entry, and the record of the entry. Refuses with the first cause that is known before the log.
    pub fn prepare(&self, entry: &Entry) -> Result<(Plain, Bytes), CoreFault>
        requires { IsMoment entry.now.moment.0 }
        ensures { MatchResult result (λ made. IsPrepared self.now entry.now made.0 made.1) (IsFirstCause self.now entry.now) }
    {
        if let Some(count) = self.failed {
            return Err(CoreFault::BaseFailed { count });
        }
        let next = next_base(self.alloc, &self.base, entry)?;
        let payload = record_of_next(self.alloc, next.version, entry, self.end)?;
        Ok((next, payload))
    }
}

// The base after an entry.
fn next_base(alloc: Global, base: &Plain, entry: &Entry) -> Result<Plain, CoreFault>
    ensures { MatchResult result (λ next. apply base.now entry.now ≡ Ok next) (IsRefusedBy base.now entry.now) }
{
    match apply_plain(alloc, base, entry) {
        Ok(next) => Ok(next),
        Err(refusal) => Err(refused(refusal)),
    }
}

// Why an entry with this refusal is refused.
fn refused(refusal: OpRefusal) -> CoreFault
    ensures { (base : Plain) (entry : Entry) → (refusal ≢ OpRefusal.Memory → apply base entry ≡ Err refusal) → IsRefusedBy base entry result }
{
    match refusal {
        OpRefusal::Memory => CoreFault::Memory,
        refusal => CoreFault::Op(refusal),
    }
}

// The record of an entry that makes the base of this version, for a log that ends at `end`.
fn record_of_next(alloc: Global, version: u64, entry: &Entry, end: u64) -> Result<Bytes, CoreFault>
    requires { IsMoment entry.now.moment.0 }
    ensures { MatchResult result (IsRecordOf version entry.now) (IsTooLarge end version entry.now) }
{
    if let Some(payload) = record_of_entry(alloc, version, entry)? {
        return Ok(payload);
    }
    long_fields_make_long_records(); // law
    let size = log_size(end, record_length(alloc, entry)?);
    Err(CoreFault::LogFull { size })
}
