// Replaying a log.
ghost use Rattle.std.specs.Prelude.{◌≡◌, ◌≢◌, Ok, IfOk, IsErr, IsErrOf, MatchResult};
ghost use Rattle.sea_operation.specs.declared.base.Plain.{Plain};
ghost use Rattle.sea_operation.specs.Apply.{apply};
ghost use Rattle.sea_core.specs.Stands.{Makes};
ghost use Rattle.sea_core.specs.Taking.{TakesRecord};

use crate::fault::StartFault;
use sea_fields::Bytes;
use sea_operation::{Entry, OpRefusal, Plain};
use sea_plain::apply_plain;
use sea_record::{entry_of_record, records_have_one_entry};
use std::alloc::Global;

/// The base that the payloads of a log make. NotABase exactly where they make none.
pub fn base_of_payloads(alloc: Global, payloads: &[Bytes]) -> Result<Plain, StartFault>
    ensures made { IfOk result (λ base. Makes payloads.now base) }
    ensures none { IsErrOf result StartFault.NotABase → (base : Plain) → ¬ Makes payloads.now base }
    ensures no_disk { ¬ IsErrOf result StartFault.DiskFault }
{
    let mut base = Plain::new(alloc);
    for payload in payloads {
        base = with_record(alloc, &base, payload.as_slice())?;
    }
    Ok(base)
}

// The base after the record that is its next one.
fn with_record(alloc: Global, base: &Plain, payload: &[u8]) -> Result<Plain, StartFault>
    ensures taken { IfOk result (TakesRecord base.now payload.now) }
    ensures only { IfOk result (λ next. (other : Plain) → TakesRecord base.now payload.now other → other ≡ next) }
    ensures none { IsErrOf result StartFault.NotABase → (next : Plain) → ¬ TakesRecord base.now payload.now next }
    ensures no_disk { ¬ IsErrOf result StartFault.DiskFault }
{
    records_have_one_entry();
    let Some((lsn, entry)) = entry_of_record(alloc, payload)? else {
        return Err(StartFault::NotABase);
    };
    let next = with_entry(alloc, base, &entry)?;
    if lsn != next.version {
        return Err(StartFault::NotABase);
    }
    Ok(next)
}

// The base after an entry that it takes.
fn with_entry(alloc: Global, base: &Plain, entry: &Entry) -> Result<Plain, StartFault>
    ensures taken { IfOk result (λ next. apply base.now entry.now ≡ Ok next) }
    ensures refused { IsErrOf result StartFault.NotABase → IsErr (apply base.now entry.now) }
    ensures no_disk { ¬ IsErrOf result StartFault.DiskFault }
{
    match apply_plain(alloc, base, entry) {
        Ok(next) => Ok(next),
        Err(refusal) => Err(refused(refusal)),
    }
}

// Why a log is refused whose entry has this refusal.
fn refused(refusal: OpRefusal) -> StartFault
    ensures none { result ≡ StartFault.NotABase → refusal ≢ OpRefusal.Memory }
    ensures no_disk { result ≢ StartFault.DiskFault }
{
    match refusal {
        OpRefusal::Memory => StartFault::Memory,
        _ => StartFault::NotABase,
    }
}
