// A record more in the log.
ghost use Rattle.std.specs.Prelude.{◌≤◌};
ghost use Rattle.sea_log.specs.Faults.{LogCause};
ghost use Rattle.sea_operation.specs.declared.base.Plain.{Plain};
ghost use Rattle.sea_core.specs.Additions.{Added, LeavesRecord};
ghost use Rattle.sea_core.specs.Sound.{IsReady};
ghost use Rattle.sea_core.specs.Taking.{TakesRecord};

use sea_disk::{Disk, File};
use sea_log::{LogFault, append};
use std::alloc::Global;

/// Makes the record of a base's next entry safe behind the gate at `end`, and answers the place of the gate behind it.
/// `most` is how many bytes the log may have.
pub fn add_record<D: Disk>(
    alloc: Global,
    disk: &mut D,
    end: u64,
    payload: &[u8],
    most: u64,
) -> Result<u64, LogFault>
    requires { most ≤ 268435456 }
    ensures added { Added disk.old disk.new end payload.now most result }
    ensures leaves { D.told → (base next : Plain) → TakesRecord base payload.now next → IsReady (D.shows disk.old) base end
        → LeavesRecord (D.shows disk.old) (D.shows disk.new) base next end payload.now result }
    ensures faults { LogCause result (D.faults disk.old) (D.faults disk.new) }
    ensures failed { LogCause result (D.failed disk.old) (D.failed disk.new) }
{
    append(alloc, disk, File::Log0, end, payload, most)
}
