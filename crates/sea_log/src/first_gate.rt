// The first gate of a log.
ghost use Rattle.std.specs.Prelude.{◌≡◌, ◌<◌, ◌∷◌, [], List, ℕ, length, OnOk, OnErr};
ghost use Rattle.sea_disk.specs.Shown.{IsSettled};
ghost use Rattle.sea_disk.specs.Calls.{overlaid};
ghost use Rattle.sea_disk.specs.Runs.{Works};
ghost use Rattle.sea_log.specs.Faults.{LogCause};
ghost use Rattle.sea_log.specs.Images.{IsClosedInImages};
ghost use Rattle.sea_log.specs.Records.{HoldsList};

use crate::fault::LogFault;
use sea_disk::{Disk, File, write_through};

/// Lays the first gate of a file of fewer than 6 bytes, closed, so that records can be appended. A stop at any moment
/// leaves a file without records, as it was before. It takes no memory.
///
/// Refuses with DiskFault where a call of the disk failed.
pub fn begin<D: Disk>(disk: &mut D, file: File) -> Result<(), LogFault>
    ensures any_moment { D.told → ((bytes : List ℕ) → (D.shows disk.old).image file bytes → length bytes < 6)
        → Works file (HoldsList []) (D.shows disk.old) (D.shows disk.new) }
    ensures begun { D.told → ((bytes : List ℕ) → (D.shows disk.old).image file bytes → length bytes < 6)
        → OnOk result (IsClosedInImages (D.shows disk.new) file [] 0) }
    ensures settled { D.told → OnOk result (IsSettled (D.shows disk.new) file) }
    ensures laid { D.told → OnOk result ((D.shows disk.new).seen file ≡ overlaid ((D.shows disk.old).seen file) 0 (0 ∷ [])) }
    ensures only_the_disk { OnErr result (result ≡ Err LogFault.DiskFault) }
    ensures faults { LogCause result (D.faults disk.old) (D.faults disk.new) }
    ensures failed { LogCause result (D.failed disk.old) (D.failed disk.new) }
{
    write_through(disk, file, 0, &[0])?;
    Ok(())
}
