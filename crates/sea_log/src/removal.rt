// Taking all records out.
ghost use Rattle.std.specs.Prelude.{◌≡◌, ◌≢◌, ◌∷◌, [], ℕ, List, OnOk, OnErr};
ghost use Rattle.sea_disk.specs.Shown.{IsSettled};
ghost use Rattle.sea_disk.specs.Runs.{Works};
ghost use Rattle.sea_log.specs.Faults.{LogCause};
ghost use Rattle.sea_log.specs.Images.{IsClosedInImages, HoldsInImages};
ghost use Rattle.sea_log.specs.Records.{HoldsListOrNone};

use crate::fault::LogFault;
use sea_disk::{Disk, File, cut_through, write_through};

/// Takes all records out of a log that has some. It closes the first gate, makes that safe, and cuts the file behind it. A
/// stop at any moment leaves the list or none, and after Ok none: the file then has that gate alone. It takes no memory.
///
/// Refuses with DiskFault where a call of the disk failed.
pub fn clear<D: Disk>(disk: &mut D, file: File) -> Result<(), LogFault>
    ensures any_moment { D.told → (payloads : List (List ℕ)) → payloads ≢ [] → HoldsInImages (D.shows disk.old) file payloads
        → Works file (HoldsListOrNone payloads) (D.shows disk.old) (D.shows disk.new) }
    ensures cleared { D.told → (payloads : List (List ℕ)) → payloads ≢ [] → HoldsInImages (D.shows disk.old) file payloads
        → OnOk result (IsClosedInImages (D.shows disk.new) file [] 0) }
    ensures settled { D.told → OnOk result (IsSettled (D.shows disk.new) file) }
    ensures emptied { D.told → OnOk result ((D.shows disk.new).seen file ≡ 0 ∷ []) }
    ensures only_the_disk { OnErr result (result ≡ Err LogFault.DiskFault) }
    ensures faults { LogCause result (D.faults disk.old) (D.faults disk.new) }
    ensures failed { LogCause result (D.failed disk.old) (D.failed disk.new) }
{
    write_through(disk, file, 0, &[0])?;
    cut_through(disk, file, 1)?;
    Ok(())
}
