// A write and a cut that are made safe at once.
ghost use Rattle.std.specs.Prelude.{◌≡◌, ◌≤◌, length, take, OnOk};
ghost use Rattle.sea_faults.specs.Counts.{HasCause};
ghost use Rattle.sea_disk.specs.Shown.{IsSettled};
ghost use Rattle.sea_disk.specs.Calls.{overlaid, Torn, Cut, After};
ghost use Rattle.sea_disk.specs.Runs.{Works};

use crate::disk::Disk;
use crate::file::File;
use sea_faults::Failed;

/// Writes bytes from a place on and makes them safe, in two calls. After Ok a stop leaves the file as reads give it.
///
/// Refuses with `Failed` where one of the calls failed. Then, as at each moment until then, the file may come out of a
/// stop with any bytes in that range.
pub fn write_through<D: Disk>(disk: &mut D, file: File, at: u64, bytes: &[u8]) -> Result<(), Failed>
    ensures works { D.told → Works file (After file (Torn at (length bytes.now)) (D.shows disk.old)) (D.shows disk.old) (D.shows disk.new) }
    ensures written { D.told → OnOk result ((D.shows disk.new).seen file ≡ overlaid ((D.shows disk.old).seen file) at bytes.now) }
    ensures settled { D.told → OnOk result (IsSettled (D.shows disk.new) file) }
    ensures faults { HasCause result (D.faults disk.old) (D.faults disk.new) }
    ensures failed { HasCause result (D.failed disk.old) (D.failed disk.new) }
{
    disk.write_at(file, at, bytes)?;
    disk.sync(file)
}

/// Cuts a file to a length and makes that safe, in two calls. After Ok a stop leaves the file as reads give it.
///
/// Refuses with `Failed` where one of the calls failed. Then, as at each moment until then, the file may come out of a
/// stop with any size from that length on, and any bytes behind it.
pub fn cut_through<D: Disk>(disk: &mut D, file: File, len: u64) -> Result<(), Failed>
    requires { D.told → len ≤ length ((D.shows disk.old).seen file) }
    ensures works { D.told → Works file (After file (Cut len) (D.shows disk.old)) (D.shows disk.old) (D.shows disk.new) }
    ensures cut { D.told → OnOk result ((D.shows disk.new).seen file ≡ take len ((D.shows disk.old).seen file)) }
    ensures settled { D.told → OnOk result (IsSettled (D.shows disk.new) file) }
    ensures faults { HasCause result (D.faults disk.old) (D.faults disk.new) }
    ensures failed { HasCause result (D.failed disk.old) (D.failed disk.new) }
{
    disk.cut(file, len)?;
    disk.sync(file)
}
