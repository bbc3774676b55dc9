// Making the files of a disk safe as they are.
ghost use Rattle.std.specs.Prelude.{◌≡◌, ◌≢◌, Err, OnOk};
ghost use Rattle.sea_disk.specs.declared.file.File.{File};
ghost use Rattle.sea_disk.specs.Shown.{IsSettled};
ghost use Rattle.sea_core.specs.Gates.{with_gate, with_first_byte};
ghost use Rattle.sea_core.specs.Steps.{Keeps, IsAllSettled, IsBaseFile, IsLogFile};
ghost use Rattle.sea_core.specs.Taking.{CountsStart, CountsFailedStart};

use crate::fault::StartFault;
use sea_disk::{Disk, File, write_through};
use sea_log::{SHORTEST_LOG, begin, one_list_at_most};

/// How many bytes a base file has at least whose gate counts.
pub const SHORTEST_BASE: u64 = 17;

/// Makes the files safe as they are, and lays the first gate of each base file and log that is too short for a gate to
/// count, closed.
pub fn lay_gates<D: Disk>(disk: &mut D) -> Result<(), StartFault>
    ensures keeps { D.told → Keeps (D.shows disk.old) (D.shows disk.new) }
    ensures settled { D.told → OnOk result (IsAllSettled (D.shows disk.new)) }
    ensures laid { D.told → OnOk result ((file : File) → (D.shows disk.new).seen file ≡ with_gate file ((D.shows disk.old).seen file)) }
    ensures not_none { result ≢ Err StartFault.NotABase }
    ensures faults { CountsStart result (D.faults disk.old) (D.faults disk.new) }
    ensures failed { CountsFailedStart result (D.failed disk.old) (D.failed disk.new) }
{
    sync_all(disk)?;
    lay_base_gates(disk)?;
    lay_log_gates(disk)?;
    Ok(())
}

// Makes all files safe.
fn sync_all<D: Disk>(disk: &mut D) -> Result<(), StartFault>
    ensures keeps { D.told → Keeps (D.shows disk.old) (D.shows disk.new) }
    ensures settled { D.told → OnOk result (IsAllSettled (D.shows disk.new)) }
    ensures seen { D.told → OnOk result ((file : File) → (D.shows disk.new).seen file ≡ (D.shows disk.old).seen file) }
    ensures not_none { result ≢ Err StartFault.NotABase }
    ensures faults { CountsStart result (D.faults disk.old) (D.faults disk.new) }
    ensures failed { CountsFailedStart result (D.failed disk.old) (D.failed disk.new) }
{
    sync(disk, File::Base0)?;
    sync(disk, File::Base1)?;
    sync(disk, File::Log0)?;
    sync(disk, File::Log1)?;
    sync(disk, File::Arch)?;
    Ok(())
}

// Makes a file safe.
fn sync<D: Disk>(disk: &mut D, file: File) -> Result<(), StartFault>
    ensures keeps { D.told → Keeps (D.shows disk.old) (D.shows disk.new) }
    ensures settled { D.told → OnOk result (IsSettled (D.shows disk.new) file) }
    ensures seen { D.told → (other : File) → (D.shows disk.new).seen other ≡ (D.shows disk.old).seen other }
    ensures stays { D.told → (other : File) → IsSettled (D.shows disk.old) other → IsSettled (D.shows disk.new) other }
    ensures not_none { result ≢ Err StartFault.NotABase }
    ensures faults { CountsStart result (D.faults disk.old) (D.faults disk.new) }
    ensures failed { CountsFailedStart result (D.failed disk.old) (D.failed disk.new) }
{
    disk.sync(file)?;
    Ok(())
}

// Lays the gates of the base files.
fn lay_base_gates<D: Disk>(disk: &mut D) -> Result<(), StartFault>
    ensures keeps { D.told → IsAllSettled (D.shows disk.old) → Keeps (D.shows disk.old) (D.shows disk.new) }
    ensures settled { D.told → IsAllSettled (D.shows disk.old) → OnOk result (IsAllSettled (D.shows disk.new)) }
    ensures laid { D.told → OnOk result ((file : File) → IsBaseFile file → (D.shows disk.new).seen file ≡ with_gate file ((D.shows disk.old).seen file)) }
    ensures others { D.told → OnOk result ((other : File) → ¬ IsBaseFile other → (D.shows disk.new).seen other ≡ (D.shows disk.old).seen other) }
    ensures not_none { result ≢ Err StartFault.NotABase }
    ensures faults { CountsStart result (D.faults disk.old) (D.faults disk.new) }
    ensures failed { CountsFailedStart result (D.failed disk.old) (D.failed disk.new) }
{
    lay_base_gate(disk, File::Base0)?;
    lay_base_gate(disk, File::Base1)?;
    Ok(())
}

// Lays the gate of a base file, unless the file has one.
fn lay_base_gate<D: Disk>(disk: &mut D, file: File) -> Result<(), StartFault>
    requires { IsBaseFile file }
    ensures keeps { D.told → IsAllSettled (D.shows disk.old) → Keeps (D.shows disk.old) (D.shows disk.new) }
    ensures settled { D.told → IsAllSettled (D.shows disk.old) → OnOk result (IsAllSettled (D.shows disk.new)) }
    ensures laid { D.told → OnOk result ((D.shows disk.new).seen file ≡ with_first_byte 17 ((D.shows disk.old).seen file)) }
    ensures others { D.told → OnOk result ((other : File) → other ≢ file → (D.shows disk.new).seen other ≡ (D.shows disk.old).seen other) }
    ensures not_none { result ≢ Err StartFault.NotABase }
    ensures faults { CountsStart result (D.faults disk.old) (D.faults disk.new) }
    ensures failed { CountsFailedStart result (D.failed disk.old) (D.failed disk.new) }
{
    if disk.size(file)? >= SHORTEST_BASE {
        return Ok(());
    }
    write_through(disk, file, 0, &[0])?;
    Ok(())
}

// Lays the first gates of the logs.
fn lay_log_gates<D: Disk>(disk: &mut D) -> Result<(), StartFault>
    ensures keeps { D.told → IsAllSettled (D.shows disk.old) → Keeps (D.shows disk.old) (D.shows disk.new) }
    ensures settled { D.told → IsAllSettled (D.shows disk.old) → OnOk result (IsAllSettled (D.shows disk.new)) }
    ensures laid { D.told → IsAllSettled (D.shows disk.old) → OnOk result ((file : File) → IsLogFile file → (D.shows disk.new).seen file ≡ with_gate file ((D.shows disk.old).seen file)) }
    ensures others { D.told → IsAllSettled (D.shows disk.old) → OnOk result ((other : File) → ¬ IsLogFile other → (D.shows disk.new).seen other ≡ (D.shows disk.old).seen other) }
    ensures not_none { result ≢ Err StartFault.NotABase }
    ensures faults { CountsStart result (D.faults disk.old) (D.faults disk.new) }
    ensures failed { CountsFailedStart result (D.failed disk.old) (D.failed disk.new) }
{
    lay_log_gate(disk, File::Log1)?;
    lay_log_gate(disk, File::Log0)?;
    Ok(())
}

// Lays the first gate of a log, unless the file has one.
fn lay_log_gate<D: Disk>(disk: &mut D, file: File) -> Result<(), StartFault>
    requires { IsLogFile file }
    ensures keeps { D.told → IsAllSettled (D.shows disk.old) → Keeps (D.shows disk.old) (D.shows disk.new) }
    ensures settled { D.told → IsAllSettled (D.shows disk.old) → OnOk result (IsAllSettled (D.shows disk.new)) }
    ensures laid { D.told → OnOk result ((D.shows disk.new).seen file ≡ with_first_byte 6 ((D.shows disk.old).seen file)) }
    ensures others { D.told → IsAllSettled (D.shows disk.old) → OnOk result ((other : File) → other ≢ file → (D.shows disk.new).seen other ≡ (D.shows disk.old).seen other) }
    ensures not_none { result ≢ Err StartFault.NotABase }
    ensures faults { CountsStart result (D.faults disk.old) (D.faults disk.new) }
    ensures failed { CountsFailedStart result (D.failed disk.old) (D.failed disk.new) }
{
    one_list_at_most();
    if disk.size(file)? >= SHORTEST_LOG {
        return Ok(());
    }
    begin(disk, file)?;
    Ok(())
}
