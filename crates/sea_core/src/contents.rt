// Reading what the files of a disk stand for.
ghost use Rattle.std.specs.Prelude.{◌≡◌, ◌≤◌, ◌^◌, ℕ, List, [], IfOk, IsErrOf, OnOk};
ghost use Rattle.sea_disk.specs.Calls.{Rests};
ghost use Rattle.sea_disk.specs.declared.file.File.TheVariants.{Log0, Log1};
ghost use Rattle.sea_log.specs.Records.{IsLog, HoldsList};
ghost use Rattle.sea_operation.specs.declared.base.Plain.{Plain};
ghost use Rattle.sea_core.specs.Gates.{HasGate};
ghost use Rattle.sea_core.specs.Sound.{IsReady};
ghost use Rattle.sea_core.specs.Stands.{IsClosedBase, StandsFor};
ghost use Rattle.sea_core.specs.Steps.{AreClosed, IsAllSettled};
ghost use Rattle.sea_core.specs.Taking.{CountsStart};

use crate::fault::StartFault;
use crate::first_gates::SHORTEST_BASE;
use crate::replay::base_of_payloads;
use sea_disk::{Disk, File};
use sea_log::{Scan, one_list_at_most, scan};
use sea_operation::Plain;
use std::alloc::Global;

/// The first byte of a base file whose gate is open.
const OPEN_GATE: u8 = 1;

/// The base that the files stand for, and the place of the gate that ends its log.
pub fn read_base<D: Disk>(alloc: Global, disk: &mut D) -> Result<(Plain, u64), StartFault>
    ensures found { D.told → IfOk result (λ pair. StandsFor pair.0 (D.shows disk.old).seen) }
    ensures version { IfOk result (λ pair. pair.0.version ≤ 2 ^ 62) }
    ensures ready { D.told → IsAllSettled (D.shows disk.old) → HasGate ((D.shows disk.old).seen Log0) → HasGate ((D.shows disk.old).seen Log1)
        → IfOk result (λ pair. IsReady (D.shows disk.new) pair.0 pair.1) }
    ensures none { D.told → IsErrOf result StartFault.NotABase → (base : Plain) → ¬ StandsFor base (D.shows disk.old).seen }
    ensures rests { D.told → Rests (D.shows disk.old) (D.shows disk.new) }
    ensures faults { CountsStart result (D.faults disk.old) (D.faults disk.new) }
    ensures failed { D.failed disk.new ≡ D.failed disk.old }
{
    one_list_at_most();
    check_bases(disk)?;
    check_empty(alloc, disk, File::Log1)?;
    let found = scan_log(alloc, disk, File::Log0)?;
    let base = base_of_payloads(alloc, found.payloads.as_slice())?;
    Ok((base, found.end))
}

// Sees that both base files are closed.
fn check_bases<D: Disk>(disk: &mut D) -> Result<(), StartFault>
    ensures closed { D.told → OnOk result (AreClosed (D.shows disk.old).seen) }
    ensures open { D.told → IsErrOf result StartFault.NotABase → ¬ AreClosed (D.shows disk.old).seen }
    ensures rests { D.told → Rests (D.shows disk.old) (D.shows disk.new) }
    ensures faults { CountsStart result (D.faults disk.old) (D.faults disk.new) }
    ensures failed { D.failed disk.new ≡ D.failed disk.old }
{
    check_base(disk, File::Base0)?;
    check_base(disk, File::Base1)?;
    Ok(())
}

// Sees that a base file is closed.
fn check_base<D: Disk>(disk: &mut D, file: File) -> Result<(), StartFault>
    ensures closed { D.told → OnOk result (IsClosedBase ((D.shows disk.old).seen file)) }
    ensures open { D.told → IsErrOf result StartFault.NotABase → ¬ IsClosedBase ((D.shows disk.old).seen file) }
    ensures rests { D.told → Rests (D.shows disk.old) (D.shows disk.new) }
    ensures faults { CountsStart result (D.faults disk.old) (D.faults disk.new) }
    ensures failed { D.failed disk.new ≡ D.failed disk.old }
{
    if disk.size(file)? < SHORTEST_BASE {
        return Ok(());
    }
    let mut gate = [0u8];
    disk.read(file, 0, &mut gate)?;
    if gate[0] == OPEN_GATE {
        return Err(StartFault::NotABase);
    }
    Ok(())
}

// Sees that a log holds no record.
fn check_empty<D: Disk>(alloc: Global, disk: &mut D, file: File) -> Result<(), StartFault>
    ensures empty { D.told → OnOk result (HoldsList [] ((D.shows disk.old).seen file)) }
    ensures some { D.told → IsErrOf result StartFault.NotABase → ¬ HoldsList [] ((D.shows disk.old).seen file) }
    ensures rests { D.told → Rests (D.shows disk.old) (D.shows disk.new) }
    ensures faults { CountsStart result (D.faults disk.old) (D.faults disk.new) }
    ensures failed { D.failed disk.new ≡ D.failed disk.old }
{
    one_list_at_most();
    let found = scan_log(alloc, disk, file)?;
    if found.payloads.len() > 0 {
        return Err(StartFault::NotABase);
    }
    Ok(())
}

// The list that a log holds.
fn scan_log<D: Disk>(alloc: Global, disk: &mut D, file: File) -> Result<Scan, StartFault>
    ensures list { D.told → IfOk result (λ found. IsLog ((D.shows disk.old).seen file) found.payloads found.end) }
    ensures bad { D.told → IsErrOf result StartFault.NotABase → (payloads : List (List ℕ)) → ¬ HoldsList payloads ((D.shows disk.old).seen file) }
    ensures rests { D.told → Rests (D.shows disk.old) (D.shows disk.new) }
    ensures faults { CountsStart result (D.faults disk.old) (D.faults disk.new) }
    ensures failed { D.failed disk.new ≡ D.failed disk.old }
{
    let found = scan(alloc, disk, file)?;
    Ok(found)
}
