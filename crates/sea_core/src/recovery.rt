// Starting a base from a disk.
ghost use Rattle.std.specs.Prelude.{◌≡◌, ◌≤◌, ◌^◌, IfOk, IsErrOf, MatchResult, OnOk};
ghost use Rattle.sea_disk.specs.declared.file.File.{File};
ghost use Rattle.sea_disk.specs.Runs.{Leaves};
ghost use Rattle.sea_operation.specs.declared.base.Plain.{Plain};
ghost use Rattle.sea_core.specs.Events.{Starts, Refuses};
ghost use Rattle.sea_core.specs.Gates.{with_gate};
ghost use Rattle.sea_core.specs.Sound.{IsReady};
ghost use Rattle.sea_core.specs.Stands.{StandsFor, KeepsStanding};
ghost use Rattle.sea_core.specs.State.{known, opened as opened_as};
ghost use Rattle.sea_core.specs.Steps.{ArchStays, IsAllSettled};
ghost use Rattle.sea_core.specs.Taking.{CountsStart, CountsFailedStart};

use crate::base::Core;
use crate::contents::read_base;
use crate::fault::StartFault;
use crate::first_gates::lay_gates;
use crate::limits::Limits;
use sea_disk::Disk;
use sea_operation::Plain;
use sqlite_items::Items;
use std::alloc::Global;
use std::snapshot::Snapshot;

impl<D: Disk> Core<D> {
    /// The core of what a disk's files stand for. Five empty files stand for the empty base. The disk comes back with a
    /// refusal.
    ///
    /// It syncs all five files, lays the first gate of each base file and log that is too short for a gate to count,
    /// closed, and reads the logs once. At each moment of it the files stand for what they stood for. The file
    /// `arch` is left as it is.
    ///
    /// Refuses with DiskFault where a call of the disk failed, and with NotABase exactly where the files stand for no
    /// base.
    pub fn start(alloc: Global, disk: D, limits: Limits) -> Result<Core<D>, (StartFault, D)>
        ensures { MatchResult result
            (λ core. Starts (known D.told D.shows D.faults D.failed) disk limits core)
            (λ refused. Refuses (known D.told D.shows D.faults D.failed) disk refused.0 refused.1) }
    {
        let mut disk = disk;
        match find(alloc, &mut disk) {
            Ok((base, end)) => Ok(opened(alloc, disk, base, end, limits)),
            Err(fault) => Err((fault, disk)),
        }
    }
}

// The core of a base that was found on a disk.
fn opened<D>(alloc: Global, disk: D, base: Plain, end: u64, limits: Limits) -> Core<D>
    requires { base.version ≤ 2 ^ 62 }
    ensures { result ≡ opened_as disk base limits end }
{
    Core {
        alloc,
        disk,
        opening: Snapshot::of(&base),
        base,
        history: Items::new(alloc),
        doubt: None,
        failed: None,
        limits,
        end,
    }
}

// The base that the files of a disk stand for, and the place of the gate that ends its log. It makes the files safe first.
fn find<D: Disk>(alloc: Global, disk: &mut D) -> Result<(Plain, u64), StartFault>
    ensures found { D.told → IfOk result (λ pair. StandsFor pair.0 (D.shows disk.old).seen) }
    ensures version { IfOk result (λ pair. pair.0.version ≤ 2 ^ 62) }
    ensures ready { D.told → IfOk result (λ pair. IsReady (D.shows disk.new) pair.0 pair.1) }
    ensures settled { D.told → OnOk result (IsAllSettled (D.shows disk.new)) }
    ensures laid { D.told → OnOk result ((file : File) → (D.shows disk.new).seen file ≡ with_gate file ((D.shows disk.old).seen file)) }
    ensures none { D.told → IsErrOf result StartFault.NotABase → (base : Plain) → ¬ StandsFor base (D.shows disk.old).seen }
    ensures leaves { D.told → Leaves (D.shows disk.old) (D.shows disk.new) (KeepsStanding (D.shows disk.old)) }
    ensures arch { D.told → ArchStays (D.shows disk.old) (D.shows disk.new) }
    ensures faults { CountsStart result (D.faults disk.old) (D.faults disk.new) }
    ensures failed { CountsFailedStart result (D.failed disk.old) (D.failed disk.new) }
{
    lay_gates(disk)?;
    let found = read_base(alloc, disk)?;
    Ok(found)
}
