// A disk in memory.
ghost use Rattle.std.specs.Prelude.{◌≡◌, ◌+◌, ◌≤◌, ◌++◌, ◌∷◌, [], length, take, drop, IfOk, OnOk, OnErr};
ghost use Rattle.sea_faults.specs.Plans.{is_due};
ghost use Rattle.sea_disk.specs.declared.file.File.{File};
ghost use Rattle.sea_disk.specs.Steps.{MemSteps};
ghost use Rattle.sea_disk.specs.Shown.{IsImage, IsSettled};
ghost use Rattle.sea_disk.specs.Traced.{track_of, shown_of, left_by};
ghost use Rattle.sea_disk.specs.TracedLaws.{shown_is_disk};

use crate::disk::Disk;
use crate::file::File;
use crate::history::History;
use sea_faults::{Failed, FaultPlan, Faults};
use std::alloc::{AllocError, Global};

/// A disk in memory. It tells its content, and keeps its writing calls, so that it knows what a stop may leave. It
/// fails the calls that it is told to fail, and those for which there is no memory.
#[derive(Drop)]
pub struct MemDisk {
    alloc: Global,
    /// The files, and the writing calls that made them.
    pub history: History,
    /// How many calls were made, and which are to fail.
    pub plan: FaultPlan,
    /// How many calls failed, and how many of them were writing calls.
    pub faults: Faults,
}

impl MemDisk {
    /// A disk of five empty files that no call was made on.
    pub fn blank(alloc: Global) -> Result<MemDisk, AllocError>
        ensures calls { IfOk result (λ disk. disk.history.calls ≡ []) }
        ensures made { IfOk result (λ disk. disk.plan.made ≡ 0) }
        ensures faults { IfOk result (λ disk. (disk.faults.all ≡ 0) × (disk.faults.writes ≡ 0) × (disk.plan.fails ≡ [])) }
    {
        Ok(MemDisk::over(alloc, History::new(alloc)))
    }

    // A disk with these files, as no call found it yet.
    fn over(alloc: Global, history: History) -> MemDisk
        ensures history { result.history ≡ history }
        ensures made { result.plan.made ≡ 0 }
        ensures faults { (result.faults.all ≡ 0) × (result.faults.writes ≡ 0) × (result.plan.fails ≡ []) }
    {
        MemDisk {
            alloc,
            history,
            plan: FaultPlan::new(alloc),
            faults: Faults::none(),
        }
    }

    /// How many calls were made since `blank` or `image` gave this disk.
    pub fn calls(&self) -> u64
        ensures { result ≡ self.now.plan.made }
    {
        self.plan.made
    }

    /// Makes the call of this number fail, where the first call since `blank` or `image` gave this disk has number 1.
    /// A failed write, cut or sync leaves what reads give as it was.
    pub fn fail(&mut self, call: u64) -> Result<(), AllocError>
        ensures ok { OnOk result (self.new ≡ record self.old { plan = record self.old.plan { fails = self.old.plan.fails ++ call ∷ [] } }) }
        ensures err { OnErr result (self.new ≡ self.old) }
    {
        self.plan.fail(call)
    }

    /// What a stop leaves of this disk, by choice: with 0 nothing since each file's last good sync, with 1 everything,
    /// and with any other number each file's largest size with 1 for each byte that isn't safe. It is then all that a
    /// stop may leave of the disk that is given.
    pub fn image(&self, choice: u8) -> Result<MemDisk, AllocError>
        ensures chosen { IfOk result (λ image. (file : File) → (shown_of image.history.calls).seen file ≡ left_by choice (track_of self.now.history.calls file)) }
        ensures image { IfOk result (λ image. IsImage (shown_of self.now.history.calls) (shown_of image.history.calls).seen) }
        ensures settled { IfOk result (λ image. (file : File) → IsSettled (shown_of image.history.calls) file) }
        ensures made { IfOk result (λ image. image.plan.made ≡ 0) }
        ensures faults { IfOk result (λ image. (image.faults.all ≡ 0) × (image.faults.writes ≡ 0) × (image.plan.fails ≡ [])) }
    {
        Ok(MemDisk::over(self.alloc, self.history.image(choice)?))
    }
}

impl Disk for MemDisk {
    ghost told = { Unit {0} };

    ghost shows = { λ disk. shown_of disk.history.calls };

    ghost faults = { λ disk. disk.faults.all };

    ghost failed = { λ disk. disk.faults.writes };

    ghost due = { λ disk. is_due disk.plan };

    ghost steps = { λ old new failed. MemSteps old new failed };

    fn size(&mut self, file: File) -> Result<u64, Failed> {
        if self.plan.next_fails() {
            return Err(self.faults.read());
        }
        Ok(self.history.bytes(file).len() as u64)
    }

    fn read(&mut self, file: File, at: u64, into: &mut [u8]) -> Result<(), Failed> {
        if self.plan.next_fails() {
            return Err(self.faults.read());
        }
        place(self.history.bytes(file), at as usize, into);
        Ok(())
    }

    fn write_at(&mut self, file: File, at: u64, bytes: &[u8]) -> Result<(), Failed> {
        if self.plan.next_fails() {
            let _ = self.history.fail_write(file, at, bytes.len());
            return Err(self.faults.write());
        }
        match self.history.write(file, at, bytes) {
            Ok(()) => Ok(()),
            Err(_) => Err(self.faults.write()),
        }
    }

    fn cut(&mut self, file: File, len: u64) -> Result<(), Failed> {
        if self.plan.next_fails() {
            let _ = self.history.fail_cut(file, len);
            return Err(self.faults.write());
        }
        match self.history.cut(file, len) {
            Ok(()) => Ok(()),
            Err(_) => Err(self.faults.write()),
        }
    }

    fn sync(&mut self, file: File) -> Result<(), Failed> {
        if self.plan.next_fails() {
            return Err(self.faults.write());
        }
        match self.history.sync(file) {
            Ok(()) => Ok(()),
            Err(_) => Err(self.faults.write()),
        }
    }

    fn faults(&self) -> u64 {
        self.faults.all
    }

    ghost sound = { λ disk. shown_is_disk disk.history.calls };
}

// Places the bytes from a place on.
fn place(bytes: &[u8], at: usize, into: &mut [u8])
    requires { at + length into.old ≤ length bytes.now }
    ensures { into.new ≡ take (length into.old) (drop at bytes.now) }
{
    into.copy_from_slice(&bytes[at..at + into.len()]);
}
