// A disk that fails from some call on.
ghost use Rattle.std.specs.Prelude.{◌≡◌, ◌+◌, ◌-◌, ◌==◌, ◌||◌, not, nat_le, min};
ghost use Rattle.sea_faults.specs.Counts.{last_count};
ghost use Rattle.sea_disk.specs.Steps.{FuseSteps};

use crate::disk::Disk;
use crate::file::File;
use sea_faults::{Failed, Faults};

/// A disk that passes a number of calls on to another one and then fails all. What is on the other disk then is what a
/// stop at that call finds.
#[derive(Drop)]
pub struct Fuse<D> {
    pub disk: D,
    /// How many calls are still passed on.
    pub calls: u64,
    /// How many calls were failed here, and how many of them were writing calls.
    pub blown: Faults,
}

impl<D: Disk> Fuse<D> {
    /// Passes this many calls on to the disk, and then fails all. It takes no memory.
    pub fn over(disk: D, calls: u64) -> Fuse<D>
        ensures disk { result.disk ≡ disk }
        ensures calls { result.calls ≡ calls }
        ensures blown { result.blown.all ≡ 0 }
        ensures blown_writes { result.blown.writes ≡ 0 }
    {
        Fuse {
            disk,
            calls,
            blown: Faults::none(),
        }
    }

    /// The disk.
    pub fn into_disk(self) -> D
        ensures { result ≡ self.disk }
    {
        let Fuse {
            disk,
            calls: _,
            blown: _,
        } = self;
        disk
    }

    // Takes one of the calls that are still passed on, and tells whether there was one.
    fn next_passes(&mut self) -> bool
        ensures passes { result ≡ not (self.old.calls == 0) }
        ensures taken { self.new ≡ record self.old { calls = self.old.calls - 1 } }
    {
        let passes = self.calls != 0;
        self.calls = self.calls.saturating_sub(1);
        passes
    }
}

impl<D: Disk> Disk for Fuse<D> {
    ghost told = { D.told };

    ghost shows = { λ fuse. D.shows fuse.disk };

    ghost faults = { λ fuse. min (D.faults fuse.disk + fuse.blown.all) last_count };

    ghost failed = { λ fuse. min (D.failed fuse.disk + fuse.blown.writes) last_count };

    ghost due = { λ fuse place. nat_le fuse.calls place || D.due fuse.disk place };

    ghost steps = { λ old new failed. FuseSteps D.steps old new failed };

    fn size(&mut self, file: File) -> Result<u64, Failed> {
        if !self.next_passes() {
            return Err(self.blown.read());
        }
        self.disk.size(file)
    }

    fn read(&mut self, file: File, at: u64, into: &mut [u8]) -> Result<(), Failed> {
        if !self.next_passes() {
            return Err(self.blown.read());
        }
        self.disk.read(file, at, into)
    }

    fn write_at(&mut self, file: File, at: u64, bytes: &[u8]) -> Result<(), Failed> {
        if !self.next_passes() {
            return Err(self.blown.write());
        }
        self.disk.write_at(file, at, bytes)
    }

    fn cut(&mut self, file: File, len: u64) -> Result<(), Failed> {
        if !self.next_passes() {
            return Err(self.blown.write());
        }
        self.disk.cut(file, len)
    }

    fn sync(&mut self, file: File) -> Result<(), Failed> {
        if !self.next_passes() {
            return Err(self.blown.write());
        }
        self.disk.sync(file)
    }

    fn faults(&self) -> u64 {
        self.disk.faults().saturating_add(self.blown.all)
    }

    ghost sound = { λ fuse. D.sound fuse.disk };
}
