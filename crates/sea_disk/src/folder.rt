// A disk over a folder of the system.
ghost use Rattle.std.specs.Prelude.{◌≡◌, false, IfOk};
ghost use Rattle.sea_faults.specs.Counts.{counted_on};
ghost use Rattle.sea_disk.specs.Untold.{untold, untold_is_disk};

use crate::disk::Disk;
use crate::file::File;
use sea_faults::{Failed, Faults};
use std::alloc::Global;
use std::fs::{File as OpenFile, OpenOptions};
use std::io;
use std::os::unix::fs::FileExt;
use std::rt::Files;

/// The files `base0`, `base1`, `log0`, `log1` and `arch` of a folder, opened once and kept open. It tells no content:
/// that the folder behaves as a disk is not proved.
#[derive(Drop)]
pub struct FolderDisk {
    base0: OpenFile,
    base1: OpenFile,
    log0: OpenFile,
    log1: OpenFile,
    arch: OpenFile,
    faults: Faults,
}

impl FolderDisk {
    /// Opens the five files of a folder, and makes those that are absent. Their names are safe then: the folder is synced.
    /// No call has failed yet.
    pub fn open<R: Files<File = OpenFile>>(
        rt: &R,
        alloc: Global,
        folder: &str,
    ) -> io::Result<FolderDisk>
        ensures failed { IfOk result (λ disk. disk.faults.all ≡ 0) }
        ensures failed_writes { IfOk result (λ disk. disk.faults.writes ≡ 0) }
    {
        let disk = FolderDisk {
            base0: open_file(rt, alloc, folder, "base0")?,
            base1: open_file(rt, alloc, folder, "base1")?,
            log0: open_file(rt, alloc, folder, "log0")?,
            log1: open_file(rt, alloc, folder, "log1")?,
            arch: open_file(rt, alloc, folder, "arch")?,
            faults: Faults::none(),
        };
        sync_names(rt, folder)?;
        Ok(disk)
    }

    fn file(&self, file: File) -> &OpenFile {
        match file {
            File::Base0 => &self.base0,
            File::Base1 => &self.base1,
            File::Log0 => &self.log0,
            File::Log1 => &self.log1,
            File::Arch => &self.arch,
        }
    }
}

// A file of the folder, for reading and writing.
fn open_file<R: Files<File = OpenFile>>(
    rt: &R,
    alloc: Global,
    folder: &str,
    name: &str,
) -> io::Result<OpenFile> {
    let path = format!(in alloc; "{folder}/{name}")?;
    let mut options = OpenOptions::new();
    options.read(true).write(true).create(true);
    options.open(rt, path.as_str())
}

/// Makes safe which names a folder holds: a sync of a file is none of its name.
pub fn sync_names<R: Files<File = OpenFile>>(rt: &R, folder: &str) -> io::Result<()> {
    OpenFile::open(rt, folder)?.sync_all()
}

impl Disk for FolderDisk {
    ghost told = { ⊥ };

    ghost shows = { λ _. untold };

    ghost faults = { λ disk. disk.faults.all };

    ghost failed = { λ disk. disk.faults.writes };

    ghost due = { λ _ _. false };

    ghost steps = { λ old new failed. new.faults.all ≡ counted_on failed old.faults.all };

    fn size(&mut self, file: File) -> Result<u64, Failed> {
        match self.file(file).metadata() {
            Ok(metadata) => Ok(metadata.len()),
            Err(_) => Err(self.faults.read()),
        }
    }

    fn read(&mut self, file: File, at: u64, into: &mut [u8]) -> Result<(), Failed> {
        match self.file(file).read_exact_at(into, at) {
            Ok(()) => Ok(()),
            Err(_) => Err(self.faults.read()),
        }
    }

    fn write_at(&mut self, file: File, at: u64, bytes: &[u8]) -> Result<(), Failed> {
        match self.file(file).write_all_at(bytes, at) {
            Ok(()) => Ok(()),
            Err(_) => Err(self.faults.write()),
        }
    }

    fn cut(&mut self, file: File, len: u64) -> Result<(), Failed> {
        match self.file(file).set_len(len) {
            Ok(()) => Ok(()),
            Err(_) => Err(self.faults.write()),
        }
    }

    fn sync(&mut self, file: File) -> Result<(), Failed> {
        match self.file(file).sync_data() {
            Ok(()) => Ok(()),
            Err(_) => Err(self.faults.write()),
        }
    }

    fn faults(&self) -> u64 {
        self.faults.all
    }

    ghost sound = { λ _. untold_is_disk };
}
