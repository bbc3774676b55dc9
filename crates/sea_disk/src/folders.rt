// The folders that disks are opened in.
ghost use Rattle.std.specs.Prelude.{◌≡◌, Some, None, ℕ, List, MatchResult};

use crate::folder::{FolderDisk, sync_names};
use sea_faults::Failed;
use std::alloc::Global;
use std::fs::File as OpenFile;
use std::rt::Files;
use std::{fs, io};

/// The folders that disks are opened in, by their names.
pub trait Folders<D> {
    /// Which disks a folder of a name may give.
    ghost gives: { Self → List ℕ → D → Type 0 };

    /// That a folder of a name gives none.
    ghost refuses: { Self → List ℕ → Type 0 };

    /// Opens the disk of a folder, and makes the folder where it is absent. Refuses with `Failed` where that can't be done.
    fn open(&mut self, alloc: Global, folder: &str) -> Result<D, Failed>
        ensures { MatchResult result (λ disk. gives self.old folder.now disk) (λ _. refuses self.old folder.now) };
}

/// The folders of the system. They tell nothing of their disks.
pub struct SystemFolders<'a, R> {
    pub rt: &'a R,
}

impl<'a, R: Files<File = OpenFile>> Folders<FolderDisk> for SystemFolders<'a, R> {
    ghost gives = { λ _ _ _. Unit {0} };

    ghost refuses = { λ _ _. Unit {0} };

    fn open(&mut self, alloc: Global, folder: &str) -> Result<FolderDisk, Failed> {
        match open_folder(self.rt, alloc, folder) {
            Ok(disk) => Ok(disk),
            Err(_) => Err(Failed),
        }
    }
}

// Makes the folder where it is absent, and opens its files.
fn open_folder<R: Files<File = OpenFile>>(
    rt: &R,
    alloc: Global,
    folder: &str,
) -> io::Result<FolderDisk> {
    make_folder(rt, alloc, folder)?;
    FolderDisk::open(rt, alloc, folder)
}

// Makes the folder where it is absent, with those that it lies in, and then makes their names safe.
fn make_folder<R: Files<File = OpenFile>>(rt: &R, alloc: Global, folder: &str) -> io::Result<()> {
    match fs::create_dir(rt, folder) {
        Ok(()) => sync_names(rt, format!(in alloc; "{folder}/..")?.as_str()),
        Err(error) if error.kind() == io::ErrorKind::AlreadyExists => Ok(()),
        Err(_) => {
            fs::create_dir_all(rt, folder)?;
            sync_above(rt, alloc, folder)
        }
    }
}

// Makes safe the names of all folders that a folder lies in by its own name.
fn sync_above<R: Files<File = OpenFile>>(rt: &R, alloc: Global, folder: &str) -> io::Result<()> {
    let mut above = format!(in alloc; "{folder}/..")?;
    sync_names(rt, above.as_str())?;
    for byte in folder.as_bytes() {
        if *byte == b'/' {
            above.push_str("/..")?;
            sync_names(rt, above.as_str())?;
        }
    }
    Ok(())
}

/// Folders in memory, of which the first that is opened gives this disk, where there is one, and others give none.
pub struct MemFolders<D> {
    pub disk: Option<D>,
}

impl<D> Folders<D> for MemFolders<D> {
    ghost gives = { λ folders _ disk. folders.disk ≡ Some disk };

    ghost refuses = { λ folders _. folders.disk ≡ None };

    fn open(&mut self, _alloc: Global, _folder: &str) -> Result<D, Failed> {
        match self.disk.take() {
            Some(disk) => Ok(disk),
            None => Err(Failed),
        }
    }
}
