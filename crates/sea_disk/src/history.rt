// The files of a disk in memory, with the writing calls that made them.
ghost use Rattle.std.specs.Prelude.{◌≡◌, ◌+◌, ◌++◌, ◌∷◌, [], List, length, take, IfOk, OnOk, OnErr};
ghost use Rattle.sea_disk.specs.declared.file.File.{File};
ghost use Rattle.sea_disk.specs.Calls.{overlaid, Torn, Cut, Turns};
ghost use Rattle.sea_disk.specs.Contents.{of_file};
ghost use Rattle.sea_disk.specs.Shown.{IsImage, IsSettled};
ghost use Rattle.sea_disk.specs.Traced.{track_of, with_call, with_laid, shown_of, left_by};

use crate::bytes::FileBytes;
use crate::calls::{Act, Call, Track};
use crate::contents::Contents;
use crate::file::File;
use sqlite_items::Items;
use std::alloc::{AllocError, Global};

/// Five files, and the writing calls that made them of empty ones, in order.
#[derive(Drop)]
pub struct History {
    alloc: Global,
    contents: Contents,
    /// All writing calls, but for syncs that failed and calls for which there was no memory.
    pub calls: Items<Call>,
    pub ghost held: { (file : File) → of_file contents file ≡ (track_of calls file).seen },
}

impl History {
    /// Five empty files that no call was made on.
    pub fn new(alloc: Global) -> History
        ensures { result.calls ≡ [] }
    {
        History {
            alloc,
            contents: Contents::new(alloc),
            calls: Items::new(alloc),
        }
    }

    /// The bytes of a file, as reads give them.
    pub fn bytes(&self, file: File) -> &[u8]
        ensures { result.now ≡ (shown_of self.now.calls).seen file }
    {
        self.contents.of(file)
    }

    /// Writes bytes from a place on. Without memory nothing happens.
    pub fn write(&mut self, file: File, at: u64, bytes: &[u8]) -> Result<(), AllocError>
        ensures ok { OnOk result (self.new.calls ≡ with_call self.old.calls file (Act.Write at bytes.now)) }
        ensures err { OnErr result (self.new.calls ≡ self.old.calls) }
        ensures written { OnOk result ((shown_of self.new.calls).seen file ≡ overlaid ((shown_of self.old.calls).seen file) at bytes.now) }
        ensures turns { Turns file (Torn at (length bytes.now)) (shown_of self.old.calls) (shown_of self.new.calls) }
    {
        let copy = Items::from_slice(self.alloc, bytes)?;
        let act = Act::Write { at, bytes: copy };
        self.calls.push(Call { file, act })?;
        match self.contents.overlay(file, at, bytes) {
            Ok(()) => Ok(()),
            Err(error) => {
                self.calls.pop();
                Err(error)
            }
        }
    }

    /// Fails to write so many bytes from a place on. What reads give stays. Without memory nothing happens.
    pub fn fail_write(&mut self, file: File, at: u64, count: usize) -> Result<(), AllocError>
        ensures ok { OnOk result (self.new.calls ≡ with_call self.old.calls file (Act.FailedWrite at (at + count))) }
        ensures err { OnErr result (self.new.calls ≡ self.old.calls) }
        ensures seen { (shown_of self.new.calls).seen file ≡ (shown_of self.old.calls).seen file }
        ensures turns { Turns file (Torn at count) (shown_of self.old.calls) (shown_of self.new.calls) }
    {
        let Some(to) = at.checked_add(count as u64) else {
            return Err(AllocError);
        };
        let act = Act::FailedWrite { at, to };
        self.calls.push(Call { file, act })?;
        Ok(())
    }

    /// Cuts a file to a length. Without memory nothing happens.
    pub fn cut(&mut self, file: File, len: u64) -> Result<(), AllocError>
        ensures ok { OnOk result (self.new.calls ≡ with_call self.old.calls file (Act.Cut len)) }
        ensures err { OnErr result (self.new.calls ≡ self.old.calls) }
        ensures cut { OnOk result ((shown_of self.new.calls).seen file ≡ take len ((shown_of self.old.calls).seen file)) }
        ensures turns { Turns file (Cut len) (shown_of self.old.calls) (shown_of self.new.calls) }
    {
        let act = Act::Cut { len };
        self.calls.push(Call { file, act })?;
        self.contents.cut(file, len);
        Ok(())
    }

    /// Fails to cut a file to a length. What reads give stays. Without memory nothing happens.
    pub fn fail_cut(&mut self, file: File, len: u64) -> Result<(), AllocError>
        ensures ok { OnOk result (self.new.calls ≡ with_call self.old.calls file (Act.FailedCut len)) }
        ensures err { OnErr result (self.new.calls ≡ self.old.calls) }
        ensures seen { (shown_of self.new.calls).seen file ≡ (shown_of self.old.calls).seen file }
        ensures turns { Turns file (Cut len) (shown_of self.old.calls) (shown_of self.new.calls) }
    {
        let act = Act::FailedCut { len };
        self.calls.push(Call { file, act })?;
        Ok(())
    }

    /// Makes a file safe. Without memory nothing happens.
    pub fn sync(&mut self, file: File) -> Result<(), AllocError>
        ensures ok { OnOk result (self.new.calls ≡ with_call self.old.calls file Act.Sync) }
        ensures err { OnErr result (self.new.calls ≡ self.old.calls) }
        ensures settled { OnOk result (IsSettled (shown_of self.new.calls) file) }
        ensures seen { (shown_of self.new.calls).seen file ≡ (shown_of self.old.calls).seen file }
        ensures turns { Turns file (λ was now. now ≡ was) (shown_of self.old.calls) (shown_of self.new.calls) }
    {
        let act = Act::Sync;
        self.calls.push(Call { file, act })?;
        Ok(())
    }

    /// What a stop leaves of the files by choice, as all that a stop may leave of what is given.
    pub fn image(&self, choice: u8) -> Result<History, AllocError>
        ensures chosen { IfOk result (λ image. (file : File) → (shown_of image.calls).seen file ≡ left_by choice (track_of self.now.calls file)) }
        ensures image { IfOk result (λ image. IsImage (shown_of self.now.calls) (shown_of image.calls).seen) }
        ensures settled { IfOk result (λ image. (file : File) → IsSettled (shown_of image.calls) file) }
    {
        let mut image = History::new(self.alloc);
        image.lay(self, File::Base0, choice)?;
        image.lay(self, File::Base1, choice)?;
        image.lay(self, File::Log0, choice)?;
        image.lay(self, File::Log1, choice)?;
        image.lay(self, File::Arch, choice)?;
        Ok(image)
    }

    // What a stop leaves of a file by choice.
    fn left_by(&self, file: File, choice: u8) -> Result<FileBytes, AllocError>
        ensures { IfOk result (λ bytes. bytes ≡ left_by choice (track_of self.now.calls file)) }
    {
        let track = Track::after(self.alloc, self.calls.as_slice(), file)?;
        track.left_by(self.alloc, choice)
    }

    // Writes what a stop leaves of a file of other files by choice, and makes it safe.
    fn lay(&mut self, other: &History, file: File, choice: u8) -> Result<(), AllocError>
        ensures { OnOk result (self.new.calls ≡ with_laid (left_by choice (track_of other.now.calls file)) self.old.calls file) }
    {
        let left = other.left_by(file, choice)?;
        self.write(file, 0, left.as_slice())?;
        self.sync(file)
    }
}
