// The contents of five files in memory.
ghost use Rattle.std.specs.Prelude.{◌≡◌, [], take, OnOk, OnErr};
ghost use Rattle.sea_disk.specs.Calls.{overlaid};
ghost use Rattle.sea_disk.specs.Contents.{of_file, with_file};

use crate::bytes::FileBytes;
use crate::file::File;
use std::alloc::{AllocError, Global};

/// The bytes of the five files of a disk.
#[derive(Drop)]
pub struct Contents {
    pub base0: FileBytes,
    pub base1: FileBytes,
    pub log0: FileBytes,
    pub log1: FileBytes,
    pub arch: FileBytes,
}

impl Contents {
    /// Five empty files.
    pub fn new(alloc: Global) -> Contents
        ensures { result ≡ record { base0 = []; base1 = []; log0 = []; log1 = []; arch = [] } }
    {
        Contents {
            base0: FileBytes::new(alloc),
            base1: FileBytes::new(alloc),
            log0: FileBytes::new(alloc),
            log1: FileBytes::new(alloc),
            arch: FileBytes::new(alloc),
        }
    }

    /// The bytes of a file.
    pub fn of(&self, file: File) -> &[u8]
        ensures { result.now ≡ of_file self.now file }
    {
        match file {
            File::Base0 => self.base0.as_slice(),
            File::Base1 => self.base1.as_slice(),
            File::Log0 => self.log0.as_slice(),
            File::Log1 => self.log1.as_slice(),
            File::Arch => self.arch.as_slice(),
        }
    }

    /// Lays a piece over the bytes of a file. Without memory it leaves them as they were.
    pub fn overlay(&mut self, file: File, at: u64, piece: &[u8]) -> Result<(), AllocError>
        ensures ok { OnOk result (self.new ≡ with_file self.old file (overlaid (of_file self.old file) at piece.now)) }
        ensures err { OnErr result (self.new ≡ self.old) }
    {
        match file {
            File::Base0 => self.base0.overlay(at, piece),
            File::Base1 => self.base1.overlay(at, piece),
            File::Log0 => self.log0.overlay(at, piece),
            File::Log1 => self.log1.overlay(at, piece),
            File::Arch => self.arch.overlay(at, piece),
        }
    }

    /// Keeps the first bytes of a file alone.
    pub fn cut(&mut self, file: File, len: u64)
        ensures { self.new ≡ with_file self.old file (take len (of_file self.old file)) }
    {
        match file {
            File::Base0 => self.base0.cut(len),
            File::Base1 => self.base1.cut(len),
            File::Log0 => self.log0.cut(len),
            File::Log1 => self.log1.cut(len),
            File::Arch => self.arch.cut(len),
        }
    }
}
