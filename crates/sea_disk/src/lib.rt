//! A disk whose unsynced bytes may come out of a stop as anything: the trait, a disk in memory, a disk over a folder, and
//! a fuse.
//!
//! It stands on the counts of faults. The contract that matters to the crates above is that of the trait `Disk`: what a
//! read gives, and what a stop at any moment since a given one may have left. The definitions `Composition` are a part
//! of it: what several calls leave follows from what each leaves, and no crate above reasons about images by itself.
#![tactic(auto)]

mod bytes;
mod calls;
mod contents;
mod disk;
mod file;
mod folder;
mod folders;
mod fuse;
mod history;
mod memory;
mod through;

pub use disk::Disk;
pub use file::File;
pub use folder::FolderDisk;
pub use folders::{Folders, MemFolders, SystemFolders};
pub use fuse::Fuse;
pub use memory::MemDisk;
pub use sea_faults::Failed;
pub use through::{cut_through, write_through};
