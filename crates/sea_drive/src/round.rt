// A script while it is played.
use crate::status::Status;
use sea_core::Core;

/// The core of a script so far, and what its lines met.
pub struct Player<D> {
    pub core: Core<D>,
    /// Some line ran out of memory.
    pub ran_out_of_memory: bool,
    /// In some line the disk failed.
    pub disk_failed: bool,
}

/// What comes of a round, which plays the next line: the script goes on, or it ends with this status and leaves the disk.
pub enum Round<D> {
    On(Player<D>),
    End(Status, D),
}
