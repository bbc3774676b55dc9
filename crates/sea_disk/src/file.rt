// The files of a disk.

/// The five files of a base.
#[derive(Clone, Copy, Debug, PartialEq, Eq)]
pub enum File {
    /// One of the two files that hold a checkpoint of the base.
    Base0,
    /// The other one.
    Base1,
    /// One of the two logs.
    Log0,
    /// The other one.
    Log1,
    /// The slots of archived rows.
    Arch,
}
