// How a run ends.

/// How a run ends. The discriminant is the program's exit status.
#[derive(Clone, Copy, Debug, PartialEq, Eq)]
pub enum Status {
    /// The input was read to its end, and each line was played; or the whole base was dumped.
    Done = 0,
    /// The words are no command's; the usage line was written.
    Usage = 2,
    /// The source failed, and the run ended there.
    SourceFault = 3,
    /// The sink failed, and the run ended there.
    SinkFault = 4,
    /// A line met a fault of the disk, or a start or reopening did and the run ended there.
    DiskFault = 5,
    /// A line met want of memory, or the run itself met it and ended there.
    Memory = 6,
    /// A start or reopening found files that stand for no base, and the run ended there.
    NotABase = 7,
    /// A line passes 1,048,576 bytes, or the input 4,294,967,296, and the run ended there.
    TooLong = 9,
}

impl Status {
    ghost use Rattle.std.specs.Prelude.{◌≡◌};
    ghost use Rattle.sea_drive.specs.Status.{code_of};

    /// The program's exit status.
    pub fn code(self) -> u8
        ensures { result ≡ code_of self }
    {
        self as u8
    }
}
