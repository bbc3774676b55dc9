// Why a call on a log is refused.
use sea_disk::Failed;
use std::alloc::AllocError;
use thiserror::Error;

/// Why a call on a log is refused.
#[derive(Clone, Copy, Debug, PartialEq, Eq, Error)]
pub enum LogFault {
    /// Memory ran out.
    #[error("out of memory")]
    Memory,
    /// A call of the disk failed.
    #[error("the disk failed")]
    DiskFault,
    /// A gate is open that has no record behind it.
    #[error("no log")]
    BadLog,
    /// The log would have `size` bytes, which is more than it may have.
    #[error("the log would have {size} bytes")]
    LogFull { size: u64 },
}

impl From<AllocError> for LogFault {
    ghost use Rattle.std.specs.Prelude.{◌≡◌};
    ghost use Rattle.sea_log.specs.declared.fault.LogFault.TheVariants.{Memory};

    ghost from_gives = { λ _ fault. fault ≡ Memory };

    fn from(_error: AllocError) -> LogFault {
        LogFault::Memory
    }
}

impl From<Failed> for LogFault {
    ghost use Rattle.std.specs.Prelude.{◌≡◌};
    ghost use Rattle.sea_log.specs.declared.fault.LogFault.TheVariants.{DiskFault};

    ghost from_gives = { λ _ fault. fault ≡ DiskFault };

    fn from(_failed: Failed) -> LogFault {
        LogFault::DiskFault
    }
}
