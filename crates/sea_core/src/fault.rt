// Why a core refuses a call.
use sea_disk::Failed;
use sea_log::LogFault;
use sea_operation::OpRefusal;
use std::alloc::AllocError;
use thiserror::Error;

/// Why an entry or a feed is refused.
#[derive(Drop)]
pub enum CoreFault {
    /// Memory ran out; nothing has changed.
    Memory,
    /// The operation has this refusal.
    Op(OpRefusal),
    /// A write, a cut or a sync failed since the base was started, and `count` calls of the disk had failed then. The
    /// base takes no entry until it is started again.
    BaseFailed { count: u64 },
    /// The log would have `size` bytes, which is more than it may have.
    LogFull { size: u64 },
    /// A call of the disk failed. The entry is in doubt until the base is started again.
    DiskFault,
    /// A feed asks for entries from before the opening, when the base had the version `opening`.
    FeedGone { opening: u64 },
    /// A feed asks for entries behind a version that the base doesn't have yet; it has `version`.
    FeedAhead { version: u64 },
}

impl From<AllocError> for CoreFault {
    ghost use Rattle.std.specs.Prelude.{◌≡◌};
    ghost use Rattle.sea_core.specs.declared.fault.CoreFault.TheVariants.{Memory};

    ghost from_gives = { λ _ fault. fault ≡ Memory };

    fn from(_error: AllocError) -> CoreFault {
        CoreFault::Memory
    }
}

/// Why a base can't be started.
#[derive(Clone, Copy, Debug, PartialEq, Eq, Error)]
pub enum StartFault {
    /// Memory ran out.
    #[error("out of memory")]
    Memory,
    /// A call of the disk failed.
    #[error("the disk failed")]
    DiskFault,
    /// The files stand for no base.
    #[error("no base")]
    NotABase,
}

impl From<AllocError> for StartFault {
    ghost use Rattle.std.specs.Prelude.{◌≡◌};
    ghost use Rattle.sea_core.specs.declared.fault.StartFault.TheVariants.{Memory};

    ghost from_gives = { λ _ fault. fault ≡ Memory };

    fn from(_error: AllocError) -> StartFault {
        StartFault::Memory
    }
}

impl From<Failed> for StartFault {
    ghost use Rattle.std.specs.Prelude.{◌≡◌};
    ghost use Rattle.sea_core.specs.declared.fault.StartFault.TheVariants.{DiskFault};

    ghost from_gives = { λ _ fault. fault ≡ DiskFault };

    fn from(_failed: Failed) -> StartFault {
        StartFault::DiskFault
    }
}

impl From<LogFault> for StartFault {
    ghost use Rattle.std.specs.Prelude.{◌≡◌};
    ghost use Rattle.sea_core.specs.Steps.{start_fault_of};

    ghost from_gives = { λ log fault. fault ≡ start_fault_of log };

    fn from(fault: LogFault) -> StartFault {
        match fault {
            LogFault::Memory => StartFault::Memory,
            LogFault::DiskFault => StartFault::DiskFault,
            LogFault::BadLog | LogFault::LogFull { size: _ } => StartFault::NotABase,
        }
    }
}
