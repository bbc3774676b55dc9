// Why a text gives no operation.
use std::alloc::AllocError;
use thiserror::Error;

/// Why a text gives no operation.
#[derive(Clone, Copy, Debug, PartialEq, Eq, Error)]
pub enum OpFault {
    /// Memory ran out.
    #[error("out of memory")]
    Memory,
    /// The text is no operation.
    #[error("no operation")]
    BadOperation,
}

impl From<AllocError> for OpFault {
    ghost use Rattle.std.specs.Prelude.{◌≡◌};
    ghost use Rattle.sea_ops.specs.declared.fault.OpFault.TheVariants.{Memory};

    ghost from_gives = { λ _ fault. fault ≡ Memory };

    fn from(_error: AllocError) -> OpFault {
        OpFault::Memory
    }
}
