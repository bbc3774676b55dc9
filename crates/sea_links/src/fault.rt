// Why a pair is not added or not removed.
use std::alloc::AllocError;
use thiserror::Error;

/// Why a pair is not added.
#[derive(Clone, Copy, Debug, PartialEq, Eq, Error)]
pub enum LinkFault {
    /// Memory ran out.
    #[error("out of memory")]
    Memory,
    /// The link joins these rows already.
    #[error("these rows are linked")]
    LinkExists,
}

impl From<AllocError> for LinkFault {
    ghost use Rattle.std.specs.Prelude.{◌≡◌};
    ghost use Rattle.sea_links.specs.declared.fault.LinkFault.TheVariants.{Memory};

    ghost from_gives = { λ _ fault. fault ≡ Memory };

    fn from(_error: AllocError) -> LinkFault {
        LinkFault::Memory
    }
}

/// The link doesn't join these rows, so that there is no pair to remove.
#[derive(Clone, Copy, Debug, PartialEq, Eq, Error)]
#[error("these rows are not linked")]
pub struct NoLink;
