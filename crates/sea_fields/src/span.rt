// Where bytes lie, and why a field can't be read.
use thiserror::Error;

/// The range of some bytes, `to` not included.
#[derive(Clone, Copy, Debug, PartialEq, Eq)]
pub struct Span {
    pub from: usize,
    pub to: usize,
}

/// Too few bytes are left for a field.
#[derive(Clone, Copy, Debug, PartialEq, Eq, Error)]
#[error("too few bytes are left")]
pub struct Short;

/// Why a byte row can't be read.
#[derive(Clone, Copy, Debug, PartialEq, Eq, Error)]
pub enum FieldFault {
    /// Too few bytes are left for it.
    #[error("too few bytes are left")]
    Short,
    /// Its length is above what is allowed.
    #[error("too long")]
    TooLong,
}

impl From<Short> for FieldFault {
    ghost use Rattle.std.specs.Prelude.{◌≡◌};
    ghost use Rattle.sea_fields.specs.declared.span.FieldFault.TheVariants as fault;

    ghost from_gives = { λ _ e. e ≡ fault.Short };

    fn from(_short: Short) -> FieldFault {
        FieldFault::Short
    }
}
