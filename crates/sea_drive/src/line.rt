// What a line comes to.
use crate::outcome::LineOutcome;
use sea_core::{Core, StartFault};

/// What a line came to.
pub enum Played<D> {
    /// What came of it, or None for want of memory, and the core after it.
    On(Option<LineOutcome>, Core<D>),
    /// A reopening was refused, which leaves the disk alone.
    Refused(StartFault, D),
}
