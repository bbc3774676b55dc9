//! The edge of the program: sources, sinks and clocks, in memory and of the system.
//!
//! It stands on the range of moments and on the outside's error, its counts and the plans of faults. The contract that matters to the crates above is that
//! of the traits `Source`, `Sink` and `Clock`: which bytes a call moves, and that a call fails only where its object's
//! count of faults rose in it. The forms in memory tell their content, so that what is proved of a program over them is
//! proved of its bytes. The adapters of the system tell none.
#![tactic(auto)]

mod memory;
mod outside;
mod system;

pub use memory::{FixedClock, MemSink, MemSource};
pub use outside::{Clock, Sink, Source};
pub use sea_faults::Failed;
pub use system::{StdSink, StdSource, SystemClock};
