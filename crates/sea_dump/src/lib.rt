//! A base written out, line by line.
//!
//! It stands on the plain base as a reader sees it, on JSON values and on the edge of the program. The contract that matters
//! to the crates above is that of `write_base`: the lines of the base are given to the sink, or, where the sink failed or no
//! memory was left, a front of them.
#![tactic(auto)]

mod base_lines;
mod names;
mod output;

pub use names::names_of;
pub use output::{DumpFault, write_base};
