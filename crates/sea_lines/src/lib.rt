//! The lines of a source, one after another, within the limits on a line and on the input.
//!
//! It stands on the edge of the program, whose sources it reads. The contract that matters to the crates above is that of
//! `LineReader::next_line`: it gives the next line of the source, `None` exactly at its end, and `TooLong` exactly where the
//! next line passes its limit or the input its own. The bytes that were read, and those that are left, are the input's.
#![tactic(auto)]

mod reader;

pub use reader::{LineReader, ReadFault};
