//! Binary fields: numbers in big-endian order, and byte rows led by their length.
//!
//! It stands on no other crate of the project. The contract that matters to the crates above is that of the `take` calls: which number or
//! byte row stands at a place, or why none does; and that what a `put` call wrote is what `take` reads, whatever
//! stands before it and follows.
#![tactic(auto)]

mod laws;
mod owned;
mod put;
mod span;
mod take;

pub use laws::{byte_rows_are_read_again, numbers_are_read_again};
pub use owned::{Bytes, Slots};
pub use put::{put_bytes, put_u8, put_u32, put_u64};
pub use span::{FieldFault, Short, Span};
pub use take::{take_bytes, take_u8, take_u32, take_u64};
