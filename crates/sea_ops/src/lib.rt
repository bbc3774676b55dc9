//! Operations as JSON, both ways.
//!
//! It stands on the plain base's operations and on JSON values. The contract that matters to the crates above is that
//! of `op_of_json`: which operation a text is, or that it is none; beside it stands that of `op_text`, the one canonical
//! text of an operation. `check` gives the first refusal of an operation over a schema and the rows beside it, for a base
//! that doesn't hold all of its rows; no program calls it yet.
#![tactic(auto)]

mod arrays;
mod checking;
mod columns;
mod fault;
mod laws;
mod members;
mod reading;
mod rows;
mod straight;
mod views;
mod writing;

pub use checking::{RowsSeen, check};
pub use fault::OpFault;
pub use laws::{operations_have_no_float, texts_are_forms};
pub use reading::{op_of_bytes, op_of_json};
pub use writing::{op_json, op_text};
