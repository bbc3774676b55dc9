//! Which refusal of an operation comes first, over whatever shows a base: one check for each kind of refusal.
//!
//! It stands on operations and their definitions. The contract that matters to the crates above is that of `check`: it
//! passes where nothing that is seen of a base refuses an operation, and else fails with the first refusal.
#![tactic(auto)]

mod checking;
mod columns;
mod ids;
mod limits;
mod linking;
mod naming;
mod viewing;

pub use checking::{check, new_rows};
pub use columns::columns_in;
pub use limits::changes_fit;
