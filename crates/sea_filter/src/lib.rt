//! The conditions of views: which rows a view selects.
//!
//! It stands on cells, columns and rows. The contract that matters to the crates above is that of `selected`: the ids of
//! the rows that meet the view's filters, in their order, each row judged by its cells and its own times alone. No program
//! calls it yet.
#![tactic(auto)]

mod comparison;
mod selection;

pub use selection::{meets, selected};
