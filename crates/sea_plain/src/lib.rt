//! The plain base: what operations make of it, by bodies that are plain and slow.
//!
//! It stands on operations and their refusals. The contract that matters to the crates above is that of `apply_plain`: the
//! base after an entry is the defined one, or the entry is refused with the first refusal that holds. Whatever is faster
//! keeps the same contracts.
#![tactic(auto)]

mod apply;
mod changed;
mod ends;
mod joined;
mod linked;
mod tables;

pub use apply::{apply_plain, run_plain};
pub use linked::{TableRows, Tables, rows_shown, tables_of};
pub use sea_operation::{
    Entries, Entry, Op, OpRefusal, Plain, PlainPairs, PlainTable, PlainTables,
};
