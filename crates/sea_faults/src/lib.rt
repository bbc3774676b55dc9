//! Counts of faults, by which a caller knows that the outside failed, and not the callee; the one error of the outside;
//! and plans of faults, for the forms of the outside in memory.
//!
//! It stands on no other crate. What matters to the crates above are the definitions: where a disk, a source or a sink
//! answers a fault, its count rose in that call (`HasCause`), and what a caller answers tells of a fault exactly where
//! it rose (`Rose`, `IsCaused`).
#![tactic(auto)]

mod count;
mod plan;

pub use count::{Failed, Faults, counted, raise};
pub use plan::FaultPlan;
