//! A log in one file of a disk, of which a stop at any moment leaves every record that was acknowledged.
//!
//! It stands on the disk's model and on binary fields. A record counts where the gate before it is open, a byte that
//! is 1. A gate stands closed on the disk before anything is written behind it, and is opened by a write of its own
//! once the record behind it is safe; no checksum is trusted. The contract that matters to the crates above is that of
//! `append`: at any moment a stop leaves the list, or the list with the new payload, and after Ok the latter alone.
#![tactic(auto)]

mod addition;
mod fault;
mod first_gate;
mod laws;
mod list;
mod piece;
mod removal;
mod traversal;

pub use addition::{append, log_size};
pub use fault::LogFault;
pub use first_gate::begin;
pub use laws::one_list_at_most;
pub use list::{Payloads, Scan};
pub use removal::clear;
pub use traversal::{SHORTEST_LOG, scan};
