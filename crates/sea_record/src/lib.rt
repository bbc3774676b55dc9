//! Entries as records of the log, both ways.
//!
//! It stands on the canonical texts of operations and on binary fields. The contract that matters to the crates above is
//! that of `entry_of_record`: of which entry the bytes are the record, and under which number, or that they are the record
//! of none. `record_of_entry` writes it, and no bytes are the record of two entries (`records_have_one_entry`). So a log
//! gives back the entries that it took.
#![tactic(auto)]

mod laws;
mod record;

pub use laws::{long_fields_make_long_records, records_have_one_entry};
pub use record::{entry_of_record, record_length, record_of_entry};
