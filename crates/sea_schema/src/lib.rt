//! The schema of a base: its tables without their rows, and the numbers that come next.
//!
//! It stands on the columns and views of `sea_cell`. The contract that matters to the crates above is that of the
//! changing calls of `Schema`: each makes the change that is defined in `specs/Layout.antt`, of one table or of the
//! schema, and no other; want of memory is its one refusal, and leaves the schema as it was. A link column is added with
//! its other side, and goes with it. Numbers of tables and of links and keys of columns are given by counters that only
//! rise, so none of them is used again.
#![tactic(auto)]

mod laws;
mod links;
mod schema;
mod table;

pub use laws::{links_have_two_ends, new_columns_have_their_keys};
pub use links::is_link_among;
pub use schema::Schema;
pub use table::{Table, Tables, more_options};
