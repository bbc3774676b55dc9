//! Operations and entries: what a base is, what an operation makes of it, and which refusal comes first.
//!
//! It stands on cells, rows, and tables without their rows. What matters to the crates above are its definitions: `apply`,
//! the base after an entry, and `seen_refusal`, the first refusal by what is seen of a base, with the laws on them. Its
//! bodies make the rows, cells and views that an operation names, and ask a base for what refusals depend on.
#![tactic(auto)]

mod base;
mod changed;
mod laws;
mod lookup;
mod made;
mod makes;
mod names;
mod operation;
mod refusal;
mod seen;
mod viewed;

pub use base::{Plain, PlainPairs, PlainTable, PlainTables};
pub use changed::changed_row;
pub use laws::{
    a_bad_filter_is_the_first, a_repeat_is_the_first, entries_are_taken_in_turn,
    new_rows_have_their_numbers, schemas_change_alike,
};
pub use lookup::{column_named, end_named, plain_named};
pub use made::{ids_of, rows_of, stamped_rows};
pub use makes::{WritesCells, columns_made, links_made, rows_made, table_name, tables_made};
pub use names::{first_repeat, is_id, is_name, is_option, set_of};
pub use operation::{
    Entries, Entry, NamedCell, NamedCells, NewFilter, NewFilters, NewView, Op, OpRow, OpRows,
    RowChange, RowChanges,
};
pub use refusal::{Counter, OpRefusal};
pub use seen::{Counters, SeenBase};
pub use viewed::{filter_of, view_of};
