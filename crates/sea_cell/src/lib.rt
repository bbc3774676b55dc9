//! Values, columns and rows: what a table is made of.
//!
//! It stands on moments and their texts, on JSON values, and on the texts and lists of `sea_text`, whose names it gives out
//! too. The contract that matters to the crates above is that of `cell_of_json`: which cell a column makes of what an
//! operation says, or why it takes none. `json_of_cell` shows a cell, and `row_bytes` tells how long a row's encoding is.
//! `Cells` is seen by contracts as the list of a row's cells by rising key.
#![tactic(auto)]

mod amounts;
mod arrays;
mod column;
mod conversion;
mod keys;
mod kinds;
mod predicate;
mod row;
mod sizes;
mod values;
mod view;
mod words;

pub use arrays::{ids_json, texts_json, texts_of};
pub use column::{ColKind, Column, Columns, LinkEnd, NewColumn, NewColumns, NewEnd};
pub use conversion::{CellFault, cell_of_json, json_of_cell};
pub use keys::{ColKey, Ids, Moment, RowId, TableNo};
pub use kinds::{Sort, has_options, kind_of_word, sort_of, type_word, words_name_kinds};
pub use predicate::{term_of_word, test_of_word, test_word, words_name_tests};
pub use row::{Cell, Cells, Row, Rows, cell_in};
pub use sea_text::{
    Duplicate, Indexed, Named, Shared, Text, Texts, insert_text, is_among, items_in, named_in,
    no_text_goes_or_stays_twice, without_repeats,
};
pub use sizes::row_bytes;
pub use values::CellValue;
pub use view::{Filter, Filters, Term, Test, View, Views};
pub use words::{CellWord, word_of_json};
