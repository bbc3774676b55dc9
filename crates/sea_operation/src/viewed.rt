// The views that operations put into tables.
ghost use Rattle.std.specs.Prelude.{◌≡◌, ◌++◌, List, IfOk, OnOk};
ghost use Rattle.std.specs.List.{cons_option, filter_map};
ghost use Rattle.sea_text.specs.Named.{listed};
ghost use Rattle.sea_cell.specs.declared.view.Filter.{Filter};
ghost use Rattle.sea_operation.specs.Viewed.{filter_of as filter_for, filter_by as filter_by_test, view_of as view_for};

use crate::lookup::column_named;
use crate::operation::{NewFilter, NewView};
use sea_cell::{
    CellWord, Column, Columns, Duplicate, Filter, Filters, Test, View, term_of_word, test_of_word,
};
use sqlite_items::Items;
use std::alloc::{AllocError, Global};

/// A filter of a table with these columns, where its predicate is one for its column and its term fits.
pub fn filter_of(
    alloc: Global,
    columns: Option<&Columns>,
    new: &NewFilter,
) -> Result<Option<Filter>, AllocError>
    ensures { IfOk result (λ filter. filter ≡ filter_for (listed columns.entry) new.now) }
{
    let Some(column) = column_named(columns, new.column.as_str()) else {
        return Ok(None);
    };
    match test_of_word(new.predicate.as_str()) {
        Some(test) => filter_by(alloc, column, &new.term, test),
        None => Ok(None),
    }
}

// A filter of a column by a test, where its term fits.
fn filter_by(
    alloc: Global,
    column: &Column,
    word: &CellWord,
    test: Test,
) -> Result<Option<Filter>, AllocError>
    ensures { IfOk result (λ filter. filter ≡ filter_by_test column.now word.now test) }
{
    match term_of_word(alloc, column.kind, test, word)? {
        Some(term) => Ok(Some(Filter {
            column: column.key,
            test,
            term,
        })),
        None => Ok(None),
    }
}

/// A view of a table with these columns, with those of its filters that fit.
pub fn view_of(alloc: Global, columns: Option<&Columns>, new: &NewView) -> Result<View, AllocError>
    ensures { IfOk result (λ view. view ≡ view_for (listed columns.entry) new.now) }
{
    Ok(View {
        name: new.name.duplicate(alloc)?,
        all: new.all,
        filters: filters_of(alloc, columns, new.filters.as_slice())?,
    })
}

fn filters_of(
    alloc: Global,
    columns: Option<&Columns>,
    filters: &[NewFilter],
) -> Result<Filters, AllocError>
    ensures { IfOk result (λ made. made ≡ filter_map (filter_for (listed columns.entry)) filters.now) }
{
    let mut made = Items::new(alloc);
    for filter in filters {
        add_filter(alloc, columns, &mut made, filter)?;
    }
    Ok(made)
}

// Adds a filter, where it fits.
fn add_filter(
    alloc: Global,
    columns: Option<&Columns>,
    made: &mut Filters,
    filter: &NewFilter,
) -> Result<(), AllocError>
    ensures { OnOk result ((rest : List Filter) → made.new ++ rest ≡ made.old ++ cons_option (filter_for (listed columns.entry) filter.now) rest) }
{
    match filter_of(alloc, columns, filter)? {
        Some(filter) => {
            made.push(filter)?;
            Ok(())
        }
        None => Ok(()),
    }
}
