// Which rows a view selects.
ghost use Rattle.std.specs.Prelude.{◌≡◌, IfOk};
ghost use Rattle.std.specs.List.{list_all, list_any};
ghost use Rattle.std.specs.Option.{option_copied};
ghost use Rattle.sea_filter.specs.Selection.{column_of as column_of_key, meets_filter as meets_filter_of, meets_filters as meets_filters_of, meets as meets_of, selected as selected_of};

use crate::comparison::met;
use sea_cell::{
    CellValue, ColKey, ColKind, Column, Columns, Duplicate, Filter, Ids, Row, Rows, View,
};
use sqlite_items::Items;
use std::alloc::{AllocError, Global};

/// Whether a view selects a row of a table with these columns: the row meets all of its filters, or any of them, as the
/// view asks. A view without filters selects all rows. The cell under a ctime or mtime column is when the row was made
/// or last changed; a filter on a column that isn't there is never met. It takes no memory.
pub fn meets(view: &View, columns: &Columns, row: &Row) -> bool
    ensures { result ≡ meets_of view.now columns.now row.now }
{
    let filters = view.filters.as_slice();
    if filters.is_empty() {
        return true;
    }
    meets_filters(view.all, columns.as_slice(), row, filters)
}

// All filters are met, or any of them is.
fn meets_filters(all: bool, columns: &[Column], row: &Row, filters: &[Filter]) -> bool
    ensures { result ≡ meets_filters_of all columns.now row.now filters.now }
{
    if all {
        return meets_all(columns, row, filters);
    }
    meets_any(columns, row, filters)
}

fn meets_all(columns: &[Column], row: &Row, filters: &[Filter]) -> bool
    ensures { result ≡ list_all (meets_filter_of columns.now row.now) filters.now }
{
    filters
        .iter()
        .all(|filter| meets_filter(columns, row, filter))
}

fn meets_any(columns: &[Column], row: &Row, filters: &[Filter]) -> bool
    ensures { result ≡ list_any (meets_filter_of columns.now row.now) filters.now }
{
    filters
        .iter()
        .any(|filter| meets_filter(columns, row, filter))
}

// A row meets a filter by its cell under the filter's column.
fn meets_filter(columns: &[Column], row: &Row, filter: &Filter) -> bool
    ensures { result ≡ meets_filter_of columns.now row.now filter.now }
{
    let Some(column) = column_of(columns, filter.column) else {
        return false;
    };
    match column.kind {
        ColKind::Made => met(filter.test, &CellValue::Moment(row.made), &filter.term),
        ColKind::Changed => met(filter.test, &CellValue::Moment(row.changed), &filter.term),
        _ => match row.cells.get(column.key) {
            Some(value) => met(filter.test, value, &filter.term),
            None => met(filter.test, &CellValue::Empty, &filter.term),
        },
    }
}

// The column of a key.
fn column_of(columns: &[Column], key: ColKey) -> Option<&Column>
    ensures { option_copied result ≡ column_of_key columns.now key }
{
    columns.iter().find(|column| column.key.0 == key.0)
}

/// The ids of the rows that a view selects, in their order, which is that of row numbers where the rows are a table's.
pub fn selected(
    alloc: Global,
    view: &View,
    columns: &Columns,
    rows: &Rows,
) -> Result<Ids, AllocError>
    ensures { IfOk result (λ ids. ids ≡ selected_of view.now columns.now rows.now) }
{
    let mut ids = Items::new(alloc);
    for row in rows.as_slice() {
        if meets(view, columns, row.get()) {
            ids.push(row.get().id.duplicate(alloc)?)?;
        }
    }
    Ok(ids)
}
