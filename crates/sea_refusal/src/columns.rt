// The columns that an operation names, and the cells that it writes under them.
ghost use Rattle.std.specs.Prelude.{◌≡◌, None, length, map, IfOk};
ghost use Rattle.sea_text.specs.Named.{listed};
ghost use Rattle.sea_operation.specs.Checks.{Checks};
ghost use Rattle.sea_operation.specs.Makes.{cells_written};
ghost use Rattle.sea_operation.specs.Refusal.{numbers_spent, missing_filtered, missing_column, missing_member as missing_member_of, missing_in, no_column as no_column_in, refused_cell, refused_in, bad_cell as bad_cell_in, new_rows as new_rows_of, some_moment, not_select as not_select_in, is_first as is_first_of, first_column as first_column_in, first_at};
ghost use Rattle.sea_operation.specs.Seen.{columns_in as columns_in_seen};

use sea_cell::{
    CellFault, Column, Columns, Duplicate, Row, Text, cell_of_json, has_options, items_in,
};
use sea_operation::{
    NamedCell, NewFilter, NewView, Op, OpRefusal, RowChange, SeenBase, WritesCells, column_named,
    rows_of, table_name,
};
use std::alloc::Global;

/// The columns of the table of a name, where there is one.
pub fn columns_in<'a, S: SeenBase>(seen: &'a S, name: &str) -> Option<&'a Columns>
    ensures { listed result ≡ columns_in_seen (S.seen seen.now) name.now }
{
    match seen.table(name) {
        Some(table) => Some(&table.columns),
        None => None,
    }
}

/// How many columns the table of a name has.
pub fn column_count<S: SeenBase>(seen: &S, name: &str) -> usize
    ensures { result ≡ length (columns_in_seen (S.seen seen.now) name.now) }
{
    items_in(columns_in(seen, name)).len()
}

/// The columns that the operation names are there.
pub fn no_column<S: SeenBase>(alloc: Global, op: &Op, seen: &S) -> Result<(), OpRefusal>
    ensures { Checks result (no_column_in (S.seen seen.now) op.now) }
{
    let columns = columns_in(seen, table_name(op).as_str());
    match op {
        Op::RenameColumn {
            table: _,
            column,
            to: _,
        } => is_column(alloc, columns, column),
        Op::DeleteColumn { table: _, column } => is_column(alloc, columns, column),
        Op::AddOptions {
            table: _,
            column,
            options: _,
        } => is_column(alloc, columns, column),
        Op::AddLink {
            table: _,
            column,
            row: _,
            others: _,
        } => is_column(alloc, columns, column),
        Op::RemoveLink {
            table: _,
            column,
            row: _,
            others: _,
        } => is_column(alloc, columns, column),
        Op::InsertView { table: _, view } => is_view_of(alloc, columns, view),
        Op::ModifyView { table: _, view } => is_view_of(alloc, columns, view),
        _ => are_columns(alloc, columns, op),
    }
}

// The column of each filter of a view is there.
fn is_view_of(alloc: Global, columns: Option<&Columns>, view: &NewView) -> Result<(), OpRefusal>
    ensures { Checks result (first_at (missing_filtered (listed columns.entry)) view.now.filters) }
{
    are_filtered(alloc, columns, view.filters.as_slice())?;
    Ok(())
}

fn are_filtered(
    alloc: Global,
    columns: Option<&Columns>,
    filters: &[NewFilter],
) -> Result<(), OpRefusal>
    ensures { Checks result (first_at (missing_filtered (listed columns.entry)) filters.now) }
{
    for filter in filters {
        is_filtered(alloc, columns, filter)?;
    }
    Ok(())
}

fn is_filtered(
    alloc: Global,
    columns: Option<&Columns>,
    filter: &NewFilter,
) -> Result<(), OpRefusal>
    ensures { Checks result (missing_filtered (listed columns.entry) filter.now) }
{
    is_column(alloc, columns, &filter.column)?;
    Ok(())
}

fn is_column(alloc: Global, columns: Option<&Columns>, name: &Text) -> Result<(), OpRefusal>
    ensures { Checks result (missing_column (listed columns.entry) name.now) }
{
    if column_named(columns, name.as_str()).is_some() {
        return Ok(());
    }
    Err(OpRefusal::NoColumn {
        name: name.duplicate(alloc)?,
    })
}

// Each member of the operation's rows names a column.
#[tactic(auto, unfolding(sea_operation::specs::Refusal::missing_in))]
fn are_columns(alloc: Global, columns: Option<&Columns>, op: &Op) -> Result<(), OpRefusal>
    ensures { Checks result (missing_in (listed columns.entry) (cells_written op.now)) }
{
    match op {
        Op::AppendRows { table: _, rows } => no_column_in_rows(alloc, columns, rows.as_slice()),
        Op::ModifyRows { table: _, rows } => no_column_in_rows(alloc, columns, rows.as_slice()),
        _ => Ok(()),
    }
}

#[tactic(auto, unfolding(sea_operation::specs::Refusal::missing_in))]
fn no_column_in_rows<R: WritesCells>(
    alloc: Global,
    columns: Option<&Columns>,
    rows: &[R],
) -> Result<(), OpRefusal>
    ensures { Checks result (missing_in (listed columns.entry) (map R.cells rows.now)) }
{
    for row in rows {
        no_column_in_row(alloc, columns, row.cells())?;
    }
    Ok(())
}

fn no_column_in_row(
    alloc: Global,
    columns: Option<&Columns>,
    cells: &[NamedCell],
) -> Result<(), OpRefusal>
    ensures { Checks result (first_at (missing_member_of (listed columns.entry)) cells.now) }
{
    for cell in cells {
        names_column(alloc, columns, cell)?;
    }
    Ok(())
}

fn names_column(alloc: Global, columns: Option<&Columns>, cell: &NamedCell) -> Result<(), OpRefusal>
    ensures { Checks result (missing_member_of (listed columns.entry) cell.now) }
{
    is_column(alloc, columns, &cell.name)?;
    Ok(())
}

/// Each cell is one that its column takes. The new rows are made of them at once.
pub fn bad_cell<S: SeenBase>(alloc: Global, op: &Op, seen: &S) -> Result<Vec<Row>, OpRefusal>
    requires { numbers_spent (S.seen seen.now) op.now ≡ None }
    ensures refused { Checks result (bad_cell_in (S.seen seen.now) op.now) }
    ensures made { IfOk result (λ rows. rows.items ≡ new_rows_of (S.seen seen.now) some_moment op.now) }
{
    let columns = columns_in(seen, table_name(op).as_str());
    match op {
        Op::AppendRows { table: _, rows } => {
            rows_of(alloc, columns, seen.counters().row, rows.as_slice())
        }
        Op::ModifyRows { table: _, rows } => {
            bad_cell_in_changes(alloc, columns, rows.as_slice())?;
            Ok(Vec::new(alloc))
        }
        _ => Ok(Vec::new(alloc)),
    }
}

#[tactic(auto, unfolding(sea_operation::specs::Refusal::refused_in))]
fn bad_cell_in_changes(
    alloc: Global,
    columns: Option<&Columns>,
    changes: &[RowChange],
) -> Result<(), OpRefusal>
    ensures { Checks result (refused_in (listed columns.entry) (map (λ change. change.cells) changes.now)) }
{
    for change in changes {
        bad_cell_in_row(alloc, columns, change.cells.as_slice())?;
    }
    Ok(())
}

fn bad_cell_in_row(
    alloc: Global,
    columns: Option<&Columns>,
    cells: &[NamedCell],
) -> Result<(), OpRefusal>
    ensures { Checks result (first_at (refused_cell (listed columns.entry)) cells.now) }
{
    for cell in cells {
        takes_cell(alloc, columns, cell)?;
    }
    Ok(())
}

fn takes_cell(alloc: Global, columns: Option<&Columns>, cell: &NamedCell) -> Result<(), OpRefusal>
    ensures { Checks result (refused_cell (listed columns.entry) cell.now) }
{
    let Some(column) = column_named(columns, cell.name.as_str()) else {
        return Ok(());
    };
    match cell_of_json(alloc, column, &cell.word) {
        Ok(_) => Ok(()),
        Err(CellFault::Memory) => Err(OpRefusal::Memory),
        Err(fault) => Err(OpRefusal::BadCell {
            column: cell.name.duplicate(alloc)?,
            fault,
        }),
    }
}

/// Options are added to a column that has options.
pub fn not_select<S: SeenBase>(alloc: Global, op: &Op, seen: &S) -> Result<(), OpRefusal>
    ensures { Checks result (not_select_in (S.seen seen.now) op.now) }
{
    let Op::AddOptions {
        table,
        column,
        options: _,
    } = op
    else {
        return Ok(());
    };
    let Some(found) = column_named(columns_in(seen, table.as_str()), column.as_str()) else {
        return Ok(());
    };
    if has_options(found.kind) {
        return Ok(());
    }
    Err(OpRefusal::NotSelect {
        column: column.duplicate(alloc)?,
    })
}

/// The first column stays.
pub fn first_column<S: SeenBase>(alloc: Global, op: &Op, seen: &S) -> Result<(), OpRefusal>
    ensures { Checks result (first_column_in (S.seen seen.now) op.now) }
{
    let Op::DeleteColumn { table, column } = op else {
        return Ok(());
    };
    if !is_first(items_in(columns_in(seen, table.as_str())), column.as_str()) {
        return Ok(());
    }
    Err(OpRefusal::FirstColumn {
        column: column.duplicate(alloc)?,
    })
}

// The first column has the name.
fn is_first(columns: &[Column], name: &str) -> bool
    ensures { result ≡ is_first_of columns.now name.now }
{
    match columns {
        [first, ..] => first.name.as_str() == name,
        [] => false,
    }
}
