// The limits: how many there may be of a thing, and how long a row's encoding may be.
ghost use Rattle.std.specs.Prelude.{◌≡◌, ◌+◌, ◌++◌};
ghost use Rattle.std.specs.List.{find};
ghost use Rattle.std.specs.Str.{bytes_eq};
ghost use Rattle.std.specs.Option.{option_copied};
ghost use Rattle.sea_text.specs.Named.{listed};
ghost use Rattle.sea_operation.specs.Checks.{Checks};
ghost use Rattle.sea_operation.specs.Refusal.{many_columns_there as many_columns_there_in, above_limit, many_options as many_options_in, options_in as options_in_of, too_many as too_many_in, large_row, large_change as large_change_in, large_changed_row, first_at};
ghost use Rattle.sea_operation.specs.RowsOf.{changed_row as changed_row_of};

use crate::columns::{column_count, columns_in};
use crate::viewing::view_count;
use sea_cell::{
    Columns, Moment, NewColumn, NewEnd, Row, Shared, Text, Texts, row_bytes, without_repeats,
};
use sea_operation::{
    Op, OpRefusal, Plain, RowChange, SeenBase, changed_row, column_named, plain_named,
};
use sea_schema::more_options;
use std::alloc::Global;

/// No limit is passed.
pub fn too_many<S: SeenBase>(alloc: Global, op: &Op, seen: &S) -> Result<(), OpRefusal>
    ensures { Checks result (too_many_in (S.seen seen.now) op.now) }
{
    match op {
        Op::InsertTable { table: _, columns } => {
            below(64, seen.table_count())?;
            within(200, columns.len())?;
            many_options_of_columns(alloc, columns.as_slice())?;
            Ok(())
        }
        Op::InsertColumn { table, column } => {
            below(200, column_count(seen, table.as_str()))?;
            many_columns_there(&column.other, seen)?;
            many_options(alloc, column.options.as_slice())?;
            Ok(())
        }
        Op::AddOptions {
            table,
            column,
            options,
        } => {
            let columns = columns_in(seen, table.as_str());
            many_more_options(alloc, columns, column.as_str(), options)
        }
        Op::AppendRows { table: _, rows } => within(1000, rows.len()),
        Op::ModifyRows { table: _, rows } => within(1000, rows.len()),
        Op::DeleteRows { table: _, ids } => within(1000, ids.len()),
        Op::InsertView { table, view } => {
            below(50, view_count(seen, table.as_str()))?;
            within(20, view.filters.len())?;
            Ok(())
        }
        Op::ModifyView { table: _, view } => within(20, view.filters.len()),
        Op::AddLink {
            table: _,
            column: _,
            row: _,
            others,
        } => {
            within(1000, others.len())?;
            within_more(200_000, seen.pair_count(), others.len())?;
            Ok(())
        }
        Op::RemoveLink {
            table: _,
            column: _,
            row: _,
            others,
        } => within(1000, others.len()),
        _ => Ok(()),
    }
}

// One column more in the table of a new link's other side.
fn many_columns_there<S: SeenBase>(other: &Option<NewEnd>, seen: &S) -> Result<(), OpRefusal>
    ensures { Checks result (many_columns_there_in (S.seen seen.now) other.now) }
{
    match other {
        Some(other) => below(200, column_count(seen, other.table.as_str())),
        None => Ok(()),
    }
}

// No more than the limit.
fn within(limit: u32, count: usize) -> Result<(), OpRefusal>
    ensures { Checks result (above_limit limit count) }
{
    if count > limit as usize {
        return Err(OpRefusal::TooMany { limit });
    }
    Ok(())
}

// No more than the limit with some more.
fn within_more(limit: u32, count: usize, more: usize) -> Result<(), OpRefusal>
    ensures { Checks result (above_limit limit (count + more)) }
{
    match count.checked_add(more) {
        Some(sum) => within(limit, sum),
        None => Err(OpRefusal::TooMany { limit }),
    }
}

// No more than the limit with one more.
fn below(limit: u32, count: usize) -> Result<(), OpRefusal>
    ensures { Checks result (above_limit limit (count + 1)) }
{
    if count >= limit as usize {
        return Err(OpRefusal::TooMany { limit });
    }
    Ok(())
}

fn many_options_of_columns(alloc: Global, columns: &[NewColumn]) -> Result<(), OpRefusal>
    ensures { Checks result (first_at (λ column. many_options_in column.options) columns.now) }
{
    for column in columns {
        many_options(alloc, column.options.as_slice())?;
    }
    Ok(())
}

fn many_options(alloc: Global, options: &[Text]) -> Result<(), OpRefusal>
    ensures { Checks result (many_options_in options.now) }
{
    within(500, without_repeats(alloc, options)?.len())?;
    Ok(())
}

// The column with more options.
fn many_more_options(
    alloc: Global,
    columns: Option<&Columns>,
    name: &str,
    options: &Texts,
) -> Result<(), OpRefusal>
    ensures { Checks result (many_options_in (options_in_of (listed columns.entry) name.now ++ options.now)) }
{
    match column_named(columns, name) {
        Some(column) => {
            within(500, more_options(alloc, &column.options, options)?.len())?;
            Ok(())
        }
        None => many_options(alloc, options.as_slice()),
    }
}

/// Each new row has an encoding of at most 8,192 bytes.
pub fn large_row_in(rows: &[Row]) -> Result<(), OpRefusal>
    ensures { Checks result (first_at large_row rows.now) }
{
    for row in rows {
        fits_row(row)?;
    }
    Ok(())
}

fn fits_row(row: &Row) -> Result<(), OpRefusal>
    ensures { Checks result (large_row row.now) }
{
    let bytes = row_bytes(row);
    if bytes > 8192 {
        return Err(OpRefusal::RowTooBig { bytes });
    }
    Ok(())
}

/// Passes where each row that an operation changes has an encoding of at most 8,192 bytes after it, and else fails with
/// the first that hasn't.
pub fn changes_fit(alloc: Global, base: &Plain, moment: Moment, op: &Op) -> Result<(), OpRefusal>
    ensures { Checks result (large_changed_row base.now moment op.now) }
{
    let Op::ModifyRows {
        table,
        rows: changes,
    } = op
    else {
        return Ok(());
    };
    let Some(plain) = plain_named(base.tables.as_slice(), table.as_str()) else {
        return Ok(());
    };
    let rows = plain.rows.get().as_slice();
    let columns = Some(&plain.table.get().columns);
    changes_fit_rows(alloc, rows, columns, moment, changes.as_slice())?;
    Ok(())
}

fn changes_fit_rows(
    alloc: Global,
    rows: &[Shared<Row>],
    columns: Option<&Columns>,
    moment: Moment,
    changes: &[RowChange],
) -> Result<(), OpRefusal>
    ensures { Checks result (first_at (large_change_in rows.now (listed columns.entry) moment) changes.now) }
{
    for change in changes {
        change_fits(alloc, rows, columns, moment, change)?;
    }
    Ok(())
}

fn change_fits(
    alloc: Global,
    rows: &[Shared<Row>],
    columns: Option<&Columns>,
    moment: Moment,
    change: &RowChange,
) -> Result<(), OpRefusal>
    ensures { Checks result (large_change_in rows.now (listed columns.entry) moment change.now) }
{
    match row_changed(rows, change) {
        Some(row) => changed_row_fits(alloc, columns, moment, change, row.get()),
        None => Ok(()),
    }
}

fn changed_row_fits(
    alloc: Global,
    columns: Option<&Columns>,
    moment: Moment,
    change: &RowChange,
    row: &Row,
) -> Result<(), OpRefusal>
    ensures { Checks result (large_row (changed_row_of (listed columns.entry) moment change.now row.now)) }
{
    let changed = changed_row(alloc, columns, moment, change, row)?;
    fits_row(&changed)?;
    Ok(())
}

// The row that a change is of.
fn row_changed<'a>(rows: &'a [Shared<Row>], change: &RowChange) -> Option<&'a Shared<Row>>
    ensures { option_copied result ≡ find (λ row. bytes_eq row.id.0 change.now.id.0) rows.now }
{
    let id = change.id.0.as_str();
    rows.iter().find(|row| row.get().id.0.as_str() == id)
}
