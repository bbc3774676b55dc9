// Rows that an operation changes or takes away.
ghost use Rattle.std.specs.Prelude.{◌≡◌, not, map, filter, IfOk};
ghost use Rattle.std.specs.BTreeSet.{contains_text};
ghost use Rattle.std.specs.Option.{option_copied};
ghost use Rattle.sea_schema.specs.Tables.{key_named};
ghost use Rattle.sea_text.specs.Named.{listed};
ghost use Rattle.sea_operation.specs.RowsOf.{change_of as change_of_id, after_changes as after_changes_of, without_cell as without_cell_of, has_other_id as has_other_id_of};

use sea_cell::{CellValue, ColKey, Columns, Duplicate, Moment, Row, RowId, Rows, Shared};
use sea_operation::{RowChange, changed_row, set_of};
use sea_schema::Table;
use sqlite_items::Items;
use std::alloc::{AllocError, Global};
use std::collections::BTreeSet;

/// The rows after the changes of an operation. Those that it doesn't name are shared.
pub fn rows_after_changes(
    alloc: Global,
    columns: Option<&Columns>,
    moment: Moment,
    changes: &[RowChange],
    rows: &[Shared<Row>],
) -> Result<Rows, AllocError>
    ensures { IfOk result (λ new. new ≡ map (after_changes_of (listed columns.entry) moment changes.now) rows.now) }
{
    let mut new = Items::new(alloc);
    for row in rows {
        new.push(after_changes(alloc, columns, moment, changes, row)?)?;
    }
    Ok(new)
}

// A row after the changes of an operation.
fn after_changes(
    alloc: Global,
    columns: Option<&Columns>,
    moment: Moment,
    changes: &[RowChange],
    row: &Shared<Row>,
) -> Result<Shared<Row>, AllocError>
    ensures { IfOk result (λ new. new ≡ after_changes_of (listed columns.entry) moment changes.now row.now) }
{
    match change_of(changes, row.get().id.0.as_str()) {
        Some(change) => {
            let new = changed_row(alloc, columns, moment, change, row.get())?;
            Ok(Shared::new(alloc, new)?)
        }
        None => Ok(row.duplicate(alloc)?),
    }
}

// The change of the row of an id.
fn change_of<'a>(changes: &'a [RowChange], id: &str) -> Option<&'a RowChange>
    ensures { option_copied result ≡ change_of_id changes.now id.now }
{
    changes.iter().find(|change| change.id.0.as_str() == id)
}

/// The rows of a table without their cells of a column.
pub fn rows_without_column(
    alloc: Global,
    table: &Table,
    column: &str,
    rows: &[Shared<Row>],
) -> Result<Rows, AllocError>
    ensures { IfOk result (λ new. new ≡ map (without_cell_of (key_named table.now.columns column.now)) rows.now) }
{
    rows_without_cell(alloc, table.key_of(column), rows)
}

// The rows without their cells under a key.
fn rows_without_cell(
    alloc: Global,
    key: Option<ColKey>,
    rows: &[Shared<Row>],
) -> Result<Rows, AllocError>
    ensures { IfOk result (λ new. new ≡ map (without_cell_of key) rows.now) }
{
    let mut new = Items::new(alloc);
    for row in rows {
        new.push(without_cell(alloc, key, row)?)?;
    }
    Ok(new)
}

// A row without its cell under a key.
fn without_cell(
    alloc: Global,
    key: Option<ColKey>,
    row: &Shared<Row>,
) -> Result<Shared<Row>, AllocError>
    ensures { IfOk result (λ new. new ≡ without_cell_of key row.now) }
{
    let Some(key) = key else {
        return Ok(row.duplicate(alloc)?);
    };
    let mut new = row.get().duplicate(alloc)?;
    new.cells.set(key, CellValue::Empty)?;
    Ok(Shared::new(alloc, new)?)
}

/// The rows without those of some ids.
pub fn rows_without(alloc: Global, ids: &[RowId], rows: &[Shared<Row>]) -> Result<Rows, AllocError>
    ensures { IfOk result (λ kept. kept ≡ filter (has_other_id_of (map (λ id. id.0) ids.now)) rows.now) }
{
    let gone = set_of(alloc, ids)?;
    let mut kept = Items::new(alloc);
    for row in rows {
        if has_other_id(&gone, row.get()) {
            kept.push(row.duplicate(alloc)?)?;
        }
    }
    Ok(kept)
}

// The row has none of the ids.
fn has_other_id(ids: &BTreeSet<String>, row: &Row) -> bool
    ensures { result ≡ not (contains_text ids.now row.now.id.0) }
{
    !ids.contains(row.id.0.as_str())
}
