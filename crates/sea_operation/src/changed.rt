// A row that an operation changes.
ghost use Rattle.std.specs.Prelude.{◌≡◌, IfOk};
ghost use Rattle.sea_text.specs.Named.{listed};
ghost use Rattle.sea_operation.specs.RowsOf.{changed_row as changed_row_of};

use crate::made::put_members;
use crate::operation::RowChange;
use sea_cell::{Columns, Duplicate, Moment, Row};
use std::alloc::{AllocError, Global};

/// A row with the given cells replaced, last changed at a moment.
pub fn changed_row(
    alloc: Global,
    columns: Option<&Columns>,
    moment: Moment,
    change: &RowChange,
    row: &Row,
) -> Result<Row, AllocError>
    ensures { IfOk result (λ new. new ≡ changed_row_of (listed columns.entry) moment change.now row.now) }
{
    let mut new = row.duplicate(alloc)?;
    put_members(alloc, columns, &mut new.cells, change.cells.as_slice())?;
    new.changed = moment;
    Ok(new)
}
