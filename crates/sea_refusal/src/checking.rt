// The first refusal of an operation: one check for each kind of refusal, in their order.
ghost use Rattle.std.specs.Prelude.{◌≡◌, IfOk};
ghost use Rattle.sea_operation.specs.Checks.{Checks};
ghost use Rattle.sea_operation.specs.Refusal.{seen_refusal, spent, numbers_spent, missing_table, no_table as no_table_in, missing_other, new_rows as new_rows_of, some_moment};

use crate::columns::{bad_cell, first_column, no_column, not_select};
use crate::ids::{duplicate_row, no_row};
use crate::limits::{large_row_in, too_many};
use crate::linking::{link_exists, no_link, not_link};
use crate::naming::{bad_name, name_taken};
use crate::viewing::{bad_filter, no_view};
use sea_cell::{Duplicate, NewEnd, Row, Text};
use sea_operation::{
    Counter, Op, OpRefusal, SeenBase, columns_made, links_made, rows_made, table_name, tables_made,
};
use std::alloc::Global;

/// The last value of the version and of the next row number.
const LAST_NUMBER: u64 = 1 << 62;

/// The last value of the next table number, column key and link number.
const LAST_KEY: u64 = 4_294_967_295;

/// Passes where nothing that is seen of a base refuses an operation, and else fails with the first refusal. Whether a
/// changed row is too big isn't asked.
pub fn check<S: SeenBase>(alloc: Global, op: &Op, seen: &S) -> Result<(), OpRefusal>
    ensures { Checks result (seen_refusal (S.seen seen.now) op.now) }
{
    new_rows(alloc, op, seen)?;
    Ok(())
}

/// The rows that an operation makes, as if it were made at the first of 1970, where `check` passes it. Else it fails as
/// `check` does.
pub fn new_rows<S: SeenBase>(alloc: Global, op: &Op, seen: &S) -> Result<Vec<Row>, OpRefusal>
    ensures refused { Checks result (seen_refusal (S.seen seen.now) op.now) }
    ensures made { IfOk result (λ rows. rows.items ≡ new_rows_of (S.seen seen.now) some_moment op.now) }
{
    numbers(op, seen)?;
    no_table(alloc, op, seen)?;
    no_column(alloc, op, seen)?;
    no_view(alloc, op, seen)?;
    no_row(alloc, op, seen)?;
    bad_name(alloc, op)?;
    name_taken(alloc, op, seen)?;
    bad_filter(alloc, op, seen)?;
    let rows = bad_cell(alloc, op, seen)?;
    duplicate_row(alloc, op, seen)?;
    too_many(alloc, op, seen)?;
    large_row_in(rows.as_slice())?;
    not_link(alloc, op, seen)?;
    not_select(alloc, op, seen)?;
    link_exists(alloc, op, seen)?;
    no_link(alloc, op, seen)?;
    first_column(alloc, op, seen)?;
    Ok(rows)
}

// No counter rises above its last value.
fn numbers<S: SeenBase>(op: &Op, seen: &S) -> Result<(), OpRefusal>
    ensures { Checks result (numbers_spent (S.seen seen.now) op.now) }
{
    let counters = seen.counters();
    room_for(Counter::Version, counters.version, 1, LAST_NUMBER)?;
    room_for(Counter::NextRow, counters.row, rows_made(op), LAST_NUMBER)?;
    let tables = u64::from(tables_made(op));
    room_for(
        Counter::NextTable,
        u64::from(counters.table),
        tables,
        LAST_KEY,
    )?;
    let columns = columns_made(op) as u64;
    room_for(
        Counter::NextColumn,
        u64::from(counters.column),
        columns,
        LAST_KEY,
    )?;
    let links = u64::from(links_made(op));
    room_for(Counter::NextLink, u64::from(counters.link), links, LAST_KEY)?;
    Ok(())
}

// One counter.
fn room_for(counter: Counter, value: u64, more: u64, last: u64) -> Result<(), OpRefusal>
    ensures { Checks result (spent counter value more last) }
{
    if more == 0 {
        return Ok(());
    }
    match value.checked_add(more) {
        Some(sum) if sum <= last => Ok(()),
        _ => Err(OpRefusal::NumbersSpent { counter }),
    }
}

// The operation's table is there, unless it is the one that is made.
fn no_table<S: SeenBase>(alloc: Global, op: &Op, seen: &S) -> Result<(), OpRefusal>
    ensures { Checks result (no_table_in (S.seen seen.now) op.now) }
{
    match op {
        Op::InsertTable {
            table: _,
            columns: _,
        } => Ok(()),
        Op::InsertColumn { table, column } => {
            is_table_of_other(alloc, &column.other, seen)?;
            is_table(alloc, table, seen)?;
            Ok(())
        }
        _ => is_table(alloc, table_name(op), seen),
    }
}

// The table of a new link's other side is there.
fn is_table_of_other<S: SeenBase>(
    alloc: Global,
    other: &Option<NewEnd>,
    seen: &S,
) -> Result<(), OpRefusal>
    ensures { Checks result (missing_other (S.seen seen.now) other.now) }
{
    match other {
        Some(other) => is_table(alloc, &other.table, seen),
        None => Ok(()),
    }
}

fn is_table<S: SeenBase>(alloc: Global, name: &Text, seen: &S) -> Result<(), OpRefusal>
    ensures { Checks result (missing_table (S.seen seen.now) name.now) }
{
    if seen.table(name.as_str()).is_some() {
        return Ok(());
    }
    Err(OpRefusal::NoTable {
        name: name.duplicate(alloc)?,
    })
}
