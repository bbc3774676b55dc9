// The refusals of operations on links, but for the names of columns.
ghost use Rattle.std.specs.Prelude.{◌≡◌, [], ◌||◌, Option, None, Some, option_map, option_and_then, is_some, if◌then◌else◌, IfOk, OnOk};
ghost use Rattle.sea_cell.specs.declared.keys.RowId.{RowId};
ghost use Rattle.sea_operation.specs.Checks.{Checks};
ghost use Rattle.sea_operation.specs.Joined.{end_named as end_named_in, texts_of_ids};
ghost use Rattle.sea_operation.specs.Names.{first_repeat};
ghost use Rattle.sea_operation.specs.Refusal.{first_at, missing_in_table, missing_others, missing_linked, no_end, not_link as not_link_in, is_linked, is_so_linked, linked_already as linked_already_in, link_exists as link_exists_in, not_linked as not_linked_in, no_link as no_link_in};
ghost use Rattle.sea_operation.specs.Seen.{columns_in as columns_in_seen};

use crate::columns::columns_in;
use crate::ids::is_row;
use sea_cell::{Duplicate, LinkEnd, RowId, TableNo, Text, insert_text};
use sea_operation::{Op, OpRefusal, SeenBase, end_named};
use std::alloc::{AllocError, Global};
use std::collections::BTreeSet;

/// The rows that are linked in a column, or not any more, are there, and so is the row that they are linked to.
pub fn are_linked_rows<S: SeenBase>(
    alloc: Global,
    table: &Text,
    column: &Text,
    row: &RowId,
    others: &[RowId],
    seen: &S,
) -> Result<(), OpRefusal>
    ensures { Checks result (missing_linked (S.seen seen.now) table.now column.now row.now others.now) }
{
    let columns = columns_in(seen, table.as_str());
    if let Some(end) = end_named(columns, column.as_str()) {
        are_others(alloc, end, others, seen)?;
        is_row(alloc, table.as_str(), row, seen)?;
        return Ok(());
    }
    is_row(alloc, table.as_str(), row, seen)?;
    Ok(())
}

// The rows are at the other end of the link.
fn are_others<S: SeenBase>(
    alloc: Global,
    end: LinkEnd,
    others: &[RowId],
    seen: &S,
) -> Result<(), OpRefusal>
    ensures { Checks result (missing_others (S.seen seen.now) others.now end) }
{
    for other in others {
        is_in_table(alloc, end.table, other, seen)?;
    }
    Ok(())
}

// The row is in the table of a number.
fn is_in_table<S: SeenBase>(
    alloc: Global,
    table: TableNo,
    id: &RowId,
    seen: &S,
) -> Result<(), OpRefusal>
    ensures { Checks result (missing_in_table (S.seen seen.now) table id.now) }
{
    if seen.has(table, id) {
        return Ok(());
    }
    Err(OpRefusal::NoRow {
        id: id.0.duplicate(alloc)?,
    })
}

/// Rows are linked, or not any more, in a link column.
pub fn not_link<S: SeenBase>(alloc: Global, op: &Op, seen: &S) -> Result<(), OpRefusal>
    ensures { Checks result (not_link_in (S.seen seen.now) op.now) }
{
    match op {
        Op::AddLink {
            table,
            column,
            row: _,
            others: _,
        } => is_end(alloc, table, column, seen),
        Op::RemoveLink {
            table,
            column,
            row: _,
            others: _,
        } => is_end(alloc, table, column, seen),
        _ => Ok(()),
    }
}

// The column of the name is an end of a link.
fn is_end<S: SeenBase>(alloc: Global, table: &Text, name: &Text, seen: &S) -> Result<(), OpRefusal>
    ensures { Checks result (no_end (columns_in_seen (S.seen seen.now) table.now) name.now) }
{
    let columns = columns_in(seen, table.as_str());
    if end_named(columns, name.as_str()).is_some() {
        return Ok(());
    }
    Err(OpRefusal::NotLink {
        column: name.duplicate(alloc)?,
    })
}

/// No row is linked already, and none stands twice.
pub fn link_exists<S: SeenBase>(alloc: Global, op: &Op, seen: &S) -> Result<(), OpRefusal>
    ensures { Checks result (link_exists_in (S.seen seen.now) op.now) }
{
    let Op::AddLink {
        table,
        column,
        row,
        others,
    } = op
    else {
        return Ok(());
    };
    match end_named(columns_in(seen, table.as_str()), column.as_str()) {
        Some(end) => linked_already(alloc, end, row, others.as_slice(), seen),
        None => Ok(()),
    }
}

fn linked_already<S: SeenBase>(
    alloc: Global,
    end: LinkEnd,
    row: &RowId,
    others: &[RowId],
    seen: &S,
) -> Result<(), OpRefusal>
    ensures { Checks result (linked_already_in (S.seen seen.now) row.now others.now end) }
{
    match first_of(alloc, true, end, row, others, seen)? {
        Some(id) => Err(OpRefusal::LinkExists { id }),
        None => Ok(()),
    }
}

/// Each row is linked, and none stands twice.
pub fn no_link<S: SeenBase>(alloc: Global, op: &Op, seen: &S) -> Result<(), OpRefusal>
    ensures { Checks result (no_link_in (S.seen seen.now) op.now) }
{
    let Op::RemoveLink {
        table,
        column,
        row,
        others,
    } = op
    else {
        return Ok(());
    };
    match end_named(columns_in(seen, table.as_str()), column.as_str()) {
        Some(end) => not_linked(alloc, end, row, others.as_slice(), seen),
        None => Ok(()),
    }
}

fn not_linked<S: SeenBase>(
    alloc: Global,
    end: LinkEnd,
    row: &RowId,
    others: &[RowId],
    seen: &S,
) -> Result<(), OpRefusal>
    ensures { Checks result (not_linked_in (S.seen seen.now) row.now others.now end) }
{
    match first_of(alloc, false, end, row, others, seen)? {
        Some(id) => Err(OpRefusal::NoLink { id }),
        None => Ok(()),
    }
}

// The first row that is linked, or that isn't, as is asked, or that stands twice.
fn first_of<S: SeenBase>(
    alloc: Global,
    linked: bool,
    end: LinkEnd,
    row: &RowId,
    others: &[RowId],
    seen: &S,
) -> Result<Option<Text>, AllocError>
    ensures { IfOk result (λ found. found ≡ first_repeat (is_so_linked linked (S.seen seen.now) end row.now) [] (texts_of_ids others.now)) }
{
    let mut before = BTreeSet::new(alloc);
    for other in others {
        let so = is_so(linked, end, row, other, seen);
        let new = insert_text(alloc, &mut before, other.0.as_str())?;
        if so || !new {
            return Ok(Some(other.0.duplicate(alloc)?));
        }
    }
    Ok(None)
}

// The row is linked, or it isn't, as is asked.
fn is_so<S: SeenBase>(linked: bool, end: LinkEnd, row: &RowId, other: &RowId, seen: &S) -> bool
    ensures { result ≡ is_so_linked linked (S.seen seen.now) end row.now other.now.0 }
{
    if linked {
        return joins(end, row, other, seen);
    }
    !joins(end, row, other, seen)
}

// The link joins the row at this end with another row.
fn joins<S: SeenBase>(end: LinkEnd, row: &RowId, other: &RowId, seen: &S) -> bool
    ensures { result ≡ is_linked (S.seen seen.now) end row.now other.now.0 }
{
    if end.first {
        return seen.linked(end.link, row, other);
    }
    seen.linked(end.link, other, row)
}
