// The ids that an operation names and those that it gives: whether rows have them.
ghost use Rattle.std.specs.Prelude.{◌≡◌, ◌&&◌, [], None, Some, ℕ, List, map, option_map, if◌then◌else◌, IfOk};
ghost use Rattle.std.specs.BTreeSet.{contains_text};
ghost use Rattle.std.specs.List.{list_any};
ghost use Rattle.std.specs.Str.{bytes_eq};
ghost use Rattle.sea_operation.specs.Checks.{Checks};
ghost use Rattle.sea_operation.specs.Names.{first_repeat as first_repeat_of};
ghost use Rattle.sea_operation.specs.Refusal.{numbers_spent, missing_row, no_row as no_row_in, duplicate_row as duplicate_row_in, unused, first_at};
ghost use Rattle.sea_operation.specs.Seen.{has_id as has_id_in};

use crate::linking::are_linked_rows;
use sea_cell::{Duplicate, Ids, Named, RowId, Text};
use sea_operation::{Op, OpRefusal, RowChange, SeenBase, first_repeat, ids_of};
use sqlite_items::Items;
use std::alloc::{AllocError, Global};
use std::collections::BTreeSet;

/// The rows that the operation names are there.
pub fn no_row<S: SeenBase>(alloc: Global, op: &Op, seen: &S) -> Result<(), OpRefusal>
    ensures { Checks result (no_row_in (S.seen seen.now) op.now) }
{
    match op {
        Op::ModifyRows { table, rows } => {
            let ids = ids_of_changes(alloc, rows.as_slice())?;
            are_rows(alloc, table.as_str(), ids.as_slice(), seen)
        }
        Op::DeleteRows { table, ids } => are_rows(alloc, table.as_str(), ids.as_slice(), seen),
        Op::AddLink {
            table,
            column,
            row,
            others,
        } => are_linked_rows(alloc, table, column, row, others.as_slice(), seen),
        Op::RemoveLink {
            table,
            column,
            row,
            others,
        } => are_linked_rows(alloc, table, column, row, others.as_slice(), seen),
        _ => Ok(()),
    }
}

// The ids of changed rows.
fn ids_of_changes(alloc: Global, changes: &[RowChange]) -> Result<Ids, AllocError>
    ensures { IfOk result (λ ids. map (λ id. id.0) ids ≡ map (λ change. change.id.0) changes.now) }
{
    let mut ids = Items::new(alloc);
    for change in changes {
        ids.push(change.id.duplicate(alloc)?)?;
    }
    Ok(ids)
}

fn are_rows<S: SeenBase>(
    alloc: Global,
    table: &str,
    ids: &[RowId],
    seen: &S,
) -> Result<(), OpRefusal>
    ensures { Checks result (first_at (missing_row (S.seen seen.now) table.now) (map (λ id. id.0) ids.now)) }
{
    match ids {
        [id] => is_row(alloc, table, id, seen),
        _ => are_many_rows(alloc, table, ids, seen),
    }
}

/// The row of the id is in the table of the name.
pub fn is_row<S: SeenBase>(
    alloc: Global,
    table: &str,
    id: &RowId,
    seen: &S,
) -> Result<(), OpRefusal>
    ensures { Checks result (missing_row (S.seen seen.now) table.now id.now.0) }
{
    if has_id(table, id, seen) {
        return Ok(());
    }
    Err(OpRefusal::NoRow {
        id: id.0.duplicate(alloc)?,
    })
}

fn are_many_rows<S: SeenBase>(
    alloc: Global,
    table: &str,
    ids: &[RowId],
    seen: &S,
) -> Result<(), OpRefusal>
    ensures { Checks result (first_at (missing_row (S.seen seen.now) table.now) (map (λ id. id.0) ids.now)) }
{
    let found = which(alloc, table, ids, seen)?;
    are_found(alloc, &found, ids)
}

// Each id is one of those that were found.
fn are_found(alloc: Global, found: &BTreeSet<String>, ids: &[RowId]) -> Result<(), OpRefusal>
    ensures { Checks result (first_at (λ id. if contains_text found.now id then None else Some (OpRefusal.NoRow id)) (map (λ id. id.0) ids.now)) }
{
    for id in ids {
        is_found(alloc, found, id)?;
    }
    Ok(())
}

fn is_found(alloc: Global, found: &BTreeSet<String>, id: &RowId) -> Result<(), OpRefusal>
    ensures { Checks result (if contains_text found.now id.now.0 then None else Some (OpRefusal.NoRow id.now.0)) }
{
    if found.contains(id.0.as_str()) {
        return Ok(());
    }
    Err(OpRefusal::NoRow {
        id: id.0.duplicate(alloc)?,
    })
}

/// No new id is in its table, and none stands twice in the operation.
pub fn duplicate_row<S: SeenBase>(alloc: Global, op: &Op, seen: &S) -> Result<(), OpRefusal>
    requires { numbers_spent (S.seen seen.now) op.now ≡ None }
    ensures { Checks result (duplicate_row_in (S.seen seen.now) op.now) }
{
    match op {
        Op::AppendRows { table, rows } => {
            let ids = ids_of(alloc, seen.counters().row, rows.as_slice())?;
            no_id_used(alloc, table.as_str(), ids.as_slice(), seen)
        }
        Op::ModifyRows { table: _, rows } => no_id_twice(alloc, rows.as_slice()),
        Op::DeleteRows { table: _, ids } => no_id_twice(alloc, ids.as_slice()),
        _ => Ok(()),
    }
}

// No id stands twice.
fn no_id_twice<T: Named>(alloc: Global, items: &[T]) -> Result<(), OpRefusal>
    ensures { Checks result (option_map OpRefusal.DuplicateRow (first_repeat_of unused [] (map T.name items.now))) }
{
    match first_repeat(alloc, &BTreeSet::new(alloc), items)? {
        Some(id) => Err(OpRefusal::DuplicateRow { id }),
        None => Ok(()),
    }
}

// No row of the table has one of the ids, and none stands twice.
fn no_id_used<S: SeenBase>(
    alloc: Global,
    table: &str,
    ids: &[RowId],
    seen: &S,
) -> Result<(), OpRefusal>
    ensures { Checks result (option_map OpRefusal.DuplicateRow (first_repeat_of (has_id_in (S.seen seen.now) table.now) [] (map (λ id. id.0) ids.now))) }
{
    match first_used(alloc, table, ids, seen)? {
        Some(id) => Err(OpRefusal::DuplicateRow { id }),
        None => Ok(()),
    }
}

// The first new id that a row of the table has, or that stands twice.
fn first_used<S: SeenBase>(
    alloc: Global,
    table: &str,
    ids: &[RowId],
    seen: &S,
) -> Result<Option<Text>, AllocError>
    ensures { IfOk result (λ repeat. repeat ≡ first_repeat_of (has_id_in (S.seen seen.now) table.now) [] (map (λ id. id.0) ids.now)) }
{
    match ids {
        [id] => used(alloc, table, id, seen),
        _ => first_used_of_many(alloc, table, ids, seen),
    }
}

// An id, if a row of the table has it.
fn used<S: SeenBase>(
    alloc: Global,
    table: &str,
    id: &RowId,
    seen: &S,
) -> Result<Option<Text>, AllocError>
    ensures { IfOk result (λ repeat. repeat ≡ (if has_id_in (S.seen seen.now) table.now id.now.0 then Some id.now.0 else None)) }
{
    if has_id(table, id, seen) {
        return Ok(Some(id.0.duplicate(alloc)?));
    }
    Ok(None)
}

fn first_used_of_many<S: SeenBase>(
    alloc: Global,
    table: &str,
    ids: &[RowId],
    seen: &S,
) -> Result<Option<Text>, AllocError>
    ensures { IfOk result (λ repeat. repeat ≡ first_repeat_of (has_id_in (S.seen seen.now) table.now) [] (map (λ id. id.0) ids.now)) }
{
    let found = which(alloc, table, ids, seen)?;
    first_repeat(alloc, &found, ids)
}

// A row of the table of a name has the id.
fn has_id<S: SeenBase>(table: &str, id: &RowId, seen: &S) -> bool
    ensures { result ≡ has_id_in (S.seen seen.now) table.now id.now.0 }
{
    match seen.table(table) {
        Some(table) => seen.has(table.no, id),
        None => false,
    }
}

// Those of the ids that rows of the table of a name have.
fn which<S: SeenBase>(
    alloc: Global,
    table: &str,
    ids: &[RowId],
    seen: &S,
) -> Result<BTreeSet<String>, AllocError>
    ensures { IfOk result (λ found. (id : List ℕ) → contains_text found id ≡ list_any (λ one. bytes_eq one.0 id && has_id_in (S.seen seen.now) table.now one.0) ids.now) }
{
    match seen.table(table) {
        Some(table) => seen.which(alloc, table.no, ids),
        None => Ok(BTreeSet::new(alloc)),
    }
}
