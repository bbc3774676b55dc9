// The rows that an operation makes.
ghost use Rattle.std.specs.Prelude.{◌≡◌, ◌+◌, ◌^◌, ◌<◌, [], ◌∷◌, ◌++◌, fold, length, map, option_map, IfOk, OnOk};
ghost use Rattle.sea_text.specs.Named.{listed};
ghost use Rattle.sea_operation.specs.Checks.{Checks};
ghost use Rattle.sea_operation.specs.Refusal.{first_at, refused_cell, refused_in, some_moment};
ghost use Rattle.sea_operation.specs.RowsOf.{id_of as id_for, ids_of as ids_for, with_member as with_member_of, cells_of as cells_for, row_of as row_for, rows_of as rows_for, stamped as stamped_of};

use crate::lookup::column_named;
use crate::operation::{NamedCell, OpRow};
use crate::refusal::OpRefusal;
use sea_cell::{
    CellFault, Cells, Columns, Duplicate, Ids, Moment, Row, RowId, Rows, Shared, Text, cell_of_json,
};
use sqlite_items::Items;
use std::alloc::{AllocError, Global};

/// The ids of new rows that are numbered from `number`.
pub fn ids_of(alloc: Global, number: u64, rows: &[OpRow]) -> Result<Ids, AllocError>
    requires { number + length rows.now < 2 ^ 64 }
    ensures { IfOk result (λ ids. map (λ id. id.0) ids ≡ ids_for number rows.now) }
{
    let mut ids = Items::new(alloc);
    let mut next = number;
    for row in rows {
        ids.push(RowId(id_of(alloc, next, row)?))?;
        next += 1;
    }
    Ok(ids)
}

// The id of a new row: the one that is given, or `r` and the row's number.
fn id_of(alloc: Global, number: u64, row: &OpRow) -> Result<Text, AllocError>
    ensures { IfOk result (λ id. id ≡ id_for number row.now) }
{
    match &row.id {
        Some(id) => Ok(id.duplicate(alloc)?),
        None => Ok(Text::from(format!(in alloc; "r{number}")?)),
    }
}

/// New rows that are numbered from `number`, as if they were made at the first of 1970. Fails with BadCell at the first
/// cell that its column doesn't take.
#[tactic(auto, unfolding(crate::specs::Refusal::refused_in))]
pub fn rows_of(
    alloc: Global,
    columns: Option<&Columns>,
    number: u64,
    rows: &[OpRow],
) -> Result<Vec<Row>, OpRefusal>
    requires { number + length rows.now < 2 ^ 64 }
    ensures refused { Checks result (refused_in (listed columns.entry) (map (λ row. row.cells) rows.now)) }
    ensures made { IfOk result (λ made. made.items ≡ rows_for (listed columns.entry) some_moment number rows.now) }
{
    let mut made = Vec::with_capacity(alloc, rows.len())?;
    let mut next = number;
    for row in rows {
        push(&mut made, row_of(alloc, columns, next, row)?)?;
        next += 1;
    }
    Ok(made)
}

// Puts a row at the end.
fn push(rows: &mut Vec<Row>, row: Row) -> Result<(), AllocError>
    ensures { OnOk result (rows.new.items ≡ rows.old.items ++ row ∷ []) }
{
    rows.push(row)?;
    Ok(())
}

// A new row.
fn row_of(
    alloc: Global,
    columns: Option<&Columns>,
    number: u64,
    row: &OpRow,
) -> Result<Row, OpRefusal>
    ensures refused { Checks result (first_at (refused_cell (listed columns.entry)) row.now.cells) }
    ensures made { IfOk result (λ made. made ≡ row_for (listed columns.entry) some_moment number row.now) }
{
    let cells = cells_of(alloc, columns, row.cells.as_slice())?;
    Ok(Row {
        id: RowId(id_of(alloc, number, row)?),
        number,
        made: Moment(0),
        changed: Moment(0),
        cells,
    })
}

// The cells of a new row.
fn cells_of(
    alloc: Global,
    columns: Option<&Columns>,
    members: &[NamedCell],
) -> Result<Cells, OpRefusal>
    ensures refused { Checks result (first_at (refused_cell (listed columns.entry)) members.now) }
    ensures made { IfOk result (λ cells. cells ≡ cells_for (listed columns.entry) members.now) }
{
    let mut cells = Cells::new(alloc);
    for member in members {
        take_member(alloc, columns, &mut cells, member)?;
    }
    Ok(cells)
}

// Puts what a member makes under its column, which has to take it.
fn take_member(
    alloc: Global,
    columns: Option<&Columns>,
    cells: &mut Cells,
    member: &NamedCell,
) -> Result<(), OpRefusal>
    ensures refused { Checks result (refused_cell (listed columns.entry) member.now) }
    ensures taken { OnOk result (cells.new ≡ with_member_of (listed columns.entry) cells.old member.now) }
{
    match put_member(alloc, columns, cells, member)? {
        None => Ok(()),
        Some(fault) => Err(OpRefusal::BadCell {
            column: member.name.duplicate(alloc)?,
            fault,
        }),
    }
}

/// The rows, made and last changed at a moment.
pub fn stamped_rows(alloc: Global, moment: Moment, rows: Vec<Row>) -> Result<Rows, AllocError>
    ensures { IfOk result (λ stamped. stamped ≡ map (stamped_of moment) rows.items) }
{
    let mut shared = Vec::with_capacity(alloc, rows.len())?;
    for row in rows {
        shared.push(Shared::new(alloc, stamped(moment, row))?)?;
    }
    Ok(Items::from_vec(shared))
}

// A row, made and last changed at a moment.
fn stamped(moment: Moment, row: Row) -> Row
    ensures { result ≡ stamped_of moment row }
{
    let mut row = row;
    row.made = moment;
    row.changed = moment;
    row
}

/// Puts what members make under their columns.
pub fn put_members(
    alloc: Global,
    columns: Option<&Columns>,
    cells: &mut Cells,
    members: &[NamedCell],
) -> Result<(), AllocError>
    ensures { OnOk result (cells.new ≡ fold (with_member_of (listed columns.entry)) cells.old members.now) }
{
    for member in members {
        put_member(alloc, columns, cells, member)?;
    }
    Ok(())
}

// Puts what a member makes under its column. Where the column doesn't take it, the cells stay, and this is why.
fn put_member(
    alloc: Global,
    columns: Option<&Columns>,
    cells: &mut Cells,
    member: &NamedCell,
) -> Result<Option<CellFault>, AllocError>
    ensures put { OnOk result (cells.new ≡ with_member_of (listed columns.entry) cells.old member.now) }
    ensures fault { IfOk result (λ fault. option_map (OpRefusal.BadCell member.now.name) fault ≡ refused_cell (listed columns.entry) member.now) }
{
    let Some(column) = column_named(columns, member.name.as_str()) else {
        return Ok(None);
    };
    match cell_of_json(alloc, column, &member.word) {
        Ok(value) => {
            cells.set(column.key, value)?;
            Ok(None)
        }
        Err(CellFault::Memory) => Err(AllocError),
        Err(fault) => Ok(Some(fault)),
    }
}
