// Reading the rows of operations.
ghost use Rattle.std.specs.Prelude.{◌≡◌, IfOk};
ghost use Rattle.serde_json.specs.View.{view, members_view};
ghost use Rattle.sea_ops.specs.Operations.{row_of_json as row_of_data, change_of_json as change_of_data, change_of_row as change_of_row_data, cells_of_members as cells_of};

use crate::arrays::OfJson;
use sea_cell::{RowId, Text, word_of_json};
use sea_operation::{NamedCell, NamedCells, OpRow, RowChange};
use serde_json::{Map, Value};
use sqlite_items::Items;
use std::alloc::{AllocError, Global};

impl OfJson for OpRow {
    ghost meaning = { row_of_data };

    fn of_json(alloc: Global, json: &Value) -> Result<Option<OpRow>, AllocError> {
        row_of_json(alloc, json)
    }
}

// The change of a row is a row with an id.
impl OfJson for RowChange {
    ghost meaning = { change_of_data };

    fn of_json(alloc: Global, json: &Value) -> Result<Option<RowChange>, AllocError> {
        change_of_json(alloc, json)
    }
}

fn change_of_json(alloc: Global, json: &Value) -> Result<Option<RowChange>, AllocError>
    ensures { IfOk result (λ change. change ≡ change_of_data (view json.now)) }
{
    match row_of_json(alloc, json)? {
        Some(row) => Ok(change_of_row(row)),
        None => Ok(None),
    }
}

// A row with an id as the change of the row that has it.
fn change_of_row(row: OpRow) -> Option<RowChange>
    ensures { result ≡ change_of_row_data row }
{
    let OpRow { id, cells } = row;
    match id {
        Some(id) => Some(RowChange {
            id: RowId(id),
            cells,
        }),
        None => None,
    }
}

fn row_of_json(alloc: Global, json: &Value) -> Result<Option<OpRow>, AllocError>
    ensures { IfOk result (λ row. row ≡ row_of_data (view json.now)) }
{
    let Some(members) = json.as_object() else {
        return Ok(None);
    };
    let cells = cells_of_members(alloc, members)?;
    let Some(id) = json.get("_id") else {
        return Ok(Some(OpRow { id: None, cells }));
    };
    let Some(text) = id.as_str() else {
        return Ok(None);
    };
    let id = Some(Text::copy_of(alloc, text)?);
    Ok(Some(OpRow { id, cells }))
}

// The cells of a row: its members but for the id.
fn cells_of_members(alloc: Global, members: &Map<String, Value>) -> Result<NamedCells, AllocError>
    ensures { IfOk result (λ cells. cells ≡ cells_of (members_view members.now.entries)) }
{
    let mut cells = Items::new(alloc);
    for (name, json) in members {
        if name.as_str() != "_id" {
            cells.push(NamedCell {
                name: Text::copy_of(alloc, name.as_str())?,
                word: word_of_json(alloc, json)?,
            })?;
        }
    }
    Ok(cells)
}
