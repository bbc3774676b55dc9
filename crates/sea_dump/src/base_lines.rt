// The lines of a base.
ghost use Rattle.std.specs.Prelude.{◌≡◌, IfOk, OnOk, false, fold};
ghost use Rattle.serde_json.specs.Data.{no_members};
ghost use Rattle.serde_json.specs.View.{view, members_view};
ghost use Rattle.serde_json.specs.Written.{has_float};
ghost use Rattle.sea_dump.specs.Dump.{json_line as json_line_of, row_json as row_json_of, row_line as row_line_of, table_json as table_json_of, table_line as table_line_of, with_filled, with_shown};

use crate::names::names_of;
use sea_cell::{CellValue, Column, Row, cell_in, json_of_cell, texts_json};
use sea_plain::TableRows;
use serde_json::{Map, Value, json, put};
use std::alloc::{AllocError, Global};

/// The line of a table with its newline: compact JSON that names the table and its columns.
pub fn table_line(alloc: Global, table: &TableRows) -> Result<Vec<u8>, AllocError>
    ensures { IfOk result (λ line. line.items ≡ table_line_of table.now) }
{
    let json = table_json(alloc, table)?;
    let line = json_line(alloc, &json)?;
    Ok(line)
}

/// The line of a row of a table with these columns, with its newline: compact JSON of its id and of its cells that
/// aren't empty.
pub fn row_line(alloc: Global, columns: &[Column], row: &Row) -> Result<Vec<u8>, AllocError>
    ensures { IfOk result (λ line. line.items ≡ row_line_of columns.now row.now) }
{
    let json = row_json(alloc, columns, row)?;
    let line = json_line(alloc, &json)?;
    Ok(line)
}

// The text of some JSON, and a newline.
fn json_line(alloc: Global, json: &Value) -> Result<Vec<u8>, AllocError>
    requires { has_float (view json.now) ≡ false }
    ensures { IfOk result (λ line. line.items ≡ json_line_of (view json.now)) }
{
    let mut line = json.to_vec(alloc)?;
    line.push(b'\n')?;
    Ok(line)
}

fn table_json(alloc: Global, table: &TableRows) -> Result<Value, AllocError>
    ensures { IfOk result (λ json. view json ≡ table_json_of table.now) }
{
    let names = names_of(alloc, table.columns.as_slice())?;
    let columns = texts_json(alloc, names.as_slice())?;
    let name = table.name.as_str();
    Ok(json!(in alloc; {"columns": columns, "table": name})?)
}

fn row_json(alloc: Global, columns: &[Column], row: &Row) -> Result<Value, AllocError>
    ensures { IfOk result (λ json. view json ≡ row_json_of columns.now row.now) }
{
    let mut members = members_of_row(alloc, columns, row)?;
    let id = Value::try_from_str(alloc, row.id.0.as_str())?;
    put(&mut members, alloc, "_id", id)?;
    Ok(Value::Object(members))
}

// The cells of a row that aren't empty, by the names of their columns.
fn members_of_row(
    alloc: Global,
    columns: &[Column],
    row: &Row,
) -> Result<Map<String, Value>, AllocError>
    ensures { IfOk result (λ members. members_view members.entries ≡ fold (with_shown row.now) no_members columns.now) }
{
    let mut members = Map::new(alloc);
    for column in columns {
        let cell = cell_in(alloc, row, column)?;
        put_filled(&mut members, alloc, column.name.as_str(), &cell)?;
    }
    Ok(members)
}

// Puts a cell under a name, unless it is empty.
fn put_filled(
    members: &mut Map<String, Value>,
    alloc: Global,
    name: &str,
    cell: &CellValue,
) -> Result<(), AllocError>
    ensures { OnOk result (members_view members.new.entries ≡ with_filled name.now cell.now (members_view members.old.entries)) }
{
    if let CellValue::Empty = cell {
        return Ok(());
    }
    let json = json_of_cell(alloc, cell)?;
    put(members, alloc, name, json)?;
    Ok(())
}
