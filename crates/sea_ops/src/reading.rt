// Reading operations.
ghost use Rattle.std.specs.Prelude.{◌≡◌, Some, None, IfOk, IsErrOf, option_map};
ghost use Rattle.serde_json.specs.Read.{read};
ghost use Rattle.serde_json.specs.View.{view};
ghost use Rattle.sea_ops.specs.Operations.{op_of, op_of_json as op_of_data, table_op as table_op_of, column_op as column_op_of, row_op as row_op_of, link_op as link_op_of, view_op as view_op_of, insert_table_of, rename_table_of, delete_table_of, insert_column_of, rename_column_of, delete_column_of, add_options_of, append_rows_of, modify_rows_of, delete_rows_of, add_link_of, remove_link_of, insert_view_of, modify_view_of, delete_view_of};

use crate::arrays::list_at;
use crate::columns::{column_at, leads_away, make_table};
use crate::fault::OpFault;
use crate::members::{has_members, id_at, ids_at, text_at, texts_at};
use crate::views::view_at;
use sea_cell::Text;
use sea_operation::Op;
use serde_json::Value;
use std::alloc::{AllocError, Global};

/// The operation that a text is: one JSON object (RFC 8259) with the members of its form and no others, as
/// docs/formats.md lists them. BadOperation says that it is none, as a text that is no JSON in UTF-8, or that nests
/// deeper than 127.
pub fn op_of_json(alloc: Global, text: &[u8]) -> Result<Op, OpFault>
    ensures ok { IfOk result (λ op. op_of text.now ≡ Some op) }
    ensures bad { IsErrOf result OpFault.BadOperation → op_of text.now ≡ None }
{
    match op_of_bytes(alloc, text)? {
        Some(op) => Ok(op),
        None => Err(OpFault::BadOperation),
    }
}

/// The operation that a text is, as `op_of_json` has it, or None where it is none. It fails only where no memory is left.
pub fn op_of_bytes(alloc: Global, text: &[u8]) -> Result<Option<Op>, AllocError>
    ensures { IfOk result (λ op. op ≡ op_of text.now) }
{
    let Ok(text) = str::from_utf8(text) else {
        return Ok(None);
    };
    match value_of(alloc, text)? {
        Some(json) => Ok(op_of_value(alloc, &json)?),
        None => Ok(None),
    }
}

// The JSON value of a text, or None where it is no JSON.
fn value_of(alloc: Global, text: &str) -> Result<Option<Value>, AllocError>
    ensures { IfOk result (λ json. option_map view json ≡ read text.now) }
{
    match Value::from_str(alloc, text) {
        Ok(json) => Ok(Some(json)),
        Err(error) => {
            if error.is_memory() {
                return Err(AllocError);
            }
            Ok(None)
        }
    }
}

// The operation that a JSON value is.
fn op_of_value(alloc: Global, json: &Value) -> Result<Option<Op>, AllocError>
    ensures { IfOk result (λ op. op ≡ op_of_data (view json.now)) }
{
    let Some(word) = text_at(json, "op") else {
        return Ok(None);
    };
    let Some(table) = text_at(json, "table") else {
        return Ok(None);
    };
    table_op(alloc, word, json, table)
}

// An operation on tables by its name, or another one.
#[tactic(auto, unfolding(crate::specs::Operations::table_op))]
fn table_op(alloc: Global, word: &str, json: &Value, table: &str) -> Result<Option<Op>, AllocError>
    ensures { IfOk result (λ op. op ≡ table_op_of word.now (view json.now) table.now) }
{
    if word == "insert_table" {
        return insert_table(alloc, json, table);
    }
    if word == "rename_table" {
        return rename_table(alloc, json, table);
    }
    if word == "delete_table" {
        return delete_table(alloc, json, table);
    }
    column_op(alloc, word, json, table)
}

// An operation on columns by its name, or another one.
#[tactic(auto, unfolding(crate::specs::Operations::column_op))]
fn column_op(alloc: Global, word: &str, json: &Value, table: &str) -> Result<Option<Op>, AllocError>
    ensures { IfOk result (λ op. op ≡ column_op_of word.now (view json.now) table.now) }
{
    if word == "insert_column" {
        return insert_column(alloc, json, table);
    }
    if word == "rename_column" {
        return rename_column(alloc, json, table);
    }
    if word == "delete_column" {
        return delete_column(alloc, json, table);
    }
    if word == "add_options" {
        return add_options(alloc, json, table);
    }
    row_op(alloc, word, json, table)
}

// An operation on rows by its name, or another one.
#[tactic(auto, unfolding(crate::specs::Operations::row_op))]
fn row_op(alloc: Global, word: &str, json: &Value, table: &str) -> Result<Option<Op>, AllocError>
    ensures { IfOk result (λ op. op ≡ row_op_of word.now (view json.now) table.now) }
{
    if word == "append_rows" {
        return append_rows(alloc, json, table);
    }
    if word == "modify_rows" {
        return modify_rows(alloc, json, table);
    }
    if word == "delete_rows" {
        return delete_rows(alloc, json, table);
    }
    link_op(alloc, word, json, table)
}

// An operation on links by its name, or another one.
#[tactic(auto, unfolding(crate::specs::Operations::link_op))]
fn link_op(alloc: Global, word: &str, json: &Value, table: &str) -> Result<Option<Op>, AllocError>
    ensures { IfOk result (λ op. op ≡ link_op_of word.now (view json.now) table.now) }
{
    if word == "add_link" {
        return add_link(alloc, json, table);
    }
    if word == "remove_link" {
        return remove_link(alloc, json, table);
    }
    view_op(alloc, word, json, table)
}

// An operation on views by its name, or none.
#[tactic(auto, unfolding(crate::specs::Operations::view_op))]
fn view_op(alloc: Global, word: &str, json: &Value, table: &str) -> Result<Option<Op>, AllocError>
    ensures { IfOk result (λ op. op ≡ view_op_of word.now (view json.now) table.now) }
{
    if word == "insert_view" {
        return insert_view(alloc, json, table);
    }
    if word == "modify_view" {
        return modify_view(alloc, json, table);
    }
    if word == "delete_view" {
        return delete_view(alloc, json, table);
    }
    Ok(None)
}

#[tactic(auto, unfolding(crate::specs::Operations::insert_table_of))]
fn insert_table(alloc: Global, json: &Value, table: &str) -> Result<Option<Op>, AllocError>
    ensures { IfOk result (λ op. op ≡ insert_table_of (view json.now) table.now) }
{
    if !has_members(json, 3) {
        return Ok(None);
    }
    let Some(columns) = list_at(alloc, json, "columns")? else {
        return Ok(None);
    };
    if !make_table(columns.as_slice()) {
        return Ok(None);
    }
    let table = Text::copy_of(alloc, table)?;
    Ok(Some(Op::InsertTable { table, columns }))
}

#[tactic(auto, unfolding(crate::specs::Operations::rename_table_of))]
fn rename_table(alloc: Global, json: &Value, table: &str) -> Result<Option<Op>, AllocError>
    ensures { IfOk result (λ op. op ≡ rename_table_of (view json.now) table.now) }
{
    if !has_members(json, 3) {
        return Ok(None);
    }
    let Some(to) = text_at(json, "to") else {
        return Ok(None);
    };
    Ok(Some(Op::RenameTable {
        table: Text::copy_of(alloc, table)?,
        to: Text::copy_of(alloc, to)?,
    }))
}

#[tactic(auto, unfolding(crate::specs::Operations::delete_table_of))]
fn delete_table(alloc: Global, json: &Value, table: &str) -> Result<Option<Op>, AllocError>
    ensures { IfOk result (λ op. op ≡ delete_table_of (view json.now) table.now) }
{
    if !has_members(json, 2) {
        return Ok(None);
    }
    let table = Text::copy_of(alloc, table)?;
    Ok(Some(Op::DeleteTable { table }))
}

#[tactic(auto, unfolding(crate::specs::Operations::insert_column_of))]
fn insert_column(alloc: Global, json: &Value, table: &str) -> Result<Option<Op>, AllocError>
    ensures { IfOk result (λ op. op ≡ insert_column_of (view json.now) table.now) }
{
    if !has_members(json, 3) {
        return Ok(None);
    }
    let Some(column) = column_at(alloc, json, "column")? else {
        return Ok(None);
    };
    if !leads_away(table, &column) {
        return Ok(None);
    }
    let table = Text::copy_of(alloc, table)?;
    Ok(Some(Op::InsertColumn { table, column }))
}

#[tactic(auto, unfolding(crate::specs::Operations::rename_column_of))]
fn rename_column(alloc: Global, json: &Value, table: &str) -> Result<Option<Op>, AllocError>
    ensures { IfOk result (λ op. op ≡ rename_column_of (view json.now) table.now) }
{
    if !has_members(json, 4) {
        return Ok(None);
    }
    let Some(column) = text_at(json, "column") else {
        return Ok(None);
    };
    let Some(to) = text_at(json, "to") else {
        return Ok(None);
    };
    Ok(Some(Op::RenameColumn {
        table: Text::copy_of(alloc, table)?,
        column: Text::copy_of(alloc, column)?,
        to: Text::copy_of(alloc, to)?,
    }))
}

#[tactic(auto, unfolding(crate::specs::Operations::delete_column_of))]
fn delete_column(alloc: Global, json: &Value, table: &str) -> Result<Option<Op>, AllocError>
    ensures { IfOk result (λ op. op ≡ delete_column_of (view json.now) table.now) }
{
    if !has_members(json, 3) {
        return Ok(None);
    }
    let Some(column) = text_at(json, "column") else {
        return Ok(None);
    };
    Ok(Some(Op::DeleteColumn {
        table: Text::copy_of(alloc, table)?,
        column: Text::copy_of(alloc, column)?,
    }))
}

#[tactic(auto, unfolding(crate::specs::Operations::add_options_of))]
fn add_options(alloc: Global, json: &Value, table: &str) -> Result<Option<Op>, AllocError>
    ensures { IfOk result (λ op. op ≡ add_options_of (view json.now) table.now) }
{
    if !has_members(json, 4) {
        return Ok(None);
    }
    let Some(column) = text_at(json, "column") else {
        return Ok(None);
    };
    let Some(options) = texts_at(alloc, json, "options")? else {
        return Ok(None);
    };
    Ok(Some(Op::AddOptions {
        table: Text::copy_of(alloc, table)?,
        column: Text::copy_of(alloc, column)?,
        options,
    }))
}

#[tactic(auto, unfolding(crate::specs::Operations::append_rows_of))]
fn append_rows(alloc: Global, json: &Value, table: &str) -> Result<Option<Op>, AllocError>
    ensures { IfOk result (λ op. op ≡ append_rows_of (view json.now) table.now) }
{
    if !has_members(json, 3) {
        return Ok(None);
    }
    let Some(rows) = list_at(alloc, json, "rows")? else {
        return Ok(None);
    };
    let table = Text::copy_of(alloc, table)?;
    Ok(Some(Op::AppendRows { table, rows }))
}

#[tactic(auto, unfolding(crate::specs::Operations::modify_rows_of))]
fn modify_rows(alloc: Global, json: &Value, table: &str) -> Result<Option<Op>, AllocError>
    ensures { IfOk result (λ op. op ≡ modify_rows_of (view json.now) table.now) }
{
    if !has_members(json, 3) {
        return Ok(None);
    }
    let Some(rows) = list_at(alloc, json, "rows")? else {
        return Ok(None);
    };
    let table = Text::copy_of(alloc, table)?;
    Ok(Some(Op::ModifyRows { table, rows }))
}

#[tactic(auto, unfolding(crate::specs::Operations::delete_rows_of))]
fn delete_rows(alloc: Global, json: &Value, table: &str) -> Result<Option<Op>, AllocError>
    ensures { IfOk result (λ op. op ≡ delete_rows_of (view json.now) table.now) }
{
    if !has_members(json, 3) {
        return Ok(None);
    }
    let Some(ids) = ids_at(alloc, json, "ids")? else {
        return Ok(None);
    };
    let table = Text::copy_of(alloc, table)?;
    Ok(Some(Op::DeleteRows { table, ids }))
}

#[tactic(auto, unfolding(crate::specs::Operations::add_link_of))]
fn add_link(alloc: Global, json: &Value, table: &str) -> Result<Option<Op>, AllocError>
    ensures { IfOk result (λ op. op ≡ add_link_of (view json.now) table.now) }
{
    if !has_members(json, 5) {
        return Ok(None);
    }
    let Some(column) = text_at(json, "column") else {
        return Ok(None);
    };
    let Some(row) = id_at(alloc, json, "row")? else {
        return Ok(None);
    };
    let Some(others) = ids_at(alloc, json, "others")? else {
        return Ok(None);
    };
    Ok(Some(Op::AddLink {
        table: Text::copy_of(alloc, table)?,
        column: Text::copy_of(alloc, column)?,
        row,
        others,
    }))
}

#[tactic(auto, unfolding(crate::specs::Operations::remove_link_of))]
fn remove_link(alloc: Global, json: &Value, table: &str) -> Result<Option<Op>, AllocError>
    ensures { IfOk result (λ op. op ≡ remove_link_of (view json.now) table.now) }
{
    if !has_members(json, 5) {
        return Ok(None);
    }
    let Some(column) = text_at(json, "column") else {
        return Ok(None);
    };
    let Some(row) = id_at(alloc, json, "row")? else {
        return Ok(None);
    };
    let Some(others) = ids_at(alloc, json, "others")? else {
        return Ok(None);
    };
    Ok(Some(Op::RemoveLink {
        table: Text::copy_of(alloc, table)?,
        column: Text::copy_of(alloc, column)?,
        row,
        others,
    }))
}

#[tactic(auto, unfolding(crate::specs::Operations::insert_view_of))]
fn insert_view(alloc: Global, json: &Value, table: &str) -> Result<Option<Op>, AllocError>
    ensures { IfOk result (λ op. op ≡ insert_view_of (view json.now) table.now) }
{
    if !has_members(json, 3) {
        return Ok(None);
    }
    let Some(view) = view_at(alloc, json, "view")? else {
        return Ok(None);
    };
    let table = Text::copy_of(alloc, table)?;
    Ok(Some(Op::InsertView { table, view }))
}

#[tactic(auto, unfolding(crate::specs::Operations::modify_view_of))]
fn modify_view(alloc: Global, json: &Value, table: &str) -> Result<Option<Op>, AllocError>
    ensures { IfOk result (λ op. op ≡ modify_view_of (view json.now) table.now) }
{
    if !has_members(json, 3) {
        return Ok(None);
    }
    let Some(view) = view_at(alloc, json, "view")? else {
        return Ok(None);
    };
    let table = Text::copy_of(alloc, table)?;
    Ok(Some(Op::ModifyView { table, view }))
}

#[tactic(auto, unfolding(crate::specs::Operations::delete_view_of))]
fn delete_view(alloc: Global, json: &Value, table: &str) -> Result<Option<Op>, AllocError>
    ensures { IfOk result (λ op. op ≡ delete_view_of (view json.now) table.now) }
{
    if !has_members(json, 3) {
        return Ok(None);
    }
    let Some(view) = text_at(json, "view") else {
        return Ok(None);
    };
    Ok(Some(Op::DeleteView {
        table: Text::copy_of(alloc, table)?,
        view: Text::copy_of(alloc, view)?,
    }))
}
