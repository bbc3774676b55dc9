// Writing operations.
ghost use Rattle.std.specs.Prelude.{◌≡◌, IfOk, OnOk};
ghost use Rattle.serde_json.specs.Data.{string, no_members, put as put_of};
ghost use Rattle.serde_json.specs.View.{view, members_view};
ghost use Rattle.sea_ops.specs.Texts.{text_of, json_of, insert_table_json as insert_table_json_of, insert_column_json as insert_column_json_of, add_options_json as add_options_json_of, append_rows_json as append_rows_json_of, modify_rows_json as modify_rows_json_of, delete_rows_json as delete_rows_json_of, links_json as links_json_of, put_view_json as put_view_json_of, rename_table_json as rename_table_json_of, delete_table_json as delete_table_json_of, rename_column_json as rename_column_json_of, delete_column_json as delete_column_json_of, delete_view_json as delete_view_json_of, column_json as column_json_of, number_column_json as number_column_json_of, select_column_json as select_column_json_of, link_column_json as link_column_json_of, plain_column_json as plain_column_json_of, with_id_json as with_id_json_of, row_json as row_json_of, change_json as change_json_of, filter_json as filter_json_of, view_json as view_json_of, conjunction_word as conjunction_word_of, with_cells, json_of_word, whole_json as whole_json_of};

use crate::arrays::{ToJson, array_json};
use crate::straight::rows_text;
use sea_cell::{CellWord, ColKind, NewColumn, RowId, Text, ids_json, texts_json, type_word};
use sea_fields::Bytes;
use sea_operation::{NamedCell, NewFilter, NewView, Op, OpRow, RowChange};
use serde_json::{Map, Value, json, put};
use std::alloc::{AllocError, Global};

/// The canonical text of an operation: compact JSON (RFC 8259), the members of each object in byte order of their
/// names. An integer of more than 64 bits is written as `{}`, since no operation that is read has one.
pub fn op_text(alloc: Global, op: &Op) -> Result<Bytes, AllocError>
    ensures { IfOk result (λ text. text ≡ text_of op.now) }
{
    if let Some(text) = rows_text(alloc, op)? {
        return Ok(text);
    }
    let bytes = op_json(alloc, op)?.to_vec(alloc)?;
    Ok(Bytes::from(bytes))
}

/// The JSON value of an operation.
pub fn op_json(alloc: Global, op: &Op) -> Result<Value, AllocError>
    ensures { IfOk result (λ json. view json ≡ json_of op.now) }
{
    match op {
        Op::InsertTable { table, columns } => {
            insert_table_json(alloc, table.as_str(), columns.as_slice())
        }
        Op::RenameTable { table, to } => rename_table_json(alloc, table.as_str(), to.as_str()),
        Op::DeleteTable { table } => delete_table_json(alloc, table.as_str()),
        Op::InsertColumn { table, column } => insert_column_json(alloc, table.as_str(), column),
        Op::RenameColumn { table, column, to } => {
            rename_column_json(alloc, table.as_str(), column.as_str(), to.as_str())
        }
        Op::DeleteColumn { table, column } => {
            delete_column_json(alloc, table.as_str(), column.as_str())
        }
        Op::AddOptions {
            table,
            column,
            options,
        } => add_options_json(alloc, table.as_str(), column.as_str(), options.as_slice()),
        Op::AppendRows { table, rows } => append_array_json(alloc, table.as_str(), rows.as_slice()),
        Op::ModifyRows { table, rows } => modify_array_json(alloc, table.as_str(), rows.as_slice()),
        Op::DeleteRows { table, ids } => delete_array_json(alloc, table.as_str(), ids.as_slice()),
        Op::AddLink {
            table,
            column,
            row,
            others,
        } => links_json(alloc, "add_link", table, column, row, others.as_slice()),
        Op::RemoveLink {
            table,
            column,
            row,
            others,
        } => links_json(alloc, "remove_link", table, column, row, others.as_slice()),
        Op::InsertView { table, view } => put_view_json(alloc, "insert_view", table.as_str(), view),
        Op::ModifyView { table, view } => put_view_json(alloc, "modify_view", table.as_str(), view),
        Op::DeleteView { table, view } => delete_view_json(alloc, table.as_str(), view.as_str()),
    }
}

fn insert_table_json(alloc: Global, table: &str, columns: &[NewColumn]) -> Result<Value, AllocError>
    ensures { IfOk result (λ json. view json ≡ insert_table_json_of table.now columns.now) }
{
    let columns = array_json(alloc, columns)?;
    Ok(json!(in alloc; {"columns": columns, "op": "insert_table", "table": table})?)
}

fn rename_table_json(alloc: Global, table: &str, to: &str) -> Result<Value, AllocError>
    ensures { IfOk result (λ json. view json ≡ rename_table_json_of table.now to.now) }
{
    Ok(json!(in alloc; {"op": "rename_table", "table": table, "to": to})?)
}

fn delete_table_json(alloc: Global, table: &str) -> Result<Value, AllocError>
    ensures { IfOk result (λ json. view json ≡ delete_table_json_of table.now) }
{
    Ok(json!(in alloc; {"op": "delete_table", "table": table})?)
}

fn insert_column_json(alloc: Global, table: &str, column: &NewColumn) -> Result<Value, AllocError>
    ensures { IfOk result (λ json. view json ≡ insert_column_json_of table.now column.now) }
{
    let column = column_json(alloc, column)?;
    Ok(json!(in alloc; {"column": column, "op": "insert_column", "table": table})?)
}

fn rename_column_json(
    alloc: Global,
    table: &str,
    column: &str,
    to: &str,
) -> Result<Value, AllocError>
    ensures { IfOk result (λ json. view json ≡ rename_column_json_of table.now column.now to.now) }
{
    Ok(json!(in alloc; {"column": column, "op": "rename_column", "table": table, "to": to})?)
}

fn delete_column_json(alloc: Global, table: &str, column: &str) -> Result<Value, AllocError>
    ensures { IfOk result (λ json. view json ≡ delete_column_json_of table.now column.now) }
{
    Ok(json!(in alloc; {"column": column, "op": "delete_column", "table": table})?)
}

fn add_options_json(
    alloc: Global,
    table: &str,
    column: &str,
    options: &[Text],
) -> Result<Value, AllocError>
    ensures { IfOk result (λ json. view json ≡ add_options_json_of table.now column.now options.now) }
{
    let options = texts_json(alloc, options)?;
    Ok(
        json!(in alloc; {"column": column, "op": "add_options", "options": options, "table": table})?,
    )
}

fn append_array_json(alloc: Global, table: &str, rows: &[OpRow]) -> Result<Value, AllocError>
    ensures { IfOk result (λ json. view json ≡ append_rows_json_of table.now rows.now) }
{
    let rows = array_json(alloc, rows)?;
    Ok(json!(in alloc; {"op": "append_rows", "rows": rows, "table": table})?)
}

fn modify_array_json(alloc: Global, table: &str, rows: &[RowChange]) -> Result<Value, AllocError>
    ensures { IfOk result (λ json. view json ≡ modify_rows_json_of table.now rows.now) }
{
    let rows = array_json(alloc, rows)?;
    Ok(json!(in alloc; {"op": "modify_rows", "rows": rows, "table": table})?)
}

fn delete_array_json(alloc: Global, table: &str, ids: &[RowId]) -> Result<Value, AllocError>
    ensures { IfOk result (λ json. view json ≡ delete_rows_json_of table.now ids.now) }
{
    let ids = ids_json(alloc, ids)?;
    Ok(json!(in alloc; {"ids": ids, "op": "delete_rows", "table": table})?)
}

// An operation of that name on the links of a row with others.
fn links_json(
    alloc: Global,
    word: &str,
    table: &Text,
    column: &Text,
    row: &RowId,
    others: &[RowId],
) -> Result<Value, AllocError>
    ensures { IfOk result (λ json. view json ≡ links_json_of word.now table.now column.now row.now others.now) }
{
    let others = ids_json(alloc, others)?;
    let mut members = Map::new(alloc);
    put_text(&mut members, alloc, "column", column)?;
    put(&mut members, alloc, "op", Value::try_from_str(alloc, word)?)?;
    put(&mut members, alloc, "others", others)?;
    put_text(&mut members, alloc, "row", &row.0)?;
    put_text(&mut members, alloc, "table", table)?;
    Ok(Value::Object(members))
}

// Puts a text under a name.
fn put_text(
    members: &mut Map<String, Value>,
    alloc: Global,
    name: &str,
    text: &Text,
) -> Result<(), AllocError>
    ensures { OnOk result (members_view members.new.entries ≡ put_of name.now (string text.now) (members_view members.old.entries)) }
{
    let json = Value::try_from_str(alloc, text.as_str())?;
    put(members, alloc, name, json)?;
    Ok(())
}

// An operation of that name that puts a view.
fn put_view_json(
    alloc: Global,
    word: &str,
    table: &str,
    new_view: &NewView,
) -> Result<Value, AllocError>
    ensures { IfOk result (λ json. view json ≡ put_view_json_of word.now table.now new_view.now) }
{
    let shown = view_json(alloc, new_view)?;
    Ok(json!(in alloc; {"op": word, "table": table, "view": shown})?)
}

fn delete_view_json(alloc: Global, table: &str, name: &str) -> Result<Value, AllocError>
    ensures { IfOk result (λ json. view json ≡ delete_view_json_of table.now name.now) }
{
    Ok(json!(in alloc; {"op": "delete_view", "table": table, "view": name})?)
}

impl ToJson for NewColumn {
    ghost shown = { column_json_of };

    fn to_json(&self, alloc: Global) -> Result<Value, AllocError> {
        column_json(alloc, self)
    }
}

impl ToJson for NewFilter {
    ghost shown = { filter_json_of };

    fn to_json(&self, alloc: Global) -> Result<Value, AllocError> {
        filter_json(alloc, self)
    }
}

impl ToJson for OpRow {
    ghost shown = { row_json_of };

    fn to_json(&self, alloc: Global) -> Result<Value, AllocError> {
        row_json(alloc, self)
    }
}

impl ToJson for RowChange {
    ghost shown = { change_json_of };

    fn to_json(&self, alloc: Global) -> Result<Value, AllocError> {
        with_id_json(alloc, self.cells.as_slice(), &self.id.0)
    }
}

// A column: its name and its type, and what its type has beside these.
#[tactic(auto, unfolding(crate::specs::Texts::column_of_kind_json))]
fn column_json(alloc: Global, column: &NewColumn) -> Result<Value, AllocError>
    ensures { IfOk result (λ json. view json ≡ column_json_of column.now) }
{
    match column.kind {
        ColKind::Number => number_column_json(alloc, column.name.as_str(), column.unit.as_str()),
        ColKind::Select | ColKind::Multi => select_column_json(alloc, column),
        ColKind::Link => link_column_json(alloc, column),
        _ => plain_column_json(alloc, column.name.as_str(), column.kind),
    }
}

fn number_column_json(alloc: Global, name: &str, unit: &str) -> Result<Value, AllocError>
    ensures { IfOk result (λ json. view json ≡ number_column_json_of name.now unit.now) }
{
    Ok(json!(in alloc; {"name": name, "type": "number", "unit": unit})?)
}

fn select_column_json(alloc: Global, column: &NewColumn) -> Result<Value, AllocError>
    ensures { IfOk result (λ json. view json ≡ select_column_json_of column.now) }
{
    let name = column.name.as_str();
    let options = texts_json(alloc, column.options.as_slice())?;
    let word = type_word(column.kind);
    Ok(json!(in alloc; {"name": name, "options": options, "type": word})?)
}

fn link_column_json(alloc: Global, column: &NewColumn) -> Result<Value, AllocError>
    ensures { IfOk result (λ json. view json ≡ link_column_json_of column.now) }
{
    let name = column.name.as_str();
    let Some(end) = &column.other else {
        return Ok(json!(in alloc; {"name": name, "type": "link"})?);
    };
    let (other, other_name) = (end.table.as_str(), end.name.as_str());
    Ok(json!(in alloc; {"name": name, "other": other, "other_name": other_name, "type": "link"})?)
}

fn plain_column_json(alloc: Global, name: &str, kind: ColKind) -> Result<Value, AllocError>
    ensures { IfOk result (λ json. view json ≡ plain_column_json_of name.now kind) }
{
    let word = type_word(kind);
    Ok(json!(in alloc; {"name": name, "type": word})?)
}

fn view_json(alloc: Global, new_view: &NewView) -> Result<Value, AllocError>
    ensures { IfOk result (λ json. view json ≡ view_json_of new_view.now) }
{
    let name = new_view.name.as_str();
    let filters = array_json(alloc, new_view.filters.as_slice())?;
    let word = conjunction_word(new_view.all);
    Ok(json!(in alloc; {"conjunction": word, "filters": filters, "name": name})?)
}

// How the filters of a view are joined.
fn conjunction_word(all: bool) -> &'static str
    ensures { result.now ≡ conjunction_word_of all }
{
    if all { "And" } else { "Or" }
}

fn filter_json(alloc: Global, filter: &NewFilter) -> Result<Value, AllocError>
    ensures { IfOk result (λ json. view json ≡ filter_json_of filter.now) }
{
    let (column, predicate) = (filter.column.as_str(), filter.predicate.as_str());
    let term = word_json(alloc, &filter.term)?;
    Ok(json!(in alloc; {"column": column, "predicate": predicate, "term": term})?)
}

// A row: its cells, and its id at its place among them.
fn row_json(alloc: Global, row: &OpRow) -> Result<Value, AllocError>
    ensures { IfOk result (λ json. view json ≡ row_json_of row.now) }
{
    match &row.id {
        Some(id) => with_id_json(alloc, row.cells.as_slice(), id),
        None => Ok(Value::Object(members_of_cells(alloc, row.cells.as_slice())?)),
    }
}

// Cells, and an id at its place among them.
fn with_id_json(alloc: Global, cells: &[NamedCell], id: &Text) -> Result<Value, AllocError>
    ensures { IfOk result (λ json. view json ≡ with_id_json_of cells.now id.now) }
{
    let mut members = members_of_cells(alloc, cells)?;
    let id = Value::try_from_str(alloc, id.as_str())?;
    put(&mut members, alloc, "_id", id)?;
    Ok(Value::Object(members))
}

fn members_of_cells(alloc: Global, cells: &[NamedCell]) -> Result<Map<String, Value>, AllocError>
    ensures { IfOk result (λ members. members_view members.entries ≡ with_cells cells.now no_members) }
{
    let mut members = Map::new(alloc);
    for cell in cells {
        let json = word_json(alloc, &cell.word)?;
        put(&mut members, alloc, cell.name.as_str(), json)?;
    }
    Ok(members)
}

// The JSON that a cell's word came from, and `{}` for what is Odd.
fn word_json(alloc: Global, word: &CellWord) -> Result<Value, AllocError>
    ensures { IfOk result (λ json. view json ≡ json_of_word word.now) }
{
    match word {
        CellWord::Null => Ok(Value::Null),
        CellWord::Check(check) => Ok(Value::Bool(*check)),
        CellWord::Whole(whole) => Ok(whole_json(alloc, *whole)),
        CellWord::Text(text) => Ok(Value::try_from_str(alloc, text.as_str())?),
        CellWord::List(texts) => Ok(texts_json(alloc, texts.as_slice())?),
        CellWord::Odd => Ok(Value::Object(Map::new(alloc))),
    }
}

fn whole_json(alloc: Global, whole: i128) -> Value
    ensures { view result ≡ whole_json_of whole }
{
    if let Ok(whole) = u64::try_from(whole) {
        return Value::from(whole);
    }
    if let Ok(whole) = i64::try_from(whole) {
        return Value::from(whole);
    }
    Value::Object(Map::new(alloc))
}
