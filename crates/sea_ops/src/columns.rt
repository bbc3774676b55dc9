// Reading the columns that are to be made.
ghost use Rattle.std.specs.Prelude.{◌≡◌, not, IfOk, option_map, option_and_then};
ghost use Rattle.std.specs.List.{list_all};
ghost use Rattle.serde_json.specs.Find.{get};
ghost use Rattle.serde_json.specs.View.{view};
ghost use Rattle.sea_ops.specs.Operations.{column_of_json as column_of_data, column_of_kind as column_of_kind_data, plain_of as plain_of_data, number_of as number_of_data, select_of as select_of_data, link_of as link_of_data, unit_of as unit_of_data, options_of as options_of_data, may_be_first as may_be_first_kind, is_link as is_link_kind, make_table as make_table_columns, leads_away as leads_away_column};

use crate::arrays::OfJson;
use crate::members::{count_at, has_members, items_of, text_at};
use sea_cell::{ColKind, NewColumn, NewColumns, NewEnd, Text, Texts, kind_of_word, texts_of};
use serde_json::Value;
use sqlite_items::Items;
use std::alloc::{AllocError, Global};

/// The column under a name.
pub fn column_at(alloc: Global, json: &Value, name: &str) -> Result<Option<NewColumn>, AllocError>
    ensures { IfOk result (λ column. column ≡ option_and_then column_of_data (get name.now (view json.now))) }
{
    match json.get(name) {
        Some(value) => column_of_json(alloc, value),
        None => Ok(None),
    }
}

impl OfJson for NewColumn {
    ghost meaning = { column_of_data };

    fn of_json(alloc: Global, json: &Value) -> Result<Option<NewColumn>, AllocError> {
        column_of_json(alloc, json)
    }
}

// The column that an object is: its type and its name, and what its type has beside these.
fn column_of_json(alloc: Global, json: &Value) -> Result<Option<NewColumn>, AllocError>
    ensures { IfOk result (λ column. column ≡ column_of_data (view json.now)) }
{
    let Some(word) = text_at(json, "type") else {
        return Ok(None);
    };
    let Some(kind) = kind_of_word(word) else {
        return Ok(None);
    };
    let Some(name) = text_at(json, "name") else {
        return Ok(None);
    };
    column_of_kind(alloc, kind, json, name)
}

#[tactic(auto, unfolding(crate::specs::Operations::column_of_kind))]
fn column_of_kind(
    alloc: Global,
    kind: ColKind,
    json: &Value,
    name: &str,
) -> Result<Option<NewColumn>, AllocError>
    ensures { IfOk result (λ column. column ≡ column_of_kind_data kind (view json.now) name.now) }
{
    match kind {
        ColKind::Number => number_column(alloc, json, name),
        ColKind::Select | ColKind::Multi => select_column(alloc, kind, json, name),
        ColKind::Link => link_column(alloc, json, name),
        _ => plain_column(alloc, kind, json, name),
    }
}

fn plain_column(
    alloc: Global,
    kind: ColKind,
    json: &Value,
    name: &str,
) -> Result<Option<NewColumn>, AllocError>
    ensures { IfOk result (λ column. column ≡ plain_of_data kind (view json.now) name.now) }
{
    if !has_members(json, 2) {
        return Ok(None);
    }
    Ok(Some(NewColumn {
        name: Text::copy_of(alloc, name)?,
        kind,
        unit: Text::from(String::new(alloc)),
        options: Items::new(alloc),
        other: None,
    }))
}

// A number column, whose unit may be left out.
fn number_column(alloc: Global, json: &Value, name: &str) -> Result<Option<NewColumn>, AllocError>
    ensures { IfOk result (λ column. column ≡ number_of_data (view json.now) name.now) }
{
    if !has_members(json, 2 + count_at(json, "unit")) {
        return Ok(None);
    }
    let Some(unit) = unit_of(alloc, json.get("unit"))? else {
        return Ok(None);
    };
    Ok(Some(NewColumn {
        name: Text::copy_of(alloc, name)?,
        kind: ColKind::Number,
        unit,
        options: Items::new(alloc),
        other: None,
    }))
}

fn unit_of(alloc: Global, json: Option<&Value>) -> Result<Option<Text>, AllocError>
    ensures { IfOk result (λ unit. unit ≡ unit_of_data (option_map (λ it. view it.now) json.entry)) }
{
    let Some(json) = json else {
        return Ok(Some(Text::from(String::new(alloc))));
    };
    match json.as_str() {
        Some(text) => Ok(Some(Text::copy_of(alloc, text)?)),
        None => Ok(None),
    }
}

// A select column, whose options may be left out.
fn select_column(
    alloc: Global,
    kind: ColKind,
    json: &Value,
    name: &str,
) -> Result<Option<NewColumn>, AllocError>
    ensures { IfOk result (λ column. column ≡ select_of_data kind (view json.now) name.now) }
{
    if !has_members(json, 2 + count_at(json, "options")) {
        return Ok(None);
    }
    let Some(options) = options_of(alloc, json.get("options"))? else {
        return Ok(None);
    };
    Ok(Some(NewColumn {
        name: Text::copy_of(alloc, name)?,
        kind,
        unit: Text::from(String::new(alloc)),
        options,
        other: None,
    }))
}

fn options_of(alloc: Global, json: Option<&Value>) -> Result<Option<Texts>, AllocError>
    ensures { IfOk result (λ options. options ≡ options_of_data (option_map (λ it. view it.now) json.entry)) }
{
    let Some(json) = json else {
        return Ok(Some(Items::new(alloc)));
    };
    match items_of(json) {
        Some(items) => texts_of(alloc, items),
        None => Ok(None),
    }
}

// A link column: the other table, and the name of the column there.
fn link_column(alloc: Global, json: &Value, name: &str) -> Result<Option<NewColumn>, AllocError>
    ensures { IfOk result (λ column. column ≡ link_of_data (view json.now) name.now) }
{
    if !has_members(json, 4) {
        return Ok(None);
    }
    let Some(table) = text_at(json, "other") else {
        return Ok(None);
    };
    let Some(other) = text_at(json, "other_name") else {
        return Ok(None);
    };
    let end = NewEnd {
        table: Text::copy_of(alloc, table)?,
        name: Text::copy_of(alloc, other)?,
    };
    Ok(Some(NewColumn {
        name: Text::copy_of(alloc, name)?,
        kind: ColKind::Link,
        unit: Text::from(String::new(alloc)),
        options: Items::new(alloc),
        other: Some(end),
    }))
}

/// Whether columns make a table: there is at least one, the first is of a type that may be it, and none is a link.
pub fn make_table(columns: &[NewColumn]) -> bool
    ensures { result ≡ make_table_columns columns.now }
{
    let [first, others @ ..] = columns else {
        return false;
    };
    may_be_first(first.kind) && have_no_link(others)
}

// No column is a link.
fn have_no_link(columns: &[NewColumn]) -> bool
    ensures { result ≡ list_all (λ column. not (is_link_kind column.kind)) columns.now }
{
    columns.iter().all(|column| !is_link(column.kind))
}

// The first column of a table is a text, a number, a date or an option.
fn may_be_first(kind: ColKind) -> bool
    ensures { result ≡ may_be_first_kind kind }
{
    matches!(
        kind,
        ColKind::Text | ColKind::Number | ColKind::Date | ColKind::Select
    )
}

fn is_link(kind: ColKind) -> bool
    ensures { result ≡ is_link_kind kind }
{
    matches!(kind, ColKind::Link)
}

/// Whether a column leads to no table, or to another than its own.
pub fn leads_away(table: &str, column: &NewColumn) -> bool
    ensures { result ≡ leads_away_column table.now column.now }
{
    match &column.other {
        Some(end) => end.table.as_str() != table,
        None => true,
    }
}
