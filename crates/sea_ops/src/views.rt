// Reading the views of operations.
ghost use Rattle.std.specs.Prelude.{◌≡◌, IfOk, option_and_then};
ghost use Rattle.serde_json.specs.Find.{get};
ghost use Rattle.serde_json.specs.View.{view};
ghost use Rattle.sea_ops.specs.Operations.{view_of_json as view_of_data, filter_of_json as filter_of_data, conjunction_of as conjunction_of_text};

use crate::arrays::{OfJson, list_at};
use crate::members::{has_members, text_at};
use sea_cell::{Text, word_of_json};
use sea_operation::{NewFilter, NewView};
use serde_json::Value;
use std::alloc::{AllocError, Global};

/// The view under a name.
pub fn view_at(alloc: Global, json: &Value, name: &str) -> Result<Option<NewView>, AllocError>
    ensures { IfOk result (λ found. found ≡ option_and_then view_of_data (get name.now (view json.now))) }
{
    match json.get(name) {
        Some(value) => view_of_json(alloc, value),
        None => Ok(None),
    }
}

fn view_of_json(alloc: Global, json: &Value) -> Result<Option<NewView>, AllocError>
    ensures { IfOk result (λ found. found ≡ view_of_data (view json.now)) }
{
    if !has_members(json, 3) {
        return Ok(None);
    }
    let Some(name) = text_at(json, "name") else {
        return Ok(None);
    };
    let Some(word) = text_at(json, "conjunction") else {
        return Ok(None);
    };
    let Some(all) = conjunction_of(word) else {
        return Ok(None);
    };
    let Some(filters) = list_at(alloc, json, "filters")? else {
        return Ok(None);
    };
    let name = Text::copy_of(alloc, name)?;
    Ok(Some(NewView { name, all, filters }))
}

// Whether rows have to meet all filters, for And, or any of them, for Or.
fn conjunction_of(word: &str) -> Option<bool>
    ensures { result ≡ conjunction_of_text word.now }
{
    if word == "And" {
        return Some(true);
    }
    if word == "Or" {
        return Some(false);
    }
    None
}

impl OfJson for NewFilter {
    ghost meaning = { filter_of_data };

    fn of_json(alloc: Global, json: &Value) -> Result<Option<NewFilter>, AllocError> {
        filter_of_json(alloc, json)
    }
}

fn filter_of_json(alloc: Global, json: &Value) -> Result<Option<NewFilter>, AllocError>
    ensures { IfOk result (λ filter. filter ≡ filter_of_data (view json.now)) }
{
    if !has_members(json, 3) {
        return Ok(None);
    }
    let Some(column) = text_at(json, "column") else {
        return Ok(None);
    };
    let Some(predicate) = text_at(json, "predicate") else {
        return Ok(None);
    };
    let Some(term) = json.get("term") else {
        return Ok(None);
    };
    Ok(Some(NewFilter {
        column: Text::copy_of(alloc, column)?,
        predicate: Text::copy_of(alloc, predicate)?,
        term: word_of_json(alloc, term)?,
    }))
}
