// Texts and ids as arrays of JSON strings, and texts back from them.
ghost use Rattle.std.specs.Prelude.{◌≡◌, ◌++◌, IfOk, Option, Some, None, map, option_map};
ghost use Rattle.serde_json.specs.Data.{string};
ghost use Rattle.serde_json.specs.View.{view, items_view};
ghost use Rattle.sea_cell.specs.Conversion.{texts_json as texts_json_of, ids_json as ids_json_of};
ghost use Rattle.sea_cell.specs.Words.{texts_of as texts_of_items};

use crate::keys::RowId;
use sea_text::{Text, Texts};
use serde_json::Value;
use std::alloc::{AllocError, Global};

/// The texts of an array of nothing but strings, or None where an item is another value.
pub fn texts_of(alloc: Global, items: &[Value]) -> Result<Option<Texts>, AllocError>
    ensures { IfOk result (λ texts. texts ≡ texts_of_items (items_view items.now)) }
{
    let mut texts = Texts::new(alloc);
    for item in items {
        let Some(text) = item.as_str() else {
            return Ok(None);
        };
        texts.push(Text::copy_of(alloc, text)?)?;
    }
    Ok(Some(texts))
}

/// Texts as an array of strings.
pub fn texts_json(alloc: Global, texts: &[Text]) -> Result<Value, AllocError>
    ensures { IfOk result (λ json. view json ≡ texts_json_of texts.now) }
{
    Ok(Value::Array(text_values(alloc, texts)?))
}

fn text_values(alloc: Global, texts: &[Text]) -> Result<Vec<Value>, AllocError>
    ensures { IfOk result (λ values. map view values.items ≡ map string texts.now) }
{
    let mut values = Vec::with_capacity(alloc, texts.len())?;
    for text in texts {
        values.push(Value::try_from_str(alloc, text.as_str())?)?;
    }
    Ok(values)
}

/// Ids as an array of strings.
pub fn ids_json(alloc: Global, ids: &[RowId]) -> Result<Value, AllocError>
    ensures { IfOk result (λ json. view json ≡ ids_json_of ids.now) }
{
    Ok(Value::Array(id_values(alloc, ids)?))
}

fn id_values(alloc: Global, ids: &[RowId]) -> Result<Vec<Value>, AllocError>
    ensures { IfOk result (λ values. map view values.items ≡ map (λ id. string id.0) ids.now) }
{
    let mut values = Vec::with_capacity(alloc, ids.len())?;
    for id in ids {
        values.push(Value::try_from_str(alloc, id.0.as_str())?)?;
    }
    Ok(values)
}
