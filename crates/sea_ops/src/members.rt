// The members of JSON objects.
ghost use Rattle.std.specs.Prelude.{◌≡◌, IfOk, map, option_map};
ghost use Rattle.serde_json.specs.Find.{as_array};
ghost use Rattle.serde_json.specs.View.{view, items_view};
ghost use Rattle.sea_cell.specs.Words.{texts_of as texts_of_items};
ghost use Rattle.sea_ops.specs.Operations.{has_members as has_members_of, text_at as text_at_of, items_at as items_at_of, texts_at as texts_at_of, ids_at as ids_at_of, row_id as row_id_of, count_at as count_at_of};

use sea_cell::{Ids, RowId, Text, Texts, texts_of};
use serde_json::Value;
use sqlite_items::Items;
use std::alloc::{AllocError, Global};

/// Whether a value is an object with so many members.
pub fn has_members(json: &Value, count: usize) -> bool
    ensures { result ≡ has_members_of count (view json.now) }
{
    match json.as_object() {
        Some(members) => members.len() == count,
        None => false,
    }
}

/// One where there is a member of a name, and else none.
pub fn count_at(json: &Value, name: &str) -> usize
    ensures { result ≡ count_at_of name.now (view json.now) }
{
    match json.get(name) {
        Some(_) => 1,
        None => 0,
    }
}

/// The text under a name.
pub fn text_at<'a>(json: &'a Value, name: &str) -> Option<&'a str>
    ensures { option_map (λ text. text.now) result ≡ text_at_of name.now (view json.now) }
{
    match json.get(name) {
        Some(value) => value.as_str(),
        None => None,
    }
}

/// The array under a name.
pub fn items_at<'a>(json: &'a Value, name: &str) -> Option<&'a [Value]>
    ensures { option_map (λ items. items_view items.now) result ≡ items_at_of name.now (view json.now) }
{
    match json.get(name) {
        Some(value) => items_of(value),
        None => None,
    }
}

/// The items of an array.
pub fn items_of(json: &Value) -> Option<&[Value]>
    ensures { option_map (λ items. items_view items.now) result ≡ as_array (view json.now) }
{
    match json.as_array() {
        Some(items) => Some(items.as_slice()),
        None => None,
    }
}

/// The texts of the array under a name, or None where there is no array of nothing but texts.
pub fn texts_at(alloc: Global, json: &Value, name: &str) -> Result<Option<Texts>, AllocError>
    ensures { IfOk result (λ texts. texts ≡ texts_at_of name.now (view json.now)) }
{
    match items_at(json, name) {
        Some(items) => texts_of(alloc, items),
        None => Ok(None),
    }
}

/// The ids of the array under a name.
pub fn ids_at(alloc: Global, json: &Value, name: &str) -> Result<Option<Ids>, AllocError>
    ensures { IfOk result (λ ids. ids ≡ ids_at_of name.now (view json.now)) }
{
    match items_at(json, name) {
        Some(items) => ids_of(alloc, items),
        None => Ok(None),
    }
}

// The ids of an array, or None where an item is no text.
fn ids_of(alloc: Global, items: &[Value]) -> Result<Option<Ids>, AllocError>
    ensures { IfOk result (λ ids. ids ≡ option_map (map row_id_of) (texts_of_items (items_view items.now))) }
{
    let mut ids = Items::new(alloc);
    for item in items {
        let Some(text) = item.as_str() else {
            return Ok(None);
        };
        ids.push(RowId(Text::copy_of(alloc, text)?))?;
    }
    Ok(Some(ids))
}

/// The id under a name.
pub fn id_at(alloc: Global, json: &Value, name: &str) -> Result<Option<RowId>, AllocError>
    ensures { IfOk result (λ id. id ≡ option_map row_id_of (text_at_of name.now (view json.now))) }
{
    match text_at(json, name) {
        Some(text) => Ok(Some(RowId(Text::copy_of(alloc, text)?))),
        None => Ok(None),
    }
}
