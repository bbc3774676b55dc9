// Lists as JSON arrays, both ways.
ghost use Rattle.std.specs.Prelude.{◌≡◌, ◌++◌, Option, IfOk, map};
ghost use Rattle.serde_json.specs.Data.{Data, array};
ghost use Rattle.serde_json.specs.View.{view, items_view, items_of as items_of_list};
ghost use Rattle.sea_ops.specs.Operations.{each_of, each_at};

use crate::members::items_at;
use serde_json::Value;
use sqlite_items::Items;
use std::alloc::{AllocError, Global};

/// A thing that some JSON values are.
pub trait OfJson: Sized {
    /// What a value is, or none.
    ghost meaning: { Data → Option Self };

    /// What a value is, or None where it is none.
    fn of_json(alloc: Global, json: &Value) -> Result<Option<Self>, AllocError>
        ensures { IfOk result (λ found. found ≡ meaning (view json.now)) };
}

/// A thing that is written as JSON.
pub trait ToJson {
    /// The value that it is written as.
    ghost shown: { Self → Data };

    /// The value that it is written as.
    fn to_json(&self, alloc: Global) -> Result<Value, AllocError>
        ensures { IfOk result (λ json. view json ≡ shown self.now) };
}

/// What each item of the array under a name is, or None where there is no array, or an item is none.
pub fn list_at<T: OfJson + Drop>(
    alloc: Global,
    json: &Value,
    name: &str,
) -> Result<Option<Items<T>>, AllocError>
    ensures { IfOk result (λ found. found ≡ each_at T.meaning name.now (view json.now)) }
{
    match items_at(json, name) {
        Some(items) => list_of(alloc, items),
        None => Ok(None),
    }
}

fn list_of<T: OfJson + Drop>(alloc: Global, items: &[Value]) -> Result<Option<Items<T>>, AllocError>
    ensures { IfOk result (λ found. found ≡ each_of T.meaning (items_view items.now)) }
{
    let mut list = Items::new(alloc);
    for item in items {
        match T::of_json(alloc, item)? {
            Some(found) => list.push(found)?,
            None => return Ok(None),
        }
    }
    Ok(Some(list))
}

/// An array of things.
pub fn array_json<T: ToJson>(alloc: Global, list: &[T]) -> Result<Value, AllocError>
    ensures { IfOk result (λ json. view json ≡ array (items_of_list (map T.shown list.now))) }
{
    Ok(Value::Array(values(alloc, list)?))
}

fn values<T: ToJson>(alloc: Global, list: &[T]) -> Result<Vec<Value>, AllocError>
    ensures { IfOk result (λ values. map view values.items ≡ map T.shown list.now) }
{
    let mut values = Vec::with_capacity(alloc, list.len())?;
    for item in list {
        values.push(item.to_json(alloc)?)?;
    }
    Ok(values)
}
