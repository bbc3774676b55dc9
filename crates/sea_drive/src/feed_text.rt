// The JSON of a feed.
ghost use Rattle.std.specs.Prelude.{◌≡◌, ◌+◌, ◌≤◌, ◌^◌, IfOk, map, length};
ghost use Rattle.serde_json.specs.View.{view};
ghost use Rattle.sea_drive.specs.Fed.{feed_json as feed_json_of, entries_json as entries_json_of, entry_json as entry_json_of};

use sea_cell::Shared;
use sea_core::Feed;
use sea_moment::text_of_moment;
use sea_operation::Entry;
use sea_ops::op_json;
use serde_json::{Value, json};
use std::alloc::{AllocError, Global};

/// The entries of a feed, and the base's version.
pub fn feed_json(alloc: Global, feed: &Feed) -> Result<Value, AllocError>
    ensures { IfOk result (λ json. view json ≡ feed_json_of feed.now) }
{
    let entries = Value::Array(entries_json(alloc, feed.first, feed.entries.as_slice())?);
    let version = feed.version;
    json!(in alloc; {"entries": entries, "version": version})
}

// Entries with their versions, of which the first one made this version.
fn entries_json(
    alloc: Global,
    first: u64,
    entries: &[Shared<Entry>],
) -> Result<Vec<Value>, AllocError>
    requires { first + length entries.now ≤ 2 ^ 64 }
    ensures { IfOk result (λ items. map view items.items ≡ entries_json_of first entries.now) }
{
    let mut items = Vec::with_capacity(alloc, entries.len())?;
    for at in 0..entries.len() {
        items.push(entry_json(alloc, first + at as u64, entries[at].get())?)?;
    }
    Ok(items)
}

// An entry with the version that it made.
fn entry_json(alloc: Global, version: u64, entry: &Entry) -> Result<Value, AllocError>
    ensures { IfOk result (λ json. view json ≡ entry_json_of version entry.now) }
{
    let moment = Value::String(text_of_moment(alloc, entry.moment.0)?);
    let op = op_json(alloc, &entry.op)?;
    let user = entry.user.as_str();
    json!(in alloc; {"moment": moment, "op": op, "user": user, "version": version})
}
