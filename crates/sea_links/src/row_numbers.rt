// The numbers of the pairs of each row, on one side of the links. They are kept by link and then by id, so that the pairs
// of a row on one link are found without those of other links.
ghost use Rattle.std.specs.Prelude.{◌≡◌, ℕ, List, if◌then◌else◌, OnOk, OnErr};
ghost use Rattle.std.specs.Option.{option_copied};
ghost use Rattle.std.specs.Str.{bytes_eq};
ghost use Rattle.std.specs.BTreeMap.{is_at};
ghost use Rattle.std.specs.BTreeSet.{insert_key};
ghost use Rattle.std.specs.Set.{remove_key};
ghost use Rattle.std.specs.Ordering.{nat_cmp};
ghost use Rattle.sea_links.specs.Index.{keys_in, numbers_under, numbers_at, HasSameNumbers, HasOneMore, HasOneLess};

use sea_cell::RowId;
use std::alloc::{AllocError, Global};
use std::collections::{BTreeMap, BTreeSet};

// Numbers of pairs. They rise as the pairs were added.
pub(crate) type Numbers = BTreeSet<u64>;

// The numbers of the pairs of a link, by the id of the row on one side.
type Rows = BTreeMap<String, Numbers>;

// The numbers of the pairs of all links, by link and by the id of the row on one side.
pub(crate) type RowNumbers = BTreeMap<u32, Rows>;

// The numbers of a row.
pub(crate) fn numbers<'a>(side: &'a RowNumbers, link: u32, id: &RowId) -> Option<&'a Numbers>
    ensures { keys_in (option_copied result) ≡ numbers_at side.now link id.now.0 }
{
    match side.get(&link) {
        Some(rows) => rows.get(id.0.as_str()),
        None => None,
    }
}

// Adds a number to those of a row.
pub(crate) fn add_number(
    alloc: Global,
    side: &mut RowNumbers,
    link: u32,
    id: &RowId,
    number: u64,
) -> Result<(), AllocError>
    ensures ok { OnOk result (HasOneMore link id.now number (numbers_at side.old) (numbers_at side.new)) }
    ensures err { OnErr result (HasSameNumbers (numbers_at side.old) (numbers_at side.new)) }
{
    match side.get_mut(&link) {
        Some(rows) => add_in_rows(alloc, rows, id.0.as_str(), number),
        None => {
            let mut rows = BTreeMap::new(alloc);
            add_in_rows(alloc, &mut rows, id.0.as_str(), number)?;
            side.insert(link, rows)?;
            Ok(())
        }
    }
}

// Adds a number to those of a row of one link.
fn add_in_rows(alloc: Global, rows: &mut Rows, id: &str, number: u64) -> Result<(), AllocError>
    ensures ok { OnOk result ((other : List ℕ) → numbers_under rows.new other ≡ (if bytes_eq id.now other then insert_key nat_cmp (numbers_under rows.old other) number else numbers_under rows.old other)) }
    ensures err { OnErr result ((other : List ℕ) → numbers_under rows.new other ≡ numbers_under rows.old other) }
{
    match rows.get_mut(id) {
        Some(numbers) => {
            numbers.insert(number)?;
            Ok(())
        }
        None => {
            let mut numbers = BTreeSet::new(alloc);
            numbers.insert(number)?;
            rows.insert(String::from_str(alloc, id)?, numbers)?;
            Ok(())
        }
    }
}

// Takes a number from those of a row. It takes no memory.
pub(crate) fn take_number(side: &mut RowNumbers, link: u32, id: &RowId, number: u64)
    ensures { HasOneLess link id.now number (numbers_at side.old) (numbers_at side.new) }
{
    if let Some(rows) = side.get_mut(&link) {
        take_in_rows(rows, id.0.as_str(), number);
        drop_empty(rows, id.0.as_str());
    }
}

// Takes a number from those of a row of one link.
fn take_in_rows(rows: &mut Rows, id: &str, number: u64)
    ensures { (other : List ℕ) → numbers_under rows.new other ≡ (if bytes_eq id.now other then remove_key (is_at (nat_cmp number)) (numbers_under rows.old other) else numbers_under rows.old other) }
{
    if let Some(numbers) = rows.get_mut(id) {
        numbers.remove(&number);
    }
}

// Drops the set of a row that has no number, so that removed rows leave nothing behind.
fn drop_empty(rows: &mut Rows, id: &str)
    ensures { (other : List ℕ) → numbers_under rows.new other ≡ numbers_under rows.old other }
{
    let Some(numbers) = rows.get(id) else {
        return;
    };
    if numbers.is_empty() {
        rows.remove(id);
    }
}
