// What columns, tables and rows are known by, and moments.
ghost use Rattle.std.specs.Prelude.{◌≡◌, IfOk};

use sea_text::{Duplicate, Named, Text};
use sqlite_items::Items;
use std::alloc::{AllocError, Global};

/// The key of a column. No two columns of a base have ever had the same key.
#[derive(Clone, Copy, PartialEq, Eq, PartialOrd, Ord)]
pub struct ColKey(pub u32);

/// The number of a table. No two tables of a base have ever had the same number.
#[derive(Clone, Copy, PartialEq, Eq, PartialOrd, Ord)]
pub struct TableNo(pub u32);

/// Minutes from 1970-01-01 00:00 UTC.
#[derive(Clone, Copy, PartialEq, Eq, PartialOrd, Ord)]
pub struct Moment(pub i64);

/// The id of a row, as an operation names it. One that a row has is 1 to 22 letters, digits, `_` and `-`, and no two rows
/// of a table have the same.
#[derive(Drop)]
pub struct RowId(pub Text);

/// A list of row ids.
pub type Ids = Items<RowId>;

impl Named for RowId {
    ghost name = { λ id. id.0 };

    fn name(&self) -> &str {
        self.0.as_str()
    }
}

impl Duplicate for RowId {
    fn duplicate(&self, alloc: Global) -> Result<RowId, AllocError> {
        Ok(RowId(self.0.duplicate(alloc)?))
    }
}
