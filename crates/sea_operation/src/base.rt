// The plain base: what a base is to those who read and edit it.
ghost use Rattle.std.specs.Prelude.{◌≡◌, IfOk};
ghost use Rattle.sea_operation.specs.Base.{empty_base};

use sea_cell::{Duplicate, Rows, Shared};
use sea_links::LinkPair;
use sea_schema::Table;
use sqlite_items::Items;
use std::alloc::{AllocError, Global};

/// A table and its rows, in order of row number. A copy shares both.
#[derive(Drop)]
pub struct PlainTable {
    pub table: Shared<Table>,
    pub rows: Shared<Rows>,
}

/// The tables of a base in order of number.
pub type PlainTables = Items<PlainTable>;

/// The pairs of linked rows of a base in the order in which they were added. A copy shares them.
pub type PlainPairs = Items<Shared<LinkPair>>;

/// A plain base: how many operations it has taken, the numbers that come next, its tables and its link pairs.
#[derive(Drop)]
pub struct Plain {
    pub version: u64,
    pub next_row: u64,
    pub next_table: u32,
    pub next_column: u32,
    pub next_link: u32,
    pub tables: PlainTables,
    pub pairs: PlainPairs,
}

impl Plain {
    /// The empty base, of version 0. Each number begins at 1.
    pub fn new(alloc: Global) -> Plain
        ensures { result ≡ empty_base }
    {
        Plain {
            version: 0,
            next_row: 1,
            next_table: 1,
            next_column: 1,
            next_link: 1,
            tables: Items::new(alloc),
            pairs: Items::new(alloc),
        }
    }
}

impl Duplicate for PlainTable {
    fn duplicate(&self, alloc: Global) -> Result<PlainTable, AllocError> {
        Ok(PlainTable {
            table: self.table.duplicate(alloc)?,
            rows: self.rows.duplicate(alloc)?,
        })
    }
}

impl Duplicate for Plain {
    fn duplicate(&self, alloc: Global) -> Result<Plain, AllocError> {
        Ok(Plain {
            version: self.version,
            next_row: self.next_row,
            next_table: self.next_table,
            next_column: self.next_column,
            next_link: self.next_link,
            tables: self.tables.duplicate(alloc)?,
            pairs: self.pairs.duplicate(alloc)?,
        })
    }
}
