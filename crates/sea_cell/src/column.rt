// The columns of a table.
ghost use Rattle.std.specs.Prelude.{◌≡◌, IfOk};

use crate::keys::{ColKey, TableNo};
use sea_text::{Duplicate, Indexed, Named, Text, Texts};
use sqlite_items::Items;
use std::alloc::{AllocError, Global};

/// The type of a column.
#[derive(Clone, Copy)]
pub enum ColKind {
    Text,
    LongText,
    Number,
    Check,
    Date,
    Select,
    Multi,
    People,
    Link,
    Made,
    Changed,
}

/// One side of a link column: the link's number, the other table, and whether this side made the link.
#[derive(Clone, Copy)]
pub struct LinkEnd {
    pub link: u32,
    pub table: TableNo,
    pub first: bool,
}

/// A column of a table. A number column has a unit, a select column its options, a link column its other end.
#[derive(Drop)]
pub struct Column {
    pub key: ColKey,
    pub name: Text,
    pub kind: ColKind,
    pub unit: Text,
    pub options: Texts,
    pub other: Option<LinkEnd>,
}

/// The columns of a table, in the order in which they were added. They are found by name.
pub type Columns = Indexed<Column>;

/// The other side of a link column that is to be made: the table, and the name of the column there.
#[derive(Drop)]
pub struct NewEnd {
    pub table: Text,
    pub name: Text,
}

/// A column that is to be made.
#[derive(Drop)]
pub struct NewColumn {
    pub name: Text,
    pub kind: ColKind,
    pub unit: Text,
    pub options: Texts,
    pub other: Option<NewEnd>,
}

/// The columns that are to be made, in order.
pub type NewColumns = Items<NewColumn>;

impl Named for Column {
    ghost name = { λ column. column.name };

    fn name(&self) -> &str {
        self.name.as_str()
    }
}

impl Named for NewColumn {
    ghost name = { λ column. column.name };

    fn name(&self) -> &str {
        self.name.as_str()
    }
}

impl Duplicate for Column {
    fn duplicate(&self, alloc: Global) -> Result<Column, AllocError> {
        Ok(Column {
            key: self.key,
            name: self.name.duplicate(alloc)?,
            kind: self.kind,
            unit: self.unit.duplicate(alloc)?,
            options: self.options.duplicate(alloc)?,
            other: self.other,
        })
    }
}
