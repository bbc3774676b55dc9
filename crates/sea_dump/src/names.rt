// The names of columns.
ghost use Rattle.std.specs.Prelude.{◌≡◌, map, IfOk};

use sea_cell::{Column, Duplicate, Texts};
use sqlite_items::Items;
use std::alloc::{AllocError, Global};

/// The names of columns, in their order.
pub fn names_of(alloc: Global, columns: &[Column]) -> Result<Texts, AllocError>
    ensures { IfOk result (λ names. names ≡ map (λ column. column.name) columns.now) }
{
    let mut names = Items::new(alloc);
    for column in columns {
        names.push(column.name.duplicate(alloc)?)?;
    }
    Ok(names)
}
