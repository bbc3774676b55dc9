// Tables, columns and the ends of links by name.
ghost use Rattle.std.specs.Prelude.{◌≡◌};
ghost use Rattle.std.specs.Option.{option_copied};
ghost use Rattle.sea_text.specs.Named.{listed};
ghost use Rattle.sea_schema.specs.Tables.{column_named as column_named_of};
ghost use Rattle.sea_operation.specs.Base.{plain_named as plain_named_of};
ghost use Rattle.sea_operation.specs.Joined.{end_named as end_named_of};

use crate::base::PlainTable;
use sea_cell::{Column, Columns, LinkEnd, named_in};

/// The table of a name with its rows, where there is one.
pub fn plain_named<'a>(tables: &'a [PlainTable], name: &str) -> Option<&'a PlainTable>
    ensures { option_copied result ≡ plain_named_of tables.now name.now }
{
    tables
        .iter()
        .find(|plain| plain.table.get().name.as_str() == name)
}

/// The column of a name, where there is one.
pub fn column_named<'a>(columns: Option<&'a Columns>, name: &str) -> Option<&'a Column>
    ensures { option_copied result ≡ column_named_of (listed columns.entry) name.now }
{
    named_in(columns, name)
}

/// The link's end in the column of a name, where that is a link column.
pub fn end_named(columns: Option<&Columns>, name: &str) -> Option<LinkEnd>
    ensures { result ≡ end_named_of (listed columns.entry) name.now }
{
    match column_named(columns, name) {
        Some(column) => column.other,
        None => None,
    }
}
