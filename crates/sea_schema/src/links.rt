// The ends of links in tables.
ghost use Rattle.std.specs.Prelude.{◌≡◌, map, filter, IfOk};
ghost use Rattle.std.specs.Bool.{OnFalse};
ghost use Rattle.std.specs.List.{list_any};
ghost use Rattle.sea_schema.specs.Tables.{link_column as link_column_for, with_link_column, link_of as link_of_column, links_of as links_of_columns, links_named as links_of_named, is_link_among as is_link_among_of, is_end_of as is_end_of_links, is_of_no_link as is_of_none_of, without_links};

use crate::table::{Table, Tables};
use sea_cell::{ColKey, ColKind, Column, Duplicate, LinkEnd, Shared, Text, Texts};
use sqlite_items::Items;
use std::alloc::{AllocError, Global};

impl Table {
    /// The table with an end of a link, at the end: a column of this key and name, which says where the other end is.
    pub fn with_link_column(
        &self,
        alloc: Global,
        key: ColKey,
        name: &str,
        end: LinkEnd,
    ) -> Result<Table, AllocError>
        ensures { IfOk result (λ table. table ≡ with_link_column key.0 name.now end self.now) }
    {
        self.with_last_column(alloc, link_column(alloc, key, name, end)?)
    }

    /// The table without its ends of these links. The other columns and the views stay.
    pub fn without_links(&self, alloc: Global, links: &[u32]) -> Result<Table, AllocError>
        ensures { IfOk result (λ table. table ≡ without_links links.now self.now) }
    {
        let columns = columns_without_ends(alloc, self.columns.as_slice(), links)?;
        self.with_columns(alloc, columns)
    }

    /// Whether a column of the table is an end of one of these links. Where none is, the table without them is the same.
    pub fn has_link_of(&self, links: &[u32]) -> bool
        ensures ends { result ≡ list_any (is_end_of_links links.now) self.now.columns }
        ensures same { OnFalse result (without_links links.now self.now ≡ self.now) }
    {
        has_end_of(self.columns.as_slice(), links)
    }

    /// The links that end in the table, in the order of its columns.
    pub fn links(&self, alloc: Global) -> Result<Vec<u32>, AllocError>
        ensures { IfOk result (λ links. links.items ≡ links_of_columns self.now.columns) }
    {
        links_of(alloc, self.columns.as_slice())
    }

    /// The link that ends in the column of a name, where it is a link column.
    pub fn links_of_column(&self, alloc: Global, name: &str) -> Result<Vec<u32>, AllocError>
        ensures { IfOk result (λ links. links.items ≡ links_of_named name.now self.now.columns) }
    {
        links_named(alloc, self.columns.as_slice(), name)
    }
}

// One end of a link.
fn link_column(alloc: Global, key: ColKey, name: &str, end: LinkEnd) -> Result<Column, AllocError>
    ensures { IfOk result (λ made. made ≡ link_column_for key.0 name.now end) }
{
    Ok(Column {
        key,
        name: Text::copy_of(alloc, name)?,
        kind: ColKind::Link,
        unit: Text::copy_of(alloc, "")?,
        options: Texts::new(alloc),
        other: Some(end),
    })
}

// The link that ends in a column.
fn link_of(column: &Column) -> Option<u32>
    ensures { result ≡ link_of_column column.now }
{
    match column.other {
        Some(end) => Some(end.link),
        None => None,
    }
}

// The links that end in these columns.
fn links_of(alloc: Global, columns: &[Column]) -> Result<Vec<u32>, AllocError>
    ensures { IfOk result (λ links. links.items ≡ links_of_columns columns.now) }
{
    columns
        .iter()
        .filter_map(|column| link_of(column))
        .collect(alloc)
}

// The links that end in the column of a name.
fn links_named(alloc: Global, columns: &[Column], name: &str) -> Result<Vec<u32>, AllocError>
    ensures { IfOk result (λ links. links.items ≡ links_of_named name.now columns.now) }
{
    columns
        .iter()
        .filter(|column| column.name.as_str() == name)
        .filter_map(|column| link_of(column))
        .collect(alloc)
}

/// Whether a link is one of these.
pub fn is_link_among(links: &[u32], link: u32) -> bool
    ensures { result ≡ is_link_among_of links.now link }
{
    links.iter().any(|one| *one == link)
}

// The column is an end of one of these links.
fn is_end_of(column: &Column, links: &[u32]) -> bool
    ensures { result ≡ is_end_of_links links.now column.now }
{
    match link_of(column) {
        Some(link) => is_link_among(links, link),
        None => false,
    }
}

// One of the columns is an end of one of these links.
fn has_end_of(columns: &[Column], links: &[u32]) -> bool
    ensures { result ≡ list_any (is_end_of_links links.now) columns.now }
{
    columns.iter().any(|column| is_end_of(column, links))
}

// The column is an end of none of these links.
fn is_of_no_link(column: &Column, links: &[u32]) -> bool
    ensures { result ≡ is_of_none_of links.now column.now }
{
    !is_end_of(column, links)
}

// The columns that are ends of none of these links.
fn columns_without_ends(
    alloc: Global,
    columns: &[Column],
    links: &[u32],
) -> Result<Items<Column>, AllocError>
    ensures { IfOk result (λ kept. kept ≡ filter (is_of_none_of links.now) columns.now) }
{
    let mut kept = Items::new(alloc);
    for column in columns {
        if is_of_no_link(column, links) {
            kept.push(column.duplicate(alloc)?)?;
        }
    }
    Ok(kept)
}

// Tables without their ends of these links. Without links they are the tables that are given.
pub(crate) fn without_ends(
    alloc: Global,
    tables: Tables,
    links: &[u32],
) -> Result<Tables, AllocError>
    ensures { IfOk result (λ new. new ≡ map (without_links links.now) tables) }
{
    if links.is_empty() {
        return Ok(tables);
    }
    Tables::of(alloc, tables_without(alloc, tables.as_slice(), links)?)
}

// Tables without their ends of these links.
fn tables_without(
    alloc: Global,
    tables: &[Shared<Table>],
    links: &[u32],
) -> Result<Items<Shared<Table>>, AllocError>
    ensures { IfOk result (λ new. new ≡ map (without_links links.now) tables.now) }
{
    let mut new = Items::new(alloc);
    for table in tables {
        new.push(table_without(alloc, table, links)?)?;
    }
    Ok(new)
}

// A table without its ends of these links, shared if it has none.
fn table_without(
    alloc: Global,
    table: &Shared<Table>,
    links: &[u32],
) -> Result<Shared<Table>, AllocError>
    ensures { IfOk result (λ new. new ≡ without_links links.now table.now) }
{
    if table.get().has_link_of(links) {
        return Shared::new(alloc, table.get().without_links(alloc, links)?);
    }
    table.duplicate(alloc)
}
