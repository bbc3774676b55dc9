// The ends of links in the tables of a base: which go with what is taken away, and how they are added and removed.
ghost use Rattle.std.specs.Prelude.{◌≡◌, ◌+◌, ◌<◌, ◌^◌, map, IfOk};
ghost use Rattle.sea_schema.specs.Layout.{end_towards as end_towards_of, number_named as number_named_of, links_of_table as links_of_table_of, links_of_column as links_of_column_of};
ghost use Rattle.sea_schema.specs.Tables.{with_link_column};
ghost use Rattle.sea_operation.specs.Apply.{without_ends_in, in_plain, with_link_in, links_gone as links_gone_of};
ghost use Rattle.sea_operation.specs.Schemas.{schema_of};

use sea_cell::{ColKey, Duplicate, LinkEnd, NewEnd, Shared, TableNo};
use sea_operation::{Op, Plain, PlainTable, PlainTables, plain_named};
use sqlite_items::Items;
use std::alloc::{AllocError, Global};

/// The links that end in what the operation takes away.
pub fn links_gone(alloc: Global, tables: &[PlainTable], op: &Op) -> Result<Vec<u32>, AllocError>
    ensures { IfOk result (λ links. links.items ≡ links_gone_of (map (λ plain. plain.table) tables.now) op.now) }
{
    match op {
        Op::DeleteTable { table } => links_of_table(alloc, tables, table.as_str()),
        Op::DeleteColumn { table, column } => {
            links_of_column(alloc, tables, table.as_str(), column.as_str())
        }
        _ => Ok(Vec::new(alloc)),
    }
}

// The links that end in the table of a name.
#[tactic(auto, using(crate::proofs::Found::found_without_rows))]
fn links_of_table(alloc: Global, tables: &[PlainTable], table: &str) -> Result<Vec<u32>, AllocError>
    ensures { IfOk result (λ links. links.items ≡ links_of_table_of table.now (map (λ plain. plain.table) tables.now)) }
{
    match plain_named(tables, table) {
        Some(plain) => plain.table.get().links(alloc),
        None => Ok(Vec::new(alloc)),
    }
}

// The links that end in the column of a name of the table of a name.
#[tactic(auto, using(crate::proofs::Found::found_without_rows))]
fn links_of_column(
    alloc: Global,
    tables: &[PlainTable],
    table: &str,
    column: &str,
) -> Result<Vec<u32>, AllocError>
    ensures { IfOk result (λ links. links.items ≡ links_of_column_of table.now column.now (map (λ plain. plain.table) tables.now)) }
{
    match plain_named(tables, table) {
        Some(plain) => plain.table.get().links_of_column(alloc, column),
        None => Ok(Vec::new(alloc)),
    }
}

/// The tables with both columns of a new link.
pub fn with_link(
    alloc: Global,
    base: &Plain,
    table: &str,
    name: &str,
    other: &NewEnd,
) -> Result<PlainTables, AllocError>
    requires { base.now.next_column + 1 < 2 ^ 32 }
    ensures { IfOk result (λ tables. tables ≡ with_link_in base.now table.now name.now other.now) }
{
    let key = base.next_column;
    let first = end_towards(base, other.table.as_str(), true);
    let second = end_towards(base, table, false);
    let (to, to_name) = (other.table.as_str(), other.name.as_str());
    let tables = with_end(alloc, base.tables.as_slice(), table, key, name, first)?;
    let linked = with_end(alloc, tables.as_slice(), to, key + 1, to_name, second)?;
    Ok(linked)
}

// An end of a new link, whose other end is in the table of a name.
fn end_towards(base: &Plain, other: &str, first: bool) -> LinkEnd
    ensures { result ≡ end_towards_of other.now first (schema_of base.now) }
{
    LinkEnd {
        link: base.next_link,
        table: number_named(base.tables.as_slice(), other),
        first,
    }
}

// The number of the table of a name, or 0.
#[tactic(auto, using(crate::proofs::Found::found_without_rows))]
fn number_named(tables: &[PlainTable], name: &str) -> TableNo
    ensures { result.0 ≡ number_named_of (map (λ plain. plain.table) tables.now) name.now }
{
    match plain_named(tables, name) {
        Some(plain) => plain.table.get().no,
        None => TableNo(0),
    }
}

// The tables with an end of a link in the one of a name. The others are shared.
fn with_end(
    alloc: Global,
    tables: &[PlainTable],
    table: &str,
    key: u32,
    name: &str,
    end: LinkEnd,
) -> Result<PlainTables, AllocError>
    ensures { IfOk result (λ new. new ≡ map (in_plain table.now (with_link_column key name.now end)) tables.now) }
{
    let mut new = Items::new(alloc);
    for plain in tables {
        new.push(with_end_if(alloc, plain, table, key, name, end)?)?;
    }
    Ok(new)
}

// A table with an end of a link, if it is the one of a name.
fn with_end_if(
    alloc: Global,
    plain: &PlainTable,
    table: &str,
    key: u32,
    name: &str,
    end: LinkEnd,
) -> Result<PlainTable, AllocError>
    ensures { IfOk result (λ new. new ≡ in_plain table.now (with_link_column key name.now end) plain.now) }
{
    let old = plain.table.get();
    if old.name.as_str() != table {
        return Ok(plain.duplicate(alloc)?);
    }
    let new = old.with_link_column(alloc, ColKey(key), name, end)?;
    Ok(PlainTable {
        table: Shared::new(alloc, new)?,
        rows: plain.rows.duplicate(alloc)?,
    })
}

/// The tables without their ends of some links. Those that have none are shared.
pub fn without_ends(
    alloc: Global,
    tables: &[PlainTable],
    links: &[u32],
) -> Result<PlainTables, AllocError>
    ensures { IfOk result (λ new. new ≡ map (without_ends_in links.now) tables.now) }
{
    let mut new = Items::new(alloc);
    for plain in tables {
        new.push(without_ends_if(alloc, plain, links)?)?;
    }
    Ok(new)
}

// A table without its ends of some links.
fn without_ends_if(
    alloc: Global,
    plain: &PlainTable,
    links: &[u32],
) -> Result<PlainTable, AllocError>
    ensures { IfOk result (λ new. new ≡ without_ends_in links.now plain.now) }
{
    let old = plain.table.get();
    if !old.has_link_of(links) {
        return Ok(plain.duplicate(alloc)?);
    }
    let new = old.without_links(alloc, links)?;
    Ok(PlainTable {
        table: Shared::new(alloc, new)?,
        rows: plain.rows.duplicate(alloc)?,
    })
}
