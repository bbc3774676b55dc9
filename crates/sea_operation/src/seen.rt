// What a check of an operation looks at.
ghost use Rattle.std.specs.Prelude.{◌≡◌, ◌&&◌, ◌||◌, ◌==◌, ℕ, List, length, map, IfOk, OnOk};
ghost use Rattle.std.specs.BTreeSet.{contains_text};
ghost use Rattle.std.specs.List.{list_any};
ghost use Rattle.std.specs.Option.{option_copied};
ghost use Rattle.std.specs.Str.{bytes_eq};
ghost use Rattle.sea_links.specs.Pairs.{has_pair as has_pair_of};
ghost use Rattle.sea_schema.specs.Tables.{table_named};
ghost use Rattle.sea_operation.specs.Seen.{Seen, has_row, seen_of};

use crate::base::{Plain, PlainTable};
use crate::lookup::plain_named;
use crate::names::set_of;
use sea_cell::{Row, RowId, Shared, TableNo, insert_text};
use sea_links::{LinkPair, is_pair};
use sea_schema::Table;
use std::alloc::{AllocError, Global};
use std::collections::BTreeSet;

/// The numbers of a base: how many operations it has taken, and the next row number, table number, column key and link
/// number.
#[derive(Clone, Copy)]
pub struct Counters {
    pub version: u64,
    pub row: u64,
    pub table: u32,
    pub column: u32,
    pub link: u32,
}

/// A base, as far as the refusals of an operation depend on it.
pub trait SeenBase {
    /// What is seen of the base.
    ghost seen: { Self → Seen };

    /// The numbers.
    fn counters(&self) -> Counters
        ensures { result ≡ (seen self.now).counters };

    /// How many tables there are.
    fn table_count(&self) -> usize
        ensures { result ≡ length (seen self.now).tables };

    /// The table of a name, where there is one.
    fn table(&self, name: &str) -> Option<&Table>
        ensures { option_copied result ≡ table_named (seen self.now).tables name.now };

    /// Whether a row of the table of this number has the id.
    fn has(&self, table: TableNo, id: &RowId) -> bool
        ensures { result ≡ (seen self.now).has table id.now.0 };

    /// Those of the ids that rows of the table of this number have.
    fn which(
        &self,
        alloc: Global,
        table: TableNo,
        ids: &[RowId],
    ) -> Result<BTreeSet<String>, AllocError>
        ensures { IfOk result (λ found. (id : List ℕ) → contains_text found id ≡ list_any (λ one. bytes_eq one.0 id && (seen self.now).has table one.0) ids.now) };

    /// How many pairs of linked rows there are.
    fn pair_count(&self) -> usize
        ensures { result ≡ (seen self.now).pair_count };

    /// Whether the link joins these rows, the first one on its first side.
    fn linked(&self, link: u32, first: &RowId, second: &RowId) -> bool
        ensures { result ≡ (seen self.now).linked link first.now.0 second.now.0 };
}

impl SeenBase for Plain {
    ghost seen = { seen_of };

    fn counters(&self) -> Counters {
        Counters {
            version: self.version,
            row: self.next_row,
            table: self.next_table,
            column: self.next_column,
            link: self.next_link,
        }
    }

    fn table_count(&self) -> usize {
        self.tables.len()
    }

    fn table(&self, name: &str) -> Option<&Table> {
        table_in(self.tables.as_slice(), name)
    }

    fn has(&self, table: TableNo, id: &RowId) -> bool {
        any_table_has(self.tables.as_slice(), table, id.0.as_str())
    }

    fn which(
        &self,
        alloc: Global,
        table: TableNo,
        ids: &[RowId],
    ) -> Result<BTreeSet<String>, AllocError> {
        which_of_base(alloc, self.tables.as_slice(), table, ids)
    }

    fn pair_count(&self) -> usize {
        self.pairs.len()
    }

    fn linked(&self, link: u32, first: &RowId, second: &RowId) -> bool {
        has_pair(self.pairs.as_slice(), link, first, second)
    }
}

// One of the pairs is of this link and joins these rows.
fn has_pair(pairs: &[Shared<LinkPair>], link: u32, first: &RowId, second: &RowId) -> bool
    ensures { result ≡ has_pair_of pairs.now link first.now second.now }
{
    pairs
        .iter()
        .any(|pair| is_pair(link, first, second, pair.get()))
}

// The table of a name.
#[tactic(auto, using(crate::proofs::Found::found_without_rows))]
fn table_in<'a>(tables: &'a [PlainTable], name: &str) -> Option<&'a Table>
    ensures { option_copied result ≡ table_named (map (λ plain. plain.table) tables.now) name.now }
{
    match plain_named(tables, name) {
        Some(plain) => Some(plain.table.get()),
        None => None,
    }
}

// A row of the table of this number has the id.
fn any_table_has(tables: &[PlainTable], no: TableNo, id: &str) -> bool
    ensures { result ≡ has_row tables.now no id.now }
{
    tables.iter().any(|plain| table_has(plain, no, id))
}

// The table has this number, and one of its rows has the id.
fn table_has(plain: &PlainTable, no: TableNo, id: &str) -> bool
    ensures { result ≡ ((plain.now.table.no.0 == no.0) && list_any (λ row. bytes_eq row.id.0 id.now) plain.now.rows) }
{
    plain.table.get().no.0 == no.0 && any_row_has(plain.rows.get().as_slice(), id)
}

// One of the rows has the id.
fn any_row_has(rows: &[Shared<Row>], id: &str) -> bool
    ensures { result ≡ list_any (λ row. bytes_eq row.id.0 id.now) rows.now }
{
    rows.iter().any(|row| is_id_of(row.get(), id))
}

// The row has the id.
fn is_id_of(row: &Row, id: &str) -> bool
    ensures { result ≡ bytes_eq row.now.id.0 id.now }
{
    row.id.0.as_str() == id
}

// Those of the ids that rows of the table of this number have. It walks the rows once.
fn which_of_base(
    alloc: Global,
    tables: &[PlainTable],
    no: TableNo,
    ids: &[RowId],
) -> Result<BTreeSet<String>, AllocError>
    ensures { IfOk result (λ found. (id : List ℕ) → contains_text found id ≡ list_any (λ one. bytes_eq one.0 id && has_row tables.now no one.0) ids.now) }
{
    let wanted = set_of(alloc, ids)?;
    which_of_tables(alloc, tables, no, &wanted)
}

// The same, where the ids are a set.
fn which_of_tables(
    alloc: Global,
    tables: &[PlainTable],
    no: TableNo,
    ids: &BTreeSet<String>,
) -> Result<BTreeSet<String>, AllocError>
    ensures { IfOk result (λ found. (id : List ℕ) → contains_text found id ≡ (contains_text ids.now id && has_row tables.now no id)) }
{
    let mut found = BTreeSet::new(alloc);
    for plain in tables {
        add_of_table(alloc, &mut found, plain, no, ids)?;
    }
    Ok(found)
}

// Adds those of the ids that rows of the table have, if it has this number.
fn add_of_table(
    alloc: Global,
    found: &mut BTreeSet<String>,
    plain: &PlainTable,
    no: TableNo,
    ids: &BTreeSet<String>,
) -> Result<(), AllocError>
    ensures { OnOk result ((id : List ℕ) → contains_text found.new id ≡ (contains_text found.old id || (contains_text ids.now id && ((plain.now.table.no.0 == no.0) && list_any (λ row. bytes_eq row.id.0 id) plain.now.rows)))) }
{
    if plain.table.get().no.0 != no.0 {
        return Ok(());
    }
    add_of_rows(alloc, found, plain.rows.get().as_slice(), ids)?;
    Ok(())
}

// Adds those of the ids that the rows have.
fn add_of_rows(
    alloc: Global,
    found: &mut BTreeSet<String>,
    rows: &[Shared<Row>],
    ids: &BTreeSet<String>,
) -> Result<(), AllocError>
    ensures { OnOk result ((id : List ℕ) → contains_text found.new id ≡ (contains_text found.old id || (contains_text ids.now id && list_any (λ row. bytes_eq row.id.0 id) rows.now))) }
{
    for row in rows {
        add_of_row(alloc, found, row.get(), ids)?;
    }
    Ok(())
}

// Adds the row's id, if it is one of the ids.
fn add_of_row(
    alloc: Global,
    found: &mut BTreeSet<String>,
    row: &Row,
    ids: &BTreeSet<String>,
) -> Result<(), AllocError>
    ensures { OnOk result ((id : List ℕ) → contains_text found.new id ≡ (contains_text found.old id || (contains_text ids.now id && bytes_eq row.now.id.0 id))) }
{
    let id = row.id.0.as_str();
    if ids.contains(id) {
        insert_text(alloc, found, id)?;
    }
    Ok(())
}
