// The tables of a base as readers see them.
ghost use Rattle.std.specs.Prelude.{◌≡◌, fold, map, is_some, IfOk, OnOk};
ghost use Rattle.std.specs.List.{list_any};
ghost use Rattle.sea_links.specs.Pairs.{others_of as others_of_row};
ghost use Rattle.sea_plain.specs.Linked.{links_cell as links_cell_of, with_linked as with_linked_of, with_links as with_links_of, row_shown as row_shown_of, table_shown as table_shown_of, tables_of as tables_of_base};

use sea_cell::{
    CellValue, Cells, Column, Columns, Duplicate, Ids, LinkEnd, Row, RowId, Rows, Shared, TableNo,
    Text,
};
use sea_links::{LinkPair, is_of, side};
use sea_operation::{Plain, PlainTable};
use sqlite_items::Items;
use std::alloc::{AllocError, Global};

/// A table and its rows, in order of row number. The cells of link columns are filled in.
#[derive(Drop)]
pub struct TableRows {
    pub no: TableNo,
    pub name: Text,
    pub columns: Columns,
    pub rows: Rows,
}

/// Tables and their rows, in order of table number.
pub type Tables = Items<TableRows>;

/// The tables of a base and their rows. The cells of link columns are filled in from the pairs of linked rows, in the
/// order in which these were added; a row that is linked to none has an empty cell there.
pub fn tables_of(alloc: Global, base: &Plain) -> Result<Tables, AllocError>
    ensures { IfOk result (λ tables. tables ≡ tables_of_base base.now) }
{
    let mut tables = Items::new(alloc);
    for plain in base.tables.as_slice() {
        tables.push(table_shown(alloc, base.pairs.as_slice(), plain)?)?;
    }
    Ok(tables)
}

// A table and its rows.
fn table_shown(
    alloc: Global,
    pairs: &[Shared<LinkPair>],
    plain: &PlainTable,
) -> Result<TableRows, AllocError>
    ensures { IfOk result (λ shown. shown ≡ table_shown_of pairs.now plain.now) }
{
    let table = plain.table.get();
    let rows = plain.rows.get().as_slice();
    Ok(TableRows {
        no: table.no,
        name: table.name.duplicate(alloc)?,
        columns: table.columns.duplicate(alloc)?,
        rows: rows_shown(alloc, pairs, table.columns.as_slice(), rows)?,
    })
}

/// Rows of a table with these columns, with the cells of its link columns. Where it has none, the rows are shared.
pub fn rows_shown(
    alloc: Global,
    pairs: &[Shared<LinkPair>],
    columns: &[Column],
    rows: &[Shared<Row>],
) -> Result<Rows, AllocError>
    ensures { IfOk result (λ shown. shown ≡ map (row_shown_of pairs.now columns.now) rows.now) }
{
    let mut shown = Items::new(alloc);
    for row in rows {
        shown.push(row_shown(alloc, pairs, columns, row)?)?;
    }
    Ok(shown)
}

// A row with the cells of its table's link columns.
#[tactic(auto, using(crate::proofs::Linkless::same_cells))]
fn row_shown(
    alloc: Global,
    pairs: &[Shared<LinkPair>],
    columns: &[Column],
    row: &Shared<Row>,
) -> Result<Shared<Row>, AllocError>
    ensures { IfOk result (λ shown. shown ≡ row_shown_of pairs.now columns.now row.now) }
{
    if !has_end(columns) {
        return row.duplicate(alloc);
    }
    Shared::new(alloc, row_with_links(alloc, pairs, columns, row.get())?)
}

// One of the columns is a link column.
fn has_end(columns: &[Column]) -> bool
    ensures { result ≡ list_any (λ column. is_some column.other) columns.now }
{
    columns.iter().any(|column| column.other.is_some())
}

fn row_with_links(
    alloc: Global,
    pairs: &[Shared<LinkPair>],
    columns: &[Column],
    row: &Row,
) -> Result<Row, AllocError>
    ensures { IfOk result (λ shown. shown ≡ row_shown_of pairs.now columns.now row.now) }
{
    let mut new = row.duplicate(alloc)?;
    put_links(alloc, pairs, columns, &row.id, &mut new.cells)?;
    Ok(new)
}

// Puts the cells of link columns.
fn put_links(
    alloc: Global,
    pairs: &[Shared<LinkPair>],
    columns: &[Column],
    id: &RowId,
    cells: &mut Cells,
) -> Result<(), AllocError>
    ensures { OnOk result (cells.new ≡ fold (with_links_of pairs.now id.now) cells.old columns.now) }
{
    for column in columns {
        put_links_of(alloc, pairs, column, id, cells)?;
    }
    Ok(())
}

// Puts the cell of a column, if it is a link column.
fn put_links_of(
    alloc: Global,
    pairs: &[Shared<LinkPair>],
    column: &Column,
    id: &RowId,
    cells: &mut Cells,
) -> Result<(), AllocError>
    ensures { OnOk result (cells.new ≡ with_links_of pairs.now id.now cells.old column.now) }
{
    match column.other {
        Some(end) => put_linked(alloc, pairs, column, id, end, cells),
        None => Ok(()),
    }
}

fn put_linked(
    alloc: Global,
    pairs: &[Shared<LinkPair>],
    column: &Column,
    id: &RowId,
    end: LinkEnd,
    cells: &mut Cells,
) -> Result<(), AllocError>
    ensures { OnOk result (cells.new ≡ with_linked_of pairs.now id.now cells.old column.now end) }
{
    let others = others_of(alloc, pairs, end.link, end.first, id)?;
    cells.set(column.key, links_cell(others))?;
    Ok(())
}

// Linked rows as a cell.
fn links_cell(ids: Ids) -> CellValue
    ensures { result ≡ links_cell_of ids }
{
    if ids.is_empty() {
        return CellValue::Empty;
    }
    CellValue::Links(ids)
}

// The rows that a link joins to a row on this side.
fn others_of(
    alloc: Global,
    pairs: &[Shared<LinkPair>],
    link: u32,
    first: bool,
    id: &RowId,
) -> Result<Ids, AllocError>
    ensures { IfOk result (λ others. others ≡ others_of_row link first id.now pairs.now) }
{
    let mut others = Ids::new(alloc);
    for pair in pairs {
        if is_of(link, first, id, pair.get()) {
            others.push(side(!first, pair.get()).duplicate(alloc)?)?;
        }
    }
    Ok(others)
}
