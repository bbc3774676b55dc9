// Rows and their cells.
ghost use Rattle.std.specs.Prelude.{◌≡◌, [], unwrap_or, IfOk, IfErr, OnOk, OnErr};
ghost use Rattle.std.specs.Option.{option_copied};
ghost use Rattle.sea_cell.specs.Cells.{IsCells, IsRising, cell_under, with_cell, cell_in as cell_in_row, IsAt, IsGap};
ghost use Rattle.sea_cell.specs.declared.values.CellValue.TheVariants.{Empty};

use crate::column::{ColKind, Column};
use crate::keys::{ColKey, Moment, RowId};
use crate::values::CellValue;
use sea_text::{Duplicate, Shared, copies_of};
use sqlite_items::Items;
use std::alloc::{AllocError, Global};
use std::marker::Model;

/// The value that a row has under the key of a column.
#[derive(Drop)]
pub struct Cell {
    pub key: ColKey,
    pub value: CellValue,
}

/// The cells of a row: a finite map from column key to value, seen by contracts as the list of its cells by rising
/// key. No value in it is Empty.
#[derive(Drop)]
pub struct Cells {
    cells: Vec<Cell>,
}

impl Model for Cells {
    ghost use Rattle.std.specs.Prelude.{List};
    ghost use Rattle.sea_cell.specs.declared.row.Cell.{Cell};

    ghost Value = { List Cell };

    ghost use Rattle.sea_cell.specs.Cells.{IsCells};

    ghost view = { λ it. it.cells.items };

    ghost invariant = { λ it. IsCells it.cells.items };
}

/// A row of a table: its id, its number, when it was made and last changed, and its cells.
#[derive(Drop)]
pub struct Row {
    pub id: RowId,
    pub number: u64,
    pub made: Moment,
    pub changed: Moment,
    pub cells: Cells,
}

/// A list of rows. Its copies share them.
pub type Rows = Items<Shared<Row>>;

impl Cells {
    /// No cells.
    pub fn new(alloc: Global) -> Cells
        ensures { result ≡ [] }
    {
        Cells {
            cells: Vec::new(alloc),
        }
    }

    /// The cells by rising key.
    pub fn as_slice(&self) -> &[Cell]
        ensures all { result.now ≡ self.now }
        ensures cells { IsCells self.now }
    {
        &self.cells
    }

    /// The value under a key, where there is one.
    pub fn get(&self, key: ColKey) -> Option<&CellValue>
        ensures { option_copied result ≡ cell_under self.now key }
    {
        find(&self.cells, key)
    }

    /// Puts a value under a key, in the place of what stood there. Empty removes it.
    pub fn set(&mut self, key: ColKey, value: CellValue) -> Result<(), AllocError>
        ensures ok { OnOk result (self.new ≡ with_cell self.old key value) }
        ensures err { OnErr result (self.new ≡ self.old) }
    {
        put(&mut self.cells, key, value)
    }
}

/// The cell of a row under a column. That of a ctime or mtime column is when the row was made or last changed.
pub fn cell_in(alloc: Global, row: &Row, column: &Column) -> Result<CellValue, AllocError>
    ensures { IfOk result (λ value. value ≡ cell_in_row row.now column.now) }
{
    match column.kind {
        ColKind::Made => Ok(CellValue::Moment(row.made)),
        ColKind::Changed => Ok(CellValue::Moment(row.changed)),
        _ => stored_in(alloc, row, column.key),
    }
}

// What a row stores under a key.
fn stored_in(alloc: Global, row: &Row, key: ColKey) -> Result<CellValue, AllocError>
    ensures { IfOk result (λ value. value ≡ unwrap_or (cell_under row.now.cells key) Empty) }
{
    match row.cells.get(key) {
        Some(value) => Ok(value.duplicate(alloc)?),
        None => Ok(CellValue::Empty),
    }
}

// Where a key is, or where it would go.
fn search(cells: &[Cell], key: ColKey) -> Result<usize, usize>
    requires { IsRising cells.now }
    ensures found { IfOk result (IsAt cells.now key) }
    ensures absent { IfErr result (IsGap cells.now key) }
{
    cells.binary_search_by_key(&key.0, |cell| cell.key.0)
}

// The value under a key.
fn find(cells: &[Cell], key: ColKey) -> Option<&CellValue>
    requires { IsRising cells.now }
    ensures { option_copied result ≡ cell_under cells.now key }
{
    match search(cells, key) {
        Ok(at) => Some(&cells[at].value),
        Err(_) => None,
    }
}

// Puts a value under a key.
fn put(cells: &mut Vec<Cell>, key: ColKey, value: CellValue) -> Result<(), AllocError>
    requires { IsRising cells.old.items }
    ensures ok { OnOk result (cells.new.items ≡ with_cell cells.old.items key value) }
    ensures err { OnErr result (cells.new.items ≡ cells.old.items) }
{
    match search(cells, key) {
        Ok(at) => {
            put_at(cells, at, key, value);
            Ok(())
        }
        Err(at) => insert_at(cells, at, key, value),
    }
}

// Puts a value in the place of the one under its key.
fn put_at(cells: &mut Vec<Cell>, at: usize, key: ColKey, value: CellValue)
    requires rising { IsRising cells.old.items }
    requires place { IsAt cells.old.items key at }
    ensures { cells.new.items ≡ with_cell cells.old.items key value }
{
    if let CellValue::Empty = value {
        cells.remove(at);
        return;
    }
    cells[at] = Cell { key, value };
}

// Puts a value under a key that has none, at the place where it belongs.
fn insert_at(
    cells: &mut Vec<Cell>,
    at: usize,
    key: ColKey,
    value: CellValue,
) -> Result<(), AllocError>
    requires { IsGap cells.old.items key at }
    ensures ok { OnOk result (cells.new.items ≡ with_cell cells.old.items key value) }
    ensures err { OnErr result (cells.new.items ≡ cells.old.items) }
{
    if let CellValue::Empty = value {
        return Ok(());
    }
    cells.insert(at, Cell { key, value })?;
    Ok(())
}

impl Duplicate for Cell {
    fn duplicate(&self, alloc: Global) -> Result<Cell, AllocError> {
        Ok(Cell {
            key: self.key,
            value: self.value.duplicate(alloc)?,
        })
    }
}

impl Duplicate for Cells {
    fn duplicate(&self, alloc: Global) -> Result<Cells, AllocError> {
        Ok(Cells {
            cells: copies_of(alloc, &self.cells)?,
        })
    }
}

impl Duplicate for Row {
    fn duplicate(&self, alloc: Global) -> Result<Row, AllocError> {
        Ok(Row {
            id: self.id.duplicate(alloc)?,
            number: self.number,
            made: self.made,
            changed: self.changed,
            cells: self.cells.duplicate(alloc)?,
        })
    }
}
