// What an operation names and what it makes, by its form.
ghost use Rattle.std.specs.Prelude.{◌≡◌, List};
ghost use Rattle.sea_schema.specs.Layout.{keys_of_new as keys_of_new_end, links_of_new as links_of_new_end};
ghost use Rattle.sea_operation.specs.declared.operation.NamedCell.{NamedCell};
ghost use Rattle.sea_operation.specs.Makes.{table_name as table_name_of, columns_made as columns_made_of, links_made as links_made_of, tables_made as tables_made_of, rows_made as rows_made_of};

use crate::operation::{NamedCell, Op, OpRow, RowChange};
use sea_cell::{Named, NewEnd, Text};

/// The table that an operation names.
pub fn table_name(op: &Op) -> &Text
    ensures { result.now ≡ table_name_of op.now }
{
    match op {
        Op::InsertTable { table, columns: _ } => table,
        Op::RenameTable { table, to: _ } => table,
        Op::DeleteTable { table } => table,
        Op::InsertColumn { table, column: _ } => table,
        Op::RenameColumn {
            table,
            column: _,
            to: _,
        } => table,
        Op::DeleteColumn { table, column: _ } => table,
        Op::AddOptions {
            table,
            column: _,
            options: _,
        } => table,
        Op::AppendRows { table, rows: _ } => table,
        Op::ModifyRows { table, rows: _ } => table,
        Op::DeleteRows { table, ids: _ } => table,
        Op::AddLink {
            table,
            column: _,
            row: _,
            others: _,
        } => table,
        Op::RemoveLink {
            table,
            column: _,
            row: _,
            others: _,
        } => table,
        Op::InsertView { table, view: _ } => table,
        Op::ModifyView { table, view: _ } => table,
        Op::DeleteView { table, view: _ } => table,
    }
}

/// How many columns an operation makes.
pub fn columns_made(op: &Op) -> usize
    ensures { result ≡ columns_made_of op.now }
{
    match op {
        Op::InsertTable { table: _, columns } => columns.len(),
        Op::InsertColumn { table: _, column } => keys_of_new(&column.other),
        _ => 0,
    }
}

// How many columns a new column makes: a link column has another side.
fn keys_of_new(other: &Option<NewEnd>) -> usize
    ensures { result ≡ keys_of_new_end other.now }
{
    match other {
        Some(_) => 2,
        None => 1,
    }
}

/// How many links an operation makes.
pub fn links_made(op: &Op) -> u32
    ensures { result ≡ links_made_of op.now }
{
    match op {
        Op::InsertColumn { table: _, column } => links_of_new(&column.other),
        _ => 0,
    }
}

// How many links a new column makes.
fn links_of_new(other: &Option<NewEnd>) -> u32
    ensures { result ≡ links_of_new_end other.now }
{
    match other {
        Some(_) => 1,
        None => 0,
    }
}

/// How many tables an operation makes.
pub fn tables_made(op: &Op) -> u32
    ensures { result ≡ tables_made_of op.now }
{
    match op {
        Op::InsertTable {
            table: _,
            columns: _,
        } => 1,
        _ => 0,
    }
}

/// How many rows an operation makes.
pub fn rows_made(op: &Op) -> u64
    ensures { result ≡ rows_made_of op.now }
{
    match op {
        Op::AppendRows { table: _, rows } => rows.len() as u64,
        _ => 0,
    }
}

/// A row of an operation that writes cells.
pub trait WritesCells {
    /// The cells.
    ghost cells: { Self → List NamedCell };

    /// The cells, in byte order of their names.
    fn cells(&self) -> &[NamedCell]
        ensures { result.now ≡ cells self.now };
}

impl WritesCells for OpRow {
    ghost cells = { λ row. row.cells };

    fn cells(&self) -> &[NamedCell] {
        self.cells.as_slice()
    }
}

impl WritesCells for RowChange {
    ghost cells = { λ change. change.cells };

    fn cells(&self) -> &[NamedCell] {
        self.cells.as_slice()
    }
}

impl Named for RowChange {
    ghost name = { λ change. change.id.0 };

    fn name(&self) -> &str {
        self.id.0.as_str()
    }
}
