// The tables of a base after an operation.
ghost use Rattle.std.specs.Prelude.{◌≡◌, ◌≤◌, ◌⊎◌, ◌+◌, ◌++◌, None, filter, length, IfOk, []};
ghost use Rattle.sea_schema.specs.Tables.{table_of, with_view as with_view_of};
ghost use Rattle.sea_text.specs.Named.{listed};
ghost use Rattle.sea_operation.specs.Apply.{table_after as table_after_of, columns_named as columns_named_of, rows_after as rows_after_of, plain_after as plain_after_of, named_after as named_after_of, has_other_name as has_other_name_of, with_column_in, links_gone as links_gone_of, tables_after as tables_after_of};
ghost use Rattle.sea_operation.specs.Refusal.{new_rows as new_rows_of, numbers_spent};
ghost use Rattle.sea_operation.specs.Schemas.{bare_tables};
ghost use Rattle.sea_operation.specs.Seen.{seen_of};
ghost use Rattle.sea_operation.specs.Viewed.{view_of as view_for};

use crate::changed::{rows_after_changes, rows_without, rows_without_column};
use crate::ends::{with_link, without_ends};
use sea_cell::{ColKey, Columns, Duplicate, Moment, NewColumn, Rows, Shared, TableNo, Text};
use sea_operation::{NewView, Op, Plain, PlainTable, PlainTables, table_name, view_of};
use sea_refusal::columns_in;
use sea_schema::Table;
use sqlite_items::Items;
use std::alloc::{AllocError, Global};

/// The columns of the table that the operation names, where there is one.
pub fn columns_named<'a>(base: &'a Plain, op: &Op) -> Option<&'a Columns>
    ensures { listed result ≡ columns_named_of base.now op.now }
{
    columns_in(base, table_name(op).as_str())
}

/// The tables after an operation, with which these links go and which makes these rows.
pub fn tables_after(
    alloc: Global,
    base: &Plain,
    moment: Moment,
    op: &Op,
    links: &[u32],
    new: &Rows,
) -> Result<PlainTables, AllocError>
    requires room { numbers_spent (seen_of base.now) op.now ≡ None }
    requires links { links.now ≡ links_gone_of (bare_tables base.now) op.now }
    requires new { new.now ≡ new_rows_of (seen_of base.now) moment op.now }
    ensures { IfOk result (λ tables. tables ≡ tables_after_of base.now moment op.now) }
{
    match op {
        Op::InsertTable { table, columns } => {
            let mut tables = base.tables.duplicate(alloc)?;
            let number = base.next_table;
            let key = base.next_column;
            let new = new_table(alloc, number, key, table.as_str(), columns.as_slice())?;
            tables.push(new)?;
            Ok(tables)
        }
        Op::DeleteTable { table } => {
            let kept = tables_without(alloc, base.tables.as_slice(), table.as_str())?;
            without_ends(alloc, kept.as_slice(), links)
        }
        Op::InsertColumn { table, column } => {
            with_column(alloc, base, moment, op, table, column, new)
        }
        Op::DeleteColumn {
            table: _,
            column: _,
        } => {
            let tables = named_after(alloc, base, moment, op, new)?;
            without_ends(alloc, tables.as_slice(), links)
        }
        _ => named_after(alloc, base, moment, op, new),
    }
}

// The tables with a new column, as a link column where it is to have another side.
fn with_column(
    alloc: Global,
    base: &Plain,
    moment: Moment,
    op: &Op,
    table: &Text,
    column: &NewColumn,
    new: &Rows,
) -> Result<PlainTables, AllocError>
    requires room { numbers_spent (seen_of base.now) op.now ≡ None }
    requires op { op.now ≡ Op.InsertColumn table.now column.now }
    requires new { new.now ≡ new_rows_of (seen_of base.now) moment op.now }
    ensures { IfOk result (λ tables. tables ≡ with_column_in column.now.other base.now moment table.now column.now) }
{
    match &column.other {
        Some(other) => with_link(alloc, base, table.as_str(), column.name.as_str(), other),
        None => named_after(alloc, base, moment, op, new),
    }
}

// A new table, without rows.
fn new_table(
    alloc: Global,
    number: u32,
    key: u32,
    name: &str,
    columns: &[NewColumn],
) -> Result<PlainTable, AllocError>
    requires { (length columns.now ≤ 0) ⊎ (key + length columns.now ≤ 4294967295) }
    ensures { IfOk result (λ new. new ≡ record { table = table_of number key name.now columns.now; rows = [] }) }
{
    let table = Table::new(alloc, TableNo(number), key, name, columns)?;
    Ok(PlainTable {
        table: Shared::new(alloc, table)?,
        rows: Shared::new(alloc, Items::new(alloc))?,
    })
}

// The tables without the one of a name.
fn tables_without(
    alloc: Global,
    tables: &[PlainTable],
    name: &str,
) -> Result<PlainTables, AllocError>
    ensures { IfOk result (λ kept. kept ≡ filter (has_other_name_of name.now) tables.now) }
{
    let mut kept = Items::new(alloc);
    for plain in tables {
        if has_other_name(plain, name) {
            kept.push(plain.duplicate(alloc)?)?;
        }
    }
    Ok(kept)
}

// The table has another name.
fn has_other_name(plain: &PlainTable, name: &str) -> bool
    ensures { result ≡ has_other_name_of name.now plain.now }
{
    plain.table.get().name.as_str() != name
}

// The tables, of which the one that the operation names is changed. The others are shared.
fn named_after(
    alloc: Global,
    base: &Plain,
    moment: Moment,
    op: &Op,
    new: &Rows,
) -> Result<PlainTables, AllocError>
    requires { new.now ≡ new_rows_of (seen_of base.now) moment op.now }
    ensures { IfOk result (λ tables. tables ≡ named_after_of base.now moment op.now) }
{
    let mut tables = Items::new(alloc);
    for plain in base.tables.as_slice() {
        tables.push(plain_after(alloc, base, moment, op, new, plain)?)?;
    }
    Ok(tables)
}

// A table, after the operation if it is the one that the operation names.
fn plain_after(
    alloc: Global,
    base: &Plain,
    moment: Moment,
    op: &Op,
    new: &Rows,
    plain: &PlainTable,
) -> Result<PlainTable, AllocError>
    requires { new.now ≡ new_rows_of (seen_of base.now) moment op.now }
    ensures { IfOk result (λ new. new ≡ plain_after_of base.now moment op.now plain.now) }
{
    if plain.table.get().name.as_str() != table_name(op).as_str() {
        return Ok(plain.duplicate(alloc)?);
    }
    Ok(PlainTable {
        table: table_after(alloc, base, op, &plain.table)?,
        rows: rows_after(alloc, moment, op, new, plain)?,
    })
}

// The operation's table without its rows.
fn table_after(
    alloc: Global,
    base: &Plain,
    op: &Op,
    table: &Shared<Table>,
) -> Result<Shared<Table>, AllocError>
    ensures { IfOk result (λ new. new ≡ table_after_of base.now.next_column (columns_named_of base.now op.now) op.now table.now) }
{
    let old = table.get();
    let columns = columns_named(base, op);
    match op {
        Op::RenameTable { table: _, to } => share(alloc, old.with_name(alloc, to.as_str())?),
        Op::InsertColumn { table: _, column } => {
            share(
                alloc,
                old.with_column(alloc, ColKey(base.next_column), column)?,
            )
        }
        Op::RenameColumn {
            table: _,
            column,
            to,
        } => share(
            alloc,
            old.with_column_name(alloc, column.as_str(), to.as_str())?,
        ),
        Op::DeleteColumn { table: _, column } => {
            share(alloc, old.without_column(alloc, column.as_str())?)
        }
        Op::AddOptions {
            table: _,
            column,
            options,
        } => share(alloc, old.with_options(alloc, column.as_str(), options)?),
        Op::InsertView { table: _, view } => with_view(alloc, columns, old, view),
        Op::ModifyView { table: _, view } => with_view(alloc, columns, old, view),
        Op::DeleteView { table: _, view } => share(alloc, old.without_view(alloc, view.as_str())?),
        _ => table.duplicate(alloc),
    }
}

// A table with a view, whose filters are about these columns.
fn with_view(
    alloc: Global,
    columns: Option<&Columns>,
    table: &Table,
    view: &NewView,
) -> Result<Shared<Table>, AllocError>
    ensures { IfOk result (λ new. new ≡ with_view_of (view_for (listed columns.entry) view.now) table.now) }
{
    let made = view_of(alloc, columns, view)?;
    share(alloc, table.with_view(alloc, &made)?)
}

// A value with its first owner.
fn share<T: Drop>(alloc: Global, value: T) -> Result<Shared<T>, AllocError>
    ensures { IfOk result (λ it. it ≡ value) }
{
    Shared::new(alloc, value)
}

// The rows of the operation's table, where it makes new ones.
fn rows_after(
    alloc: Global,
    moment: Moment,
    op: &Op,
    new: &Rows,
    plain: &PlainTable,
) -> Result<Shared<Rows>, AllocError>
    ensures { IfOk result (λ rows. rows ≡ rows_after_of moment new.now op.now plain.now.table plain.now.rows) }
{
    let columns = Some(&plain.table.get().columns);
    let rows = plain.rows.get();
    match op {
        Op::DeleteColumn { table: _, column } => {
            let table = plain.table.get();
            share(
                alloc,
                rows_without_column(alloc, table, column.as_str(), rows.as_slice())?,
            )
        }
        Op::AppendRows { table: _, rows: _ } => share(alloc, rows_with(alloc, rows, new)?),
        Op::ModifyRows {
            table: _,
            rows: changes,
        } => {
            let changes = changes.as_slice();
            share(
                alloc,
                rows_after_changes(alloc, columns, moment, changes, rows.as_slice())?,
            )
        }
        Op::DeleteRows { table: _, ids } => {
            share(alloc, rows_without(alloc, ids.as_slice(), rows.as_slice())?)
        }
        _ => plain.rows.duplicate(alloc),
    }
}

// Rows with more of them at the end.
fn rows_with(alloc: Global, rows: &Rows, more: &Rows) -> Result<Rows, AllocError>
    ensures { IfOk result (λ all. all ≡ rows.now ++ more.now) }
{
    let mut all = rows.duplicate(alloc)?;
    all.append(more.duplicate(alloc)?)?;
    Ok(all)
}
