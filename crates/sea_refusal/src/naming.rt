// New names: whether each is one, and whether none is in use.
ghost use Rattle.std.specs.Prelude.{[], option_map, option_and_then, map};
ghost use Rattle.sea_text.specs.Named.{listed};
ghost use Rattle.sea_operation.specs.Checks.{Checks};
ghost use Rattle.sea_operation.specs.Names.{first_repeat as first_repeat_of};
ghost use Rattle.sea_operation.specs.Refusal.{bad_text, bad_id, bad_option as bad_option_in, bad_column as bad_column_in, bad_other as bad_other_in, taken_other, bad_name as bad_name_in, unused, taken_table, taken_column, name_taken as name_taken_in, first_at};

use crate::columns::columns_in;
use crate::viewing::{view_taken, views_in};
use sea_cell::{Columns, Duplicate, NewColumn, NewEnd, Text};
use sea_operation::{
    Op, OpRefusal, OpRow, SeenBase, column_named, first_repeat, is_id, is_name, is_option,
};
use std::alloc::Global;
use std::collections::BTreeSet;

/// Each new name is one, and so is each new option and each given id.
pub fn bad_name(alloc: Global, op: &Op) -> Result<(), OpRefusal>
    ensures { Checks result (bad_name_in op.now) }
{
    match op {
        Op::InsertTable { table, columns } => {
            bad_columns(alloc, columns.as_slice())?;
            names_something(alloc, table)?;
            Ok(())
        }
        Op::RenameTable { table: _, to } => names_something(alloc, to),
        Op::InsertColumn { table: _, column } => bad_column(alloc, column),
        Op::RenameColumn {
            table: _,
            column: _,
            to,
        } => names_something(alloc, to),
        Op::AddOptions {
            table: _,
            column: _,
            options,
        } => bad_options(alloc, options.as_slice()),
        Op::AppendRows { table: _, rows } => bad_row_id(alloc, rows.as_slice()),
        Op::InsertView { table: _, view } => names_something(alloc, &view.name),
        _ => Ok(()),
    }
}

fn bad_columns(alloc: Global, columns: &[NewColumn]) -> Result<(), OpRefusal>
    ensures { Checks result (first_at bad_column_in columns.now) }
{
    for column in columns {
        bad_column(alloc, column)?;
    }
    Ok(())
}

fn bad_column(alloc: Global, column: &NewColumn) -> Result<(), OpRefusal>
    ensures { Checks result (bad_column_in column.now) }
{
    names_something(alloc, &column.name)?;
    bad_options(alloc, column.options.as_slice())?;
    bad_other(alloc, &column.other)?;
    Ok(())
}

// The name of a new link's other side.
fn bad_other(alloc: Global, other: &Option<NewEnd>) -> Result<(), OpRefusal>
    ensures { Checks result (bad_other_in other.now) }
{
    match other {
        Some(other) => names_something(alloc, &other.name),
        None => Ok(()),
    }
}

fn bad_options(alloc: Global, options: &[Text]) -> Result<(), OpRefusal>
    ensures { Checks result (first_at bad_option_in options.now) }
{
    for option in options {
        bad_option(alloc, option)?;
    }
    Ok(())
}

fn bad_option(alloc: Global, option: &Text) -> Result<(), OpRefusal>
    ensures { Checks result (bad_option_in option.now) }
{
    if is_option(option.as_str()) {
        return Ok(());
    }
    Err(OpRefusal::BadName {
        name: option.duplicate(alloc)?,
    })
}

fn names_something(alloc: Global, name: &Text) -> Result<(), OpRefusal>
    ensures { Checks result (bad_text name.now) }
{
    if is_name(name.as_str()) {
        return Ok(());
    }
    Err(OpRefusal::BadName {
        name: name.duplicate(alloc)?,
    })
}

fn bad_row_id(alloc: Global, rows: &[OpRow]) -> Result<(), OpRefusal>
    ensures { Checks result (first_at (λ row. option_and_then bad_id row.id) rows.now) }
{
    for row in rows {
        given_id(alloc, row)?;
    }
    Ok(())
}

fn given_id(alloc: Global, row: &OpRow) -> Result<(), OpRefusal>
    ensures { Checks result (option_and_then bad_id row.now.id) }
{
    let Some(id) = &row.id else {
        return Ok(());
    };
    if is_id(id.as_str()) {
        return Ok(());
    }
    Err(OpRefusal::BadName {
        name: id.duplicate(alloc)?,
    })
}

/// No new name is in use, or stands twice.
pub fn name_taken<S: SeenBase>(alloc: Global, op: &Op, seen: &S) -> Result<(), OpRefusal>
    ensures { Checks result (name_taken_in (S.seen seen.now) op.now) }
{
    match op {
        Op::InsertTable { table, columns } => {
            name_twice(alloc, columns.as_slice())?;
            table_taken(alloc, table, seen)?;
            Ok(())
        }
        Op::RenameTable { table: _, to } => table_taken(alloc, to, seen),
        Op::InsertColumn { table, column } => {
            column_taken(alloc, columns_in(seen, table.as_str()), &column.name)?;
            other_taken(alloc, &column.other, seen)?;
            Ok(())
        }
        Op::RenameColumn {
            table,
            column: _,
            to,
        } => column_taken(alloc, columns_in(seen, table.as_str()), to),
        Op::InsertView { table, view } => {
            view_taken(alloc, views_in(seen, table.as_str()), &view.name)
        }
        _ => Ok(()),
    }
}

// The name of a new link's other side isn't in use in its table.
fn other_taken<S: SeenBase>(
    alloc: Global,
    other: &Option<NewEnd>,
    seen: &S,
) -> Result<(), OpRefusal>
    ensures { Checks result (taken_other (S.seen seen.now) other.now) }
{
    match other {
        Some(other) => column_taken(alloc, columns_in(seen, other.table.as_str()), &other.name),
        None => Ok(()),
    }
}

// No two new columns have one name.
fn name_twice(alloc: Global, columns: &[NewColumn]) -> Result<(), OpRefusal>
    ensures { Checks result (option_map OpRefusal.NameTaken (first_repeat_of unused [] (map (λ column. column.name) columns.now))) }
{
    match first_repeat(alloc, &BTreeSet::new(alloc), columns)? {
        Some(name) => Err(OpRefusal::NameTaken { name }),
        None => Ok(()),
    }
}

fn table_taken<S: SeenBase>(alloc: Global, name: &Text, seen: &S) -> Result<(), OpRefusal>
    ensures { Checks result (taken_table (S.seen seen.now) name.now) }
{
    if seen.table(name.as_str()).is_none() {
        return Ok(());
    }
    Err(OpRefusal::NameTaken {
        name: name.duplicate(alloc)?,
    })
}

fn column_taken(alloc: Global, columns: Option<&Columns>, name: &Text) -> Result<(), OpRefusal>
    ensures { Checks result (taken_column (listed columns.entry) name.now) }
{
    if column_named(columns, name.as_str()).is_none() {
        return Ok(());
    }
    Err(OpRefusal::NameTaken {
        name: name.duplicate(alloc)?,
    })
}
