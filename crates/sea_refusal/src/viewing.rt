// The refusals of operations on views, but for the names of columns.
ghost use Rattle.std.specs.Prelude.{◌≡◌, None, Some, is_some, if◌then◌else◌, length, IfOk};
ghost use Rattle.sea_text.specs.Named.{listed};
ghost use Rattle.sea_operation.specs.Checks.{Checks};
ghost use Rattle.sea_operation.specs.Refusal.{missing_view as missing_view_in, no_view as no_view_in, taken_view, bad_filter_from, bad_filter as bad_filter_in};
ghost use Rattle.sea_operation.specs.Seen.{views_in as views_in_seen};
ghost use Rattle.sea_operation.specs.Viewed.{filter_of as filter_for};

use crate::columns::columns_in;
use sea_cell::{Columns, Duplicate, Text, Views, items_in, named_in};
use sea_operation::{NewFilter, Op, OpRefusal, SeenBase, filter_of};
use std::alloc::Global;

/// The views of the table of a name, where there is one.
pub fn views_in<'a, S: SeenBase>(seen: &'a S, name: &str) -> Option<&'a Views>
    ensures { listed result ≡ views_in_seen (S.seen seen.now) name.now }
{
    match seen.table(name) {
        Some(table) => Some(&table.views),
        None => None,
    }
}

/// How many views the table of a name has.
pub fn view_count<S: SeenBase>(seen: &S, name: &str) -> usize
    ensures { result ≡ length (views_in_seen (S.seen seen.now) name.now) }
{
    items_in(views_in(seen, name)).len()
}

/// The view that the operation names is there.
pub fn no_view<S: SeenBase>(alloc: Global, op: &Op, seen: &S) -> Result<(), OpRefusal>
    ensures { Checks result (no_view_in (S.seen seen.now) op.now) }
{
    match op {
        Op::ModifyView { table, view } => {
            is_view(alloc, views_in(seen, table.as_str()), &view.name)
        }
        Op::DeleteView { table, view } => is_view(alloc, views_in(seen, table.as_str()), view),
        _ => Ok(()),
    }
}

fn is_view(alloc: Global, views: Option<&Views>, name: &Text) -> Result<(), OpRefusal>
    ensures { Checks result (missing_view_in (listed views.entry) name.now) }
{
    if named_in(views, name.as_str()).is_some() {
        return Ok(());
    }
    Err(OpRefusal::NoView {
        name: name.duplicate(alloc)?,
    })
}

/// The name isn't that of a view.
pub fn view_taken(alloc: Global, views: Option<&Views>, name: &Text) -> Result<(), OpRefusal>
    ensures { Checks result (taken_view (listed views.entry) name.now) }
{
    if named_in(views, name.as_str()).is_none() {
        return Ok(());
    }
    Err(OpRefusal::NameTaken {
        name: name.duplicate(alloc)?,
    })
}

/// Each filter of a view fits its column.
pub fn bad_filter<S: SeenBase>(alloc: Global, op: &Op, seen: &S) -> Result<(), OpRefusal>
    ensures { Checks result (bad_filter_in (S.seen seen.now) op.now) }
{
    match op {
        Op::InsertView { table, view } => fit(
            alloc,
            columns_in(seen, table.as_str()),
            view.filters.as_slice(),
        ),
        Op::ModifyView { table, view } => fit(
            alloc,
            columns_in(seen, table.as_str()),
            view.filters.as_slice(),
        ),
        _ => Ok(()),
    }
}

fn fit(alloc: Global, columns: Option<&Columns>, filters: &[NewFilter]) -> Result<(), OpRefusal>
    ensures { Checks result (bad_filter_from 0 (listed columns.entry) filters.now) }
{
    let mut index = 0;
    for filter in filters {
        if filter_of(alloc, columns, filter)?.is_none() {
            return Err(OpRefusal::BadFilter { index });
        }
        index += 1;
    }
    Ok(())
}
