// Tables without their rows.
ghost use Rattle.std.specs.Prelude.{◌≡◌, ◌+◌, ◌<◌, ◌^◌, ◌++◌, ◌∷◌, [], map, filter, length, IfOk, OnOk};
ghost use Rattle.std.specs.Option.{option_copied};
ghost use Rattle.std.specs.List.{list_any};
ghost use Rattle.sea_text.specs.Distinct.{once};
ghost use Rattle.sea_schema.specs.Tables.{column_named as column_named_of, key_named, view_named, column_of as column_for, columns_of as columns_for, table_of, with_name, with_column, column_with_name, with_column_name, column_with_options, with_options, is_view as is_view_of, put_view, with_view, without_view, is_of_other as is_of_other_of, without_filters, without_column};

use sea_cell::{
    ColKey, Column, Columns, Duplicate, Filter, Filters, Indexed, Named, NewColumn, Shared,
    TableNo, Text, Texts, View, Views, without_repeats,
};
use sea_text::ChangeOf;
use sqlite_items::Items;
use std::alloc::{AllocError, Global};

/// A table without its rows: its number, its name, and its columns and views in the order in which they were added.
#[derive(Drop)]
pub struct Table {
    pub no: TableNo,
    pub name: Text,
    pub columns: Columns,
    pub views: Views,
}

/// Tables in order of number, which are found by name. Their copies share them.
pub type Tables = Indexed<Shared<Table>>;

impl Named for Table {
    ghost name = { λ table. table.name };

    fn name(&self) -> &str {
        self.name.as_str()
    }
}

// Another name for a column.
#[derive(Clone, Copy)]
struct NewName<'a> {
    to: &'a str,
}

impl<'a> ChangeOf<Column> for NewName<'a> {
    ghost changed = { λ change. column_with_name change.to.now };

    fn made_of(&self, alloc: Global, column: &Column) -> Result<Column, AllocError> {
        let mut new = column.duplicate(alloc)?;
        new.name = Text::copy_of(alloc, self.to)?;
        Ok(new)
    }
}

// More options for a column.
#[derive(Clone, Copy)]
struct MoreOptions<'a> {
    options: &'a Texts,
}

impl<'a> ChangeOf<Column> for MoreOptions<'a> {
    ghost changed = { λ change. column_with_options change.options.now };

    fn made_of(&self, alloc: Global, column: &Column) -> Result<Column, AllocError> {
        let mut new = column.duplicate(alloc)?;
        new.options = more_options(alloc, &column.options, self.options)?;
        Ok(new)
    }
}

// Another view in the place of one.
#[derive(Clone, Copy)]
struct InItsPlace<'a> {
    view: &'a View,
}

impl<'a> ChangeOf<View> for InItsPlace<'a> {
    ghost changed = { λ change old. change.view.now };

    fn made_of(&self, alloc: Global, _old: &View) -> Result<View, AllocError> {
        self.view.duplicate(alloc)
    }
}

impl Table {
    /// A new table without views, whose columns have their keys from `key` on. Repeats among the options of a column
    /// count once. No column is a link column.
    pub fn new(
        alloc: Global,
        no: TableNo,
        key: u32,
        name: &str,
        columns: &[NewColumn],
    ) -> Result<Table, AllocError>
        requires { key + length columns.now < 2 ^ 32 }
        ensures { IfOk result (λ table. table ≡ table_of no.0 key name.now columns.now) }
    {
        Ok(Table {
            no,
            name: Text::copy_of(alloc, name)?,
            columns: Columns::of(alloc, columns_of(alloc, key, columns)?)?,
            views: Views::new(alloc),
        })
    }

    /// The column of a name, where there is one. It takes no memory.
    pub fn column(&self, name: &str) -> Option<&Column>
        ensures { option_copied result ≡ column_named_of self.now.columns name.now }
    {
        self.columns.named(name)
    }

    /// The key of the column of a name, where there is one. It takes no memory.
    pub fn key_of(&self, name: &str) -> Option<ColKey>
        ensures { result ≡ key_named self.now.columns name.now }
    {
        match self.column(name) {
            Some(column) => Some(column.key),
            None => None,
        }
    }

    /// The view of a name, where there is one. It takes no memory.
    pub fn view(&self, name: &str) -> Option<&View>
        ensures { option_copied result ≡ view_named self.now.views name.now }
    {
        self.views.named(name)
    }

    /// The table with another name.
    pub fn with_name(&self, alloc: Global, to: &str) -> Result<Table, AllocError>
        ensures { IfOk result (λ table. table ≡ with_name to.now self.now) }
    {
        Ok(Table {
            no: self.no,
            name: Text::copy_of(alloc, to)?,
            columns: self.columns.duplicate(alloc)?,
            views: self.views.duplicate(alloc)?,
        })
    }

    /// The table with these columns in the place of its own.
    pub(crate) fn with_columns(
        &self,
        alloc: Global,
        columns: Items<Column>,
    ) -> Result<Table, AllocError>
        ensures { IfOk result (λ table. table ≡ record self.now { columns = columns }) }
    {
        Ok(Table {
            no: self.no,
            name: self.name.duplicate(alloc)?,
            columns: Columns::of(alloc, columns)?,
            views: self.views.duplicate(alloc)?,
        })
    }

    /// The table with one column more, at the end. The column is no link column.
    pub fn with_column(
        &self,
        alloc: Global,
        key: ColKey,
        column: &NewColumn,
    ) -> Result<Table, AllocError>
        ensures { IfOk result (λ table. table ≡ with_column key.0 column.now self.now) }
    {
        self.with_last_column(alloc, column_of(alloc, key.0, column)?)
    }

    // The table with a column at the end.
    pub(crate) fn with_last_column(
        &self,
        alloc: Global,
        column: Column,
    ) -> Result<Table, AllocError>
        ensures { IfOk result (λ table. table ≡ record self.now { columns = self.now.columns ++ column ∷ [] }) }
    {
        let mut table = self.duplicate(alloc)?;
        table.columns.push(alloc, column)?;
        Ok(table)
    }

    /// The table with another name for a column.
    pub fn with_column_name(
        &self,
        alloc: Global,
        column: &str,
        to: &str,
    ) -> Result<Table, AllocError>
        ensures { IfOk result (λ table. table ≡ with_column_name column.now to.now self.now) }
    {
        let mut table = self.duplicate(alloc)?;
        table.columns.change(alloc, column, &NewName { to })?;
        Ok(table)
    }

    /// The table with more options for a select column: those that aren't there yet, at the end.
    pub fn with_options(
        &self,
        alloc: Global,
        column: &str,
        options: &Texts,
    ) -> Result<Table, AllocError>
        ensures { IfOk result (λ table. table ≡ with_options column.now options.now self.now) }
    {
        let mut table = self.duplicate(alloc)?;
        table
            .columns
            .change(alloc, column, &MoreOptions { options })?;
        Ok(table)
    }

    /// The table without a column. The filters that ask for its cells go too.
    pub fn without_column(&self, alloc: Global, column: &str) -> Result<Table, AllocError>
        ensures { IfOk result (λ table. table ≡ without_column column.now self.now) }
    {
        let gone = self.key_of(column);
        let mut columns = self.columns.duplicate(alloc)?;
        columns.remove(alloc, column)?;
        Ok(Table {
            no: self.no,
            name: self.name.duplicate(alloc)?,
            columns,
            views: Views::of(alloc, views_without(alloc, self.views.as_slice(), gone)?)?,
        })
    }

    /// The table with a view: in the place of the one of its name, else at the end.
    pub fn with_view(&self, alloc: Global, view: &View) -> Result<Table, AllocError>
        ensures { IfOk result (λ table. table ≡ with_view view.now self.now) }
    {
        let mut table = self.duplicate(alloc)?;
        put_view_into(alloc, &mut table.views, view)?;
        Ok(table)
    }

    /// The table without a view.
    pub fn without_view(&self, alloc: Global, view: &str) -> Result<Table, AllocError>
        ensures { IfOk result (λ table. table ≡ without_view view.now self.now) }
    {
        let mut table = self.duplicate(alloc)?;
        table.views.remove(alloc, view)?;
        Ok(table)
    }
}

impl Duplicate for Table {
    fn duplicate(&self, alloc: Global) -> Result<Table, AllocError> {
        Ok(Table {
            no: self.no,
            name: self.name.duplicate(alloc)?,
            columns: self.columns.duplicate(alloc)?,
            views: self.views.duplicate(alloc)?,
        })
    }
}

// New columns whose keys are given from `key`.
fn columns_of(alloc: Global, key: u32, columns: &[NewColumn]) -> Result<Items<Column>, AllocError>
    requires { key + length columns.now < 2 ^ 32 }
    ensures { IfOk result (λ made. made ≡ columns_for key columns.now) }
{
    let mut made = Items::new(alloc);
    let mut next = key;
    for column in columns {
        made.push(column_of(alloc, next, column)?)?;
        next += 1;
    }
    Ok(made)
}

// A new column.
fn column_of(alloc: Global, key: u32, column: &NewColumn) -> Result<Column, AllocError>
    ensures { IfOk result (λ made. made ≡ column_for key column.now) }
{
    Ok(Column {
        key: ColKey(key),
        name: column.name.duplicate(alloc)?,
        kind: column.kind,
        unit: column.unit.duplicate(alloc)?,
        options: without_repeats(alloc, column.options.as_slice())?,
        other: None,
    })
}

/// Options with more of them at the end, each once, at its first place.
pub fn more_options(alloc: Global, options: &Texts, more: &Texts) -> Result<Texts, AllocError>
    ensures { IfOk result (λ all. all ≡ once (options.now ++ more.now)) }
{
    let mut all = options.duplicate(alloc)?;
    all.append(more.duplicate(alloc)?)?;
    without_repeats(alloc, all.as_slice())
}

// Views without their filters of a column.
fn views_without(
    alloc: Global,
    views: &[View],
    column: Option<ColKey>,
) -> Result<Items<View>, AllocError>
    ensures { IfOk result (λ new. new ≡ map (without_filters column) views.now) }
{
    let mut new = Items::new(alloc);
    for view in views {
        new.push(view_without(alloc, view, column)?)?;
    }
    Ok(new)
}

// A view without its filters of a column.
fn view_without(alloc: Global, view: &View, column: Option<ColKey>) -> Result<View, AllocError>
    ensures { IfOk result (λ new. new ≡ without_filters column view.now) }
{
    Ok(View {
        name: view.name.duplicate(alloc)?,
        all: view.all,
        filters: filters_without(alloc, view.filters.as_slice(), column)?,
    })
}

// The filters of other columns.
fn filters_without(
    alloc: Global,
    filters: &[Filter],
    column: Option<ColKey>,
) -> Result<Filters, AllocError>
    ensures { IfOk result (λ kept. kept ≡ filter (is_of_other_of column) filters.now) }
{
    let mut kept = Items::new(alloc);
    for filter in filters {
        if is_of_other(filter, column) {
            kept.push(filter.duplicate(alloc)?)?;
        }
    }
    Ok(kept)
}

// The filter is of another column.
fn is_of_other(filter: &Filter, column: Option<ColKey>) -> bool
    ensures { result ≡ is_of_other_of column filter.now }
{
    match column {
        Some(key) => filter.column.0 != key.0,
        None => true,
    }
}

// Puts a view in the place of the one of its name, else at the end.
fn put_view_into(alloc: Global, views: &mut Views, view: &View) -> Result<(), AllocError>
    ensures { OnOk result (views.new ≡ put_view view.now views.old) }
{
    if has_view(views.as_slice(), view.name.as_str()) {
        views.change(alloc, view.name.as_str(), &InItsPlace { view })?;
        return Ok(());
    }
    views.push(alloc, view.duplicate(alloc)?)?;
    Ok(())
}

// There is a view of this name.
fn has_view(views: &[View], name: &str) -> bool
    ensures { result ≡ list_any (is_view_of name.now) views.now }
{
    views.iter().any(|view| is_view(view, name))
}

// The view has this name.
fn is_view(view: &View, name: &str) -> bool
    ensures { result ≡ is_view_of name.now view.now }
{
    view.name.as_str() == name
}
