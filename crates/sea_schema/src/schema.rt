// Tables without their rows, and the numbers that come next.
ghost use Rattle.std.specs.Prelude.{◌≡◌, ◌+◌, ◌<◌, ◌^◌, ◌++◌, ◌∷◌, [], map, filter, length, IfOk, OnOk, OnErr};
ghost use Rattle.std.specs.Option.{option_copied};
ghost use Rattle.std.specs.Str.{bytes_eq};
ghost use Rattle.sea_schema.specs.Tables.{table_named, with_name, with_link_column, with_column_name, with_options, with_view, without_view};
ghost use Rattle.sea_schema.specs.Layout.{empty_layout, if_table, in_table, with_table, with_plain_column, with_link, with_new_column, keys_of_new, links_of_new, number_named, links_of_column, links_of_table, without_column_of, without_table_of, end_towards};
ghost use Rattle.sea_schema.specs.Changes.{change_of};

use crate::links::without_ends;
use crate::table::{Table, Tables};
use sea_cell::{ColKey, Duplicate, LinkEnd, NewColumn, NewEnd, Shared, TableNo, Texts, View};
use sea_text::ChangeOf;
use std::alloc::{AllocError, Global};
use std::marker::Model;

/// The tables of a base without their rows, in order of number, and the numbers that come next. Copies share the tables.
#[derive(Drop)]
pub struct Schema {
    alloc: Global,
    tables: Tables,
    next_table: u32,
    next_column: u32,
    next_link: u32,
}

impl Model for Schema {
    ghost use Rattle.sea_schema.specs.Layout.{Layout};

    ghost Value = { Layout };

    ghost view = { λ it. record
        { tables = it.tables; next_table = it.next_table; next_column = it.next_column; next_link = it.next_link } };
}

// A change of one table.
#[derive(Clone, Copy)]
enum Change<'a> {
    Name(&'a str),
    Column(ColKey, &'a NewColumn),
    LinkColumn(ColKey, &'a str, LinkEnd),
    ColumnName(&'a str, &'a str),
    Options(&'a str, &'a Texts),
    WithoutColumn(&'a str),
    View(&'a View),
    WithoutView(&'a str),
}

impl<'a> ChangeOf<Shared<Table>> for Change<'a> {
    ghost changed = { change_of };

    fn made_of(&self, alloc: Global, item: &Shared<Table>) -> Result<Shared<Table>, AllocError> {
        Shared::new(alloc, changed_table(alloc, item.get(), self)?)
    }
}

impl Schema {
    /// A schema without tables. Tables, columns and links are numbered from 1. It takes no memory.
    pub fn new(alloc: Global) -> Schema
        ensures { result ≡ empty_layout }
    {
        Schema {
            alloc,
            tables: Tables::new(alloc),
            next_table: 1,
            next_column: 1,
            next_link: 1,
        }
    }

    /// The table of a name, where there is one. It takes no memory.
    pub fn table(&self, name: &str) -> Option<&Table>
        ensures { option_copied result ≡ table_named self.now.tables name.now }
    {
        match self.tables.named(name) {
            Some(table) => Some(table.get()),
            None => None,
        }
    }

    /// The tables in order of number.
    pub fn tables(&self) -> &[Shared<Table>]
        ensures { result.now ≡ self.now.tables }
    {
        self.tables.as_slice()
    }

    /// The number of the next table that is added.
    pub fn next_table(&self) -> u32
        ensures { result ≡ self.now.next_table }
    {
        self.next_table
    }

    /// The key of the next column that is added.
    pub fn next_column(&self) -> u32
        ensures { result ≡ self.now.next_column }
    {
        self.next_column
    }

    /// The number of the next link that is added.
    pub fn next_link(&self) -> u32
        ensures { result ≡ self.now.next_link }
    {
        self.next_link
    }

    /// Adds a table at the end, with the next number. Its columns get the next keys. No column is a link column, and both
    /// counters stay below 2^32.
    ///
    /// # Errors
    /// Want of memory, which leaves the schema as it was. The same is true of each change below, and a name that no table
    /// has changes no table.
    pub fn add_table(&mut self, name: &str, columns: &[NewColumn]) -> Result<(), AllocError>
        requires number { self.old.next_table + 1 < 2 ^ 32 }
        requires keys { self.old.next_column + length columns.now < 2 ^ 32 }
        ensures ok { OnOk result (self.new ≡ with_table name.now columns.now self.old) }
        ensures err { OnErr result (self.new ≡ self.old) }
    {
        let number = TableNo(self.next_table);
        let table = Table::new(self.alloc, number, self.next_column, name, columns)?;
        let shared = Shared::new(self.alloc, table)?;
        self.tables.push(self.alloc, shared)?;
        self.next_table += 1;
        self.next_column += columns.len() as u32;
        Ok(())
    }

    /// Gives a table another name.
    pub fn rename_table(&mut self, table: &str, to: &str) -> Result<(), AllocError>
        ensures ok { OnOk result (self.new ≡ in_table table.now (with_name to.now) self.old) }
        ensures err { OnErr result (self.new ≡ self.old) }
    {
        self.change(table, &Change::Name(to))?;
        Ok(())
    }

    /// Removes a table, and from the other tables the other ends of its links. Its number, the keys of its columns and the
    /// numbers of its links are not given again.
    pub fn remove_table(&mut self, table: &str) -> Result<(), AllocError>
        ensures ok { OnOk result (self.new ≡ without_table_of table.now self.old) }
        ensures err { OnErr result (self.new ≡ self.old) }
    {
        self.tables = self.tables_without_table(table)?;
        Ok(())
    }

    /// Adds a column at the end of a table, with the next key. A link column is the first end of the next link; the other
    /// end comes at the end of the other table, with the key after it. The counters stay below 2^32.
    pub fn add_column(&mut self, table: &str, column: &NewColumn) -> Result<(), AllocError>
        requires keys { self.old.next_column + keys_of_new column.now.other < 2 ^ 32 }
        requires links { self.old.next_link + links_of_new column.now.other < 2 ^ 32 }
        ensures ok { OnOk result (self.new ≡ with_new_column table.now column.now self.old) }
        ensures err { OnErr result (self.new ≡ self.old) }
    {
        match &column.other {
            Some(other) => self.add_link(table, column.name.as_str(), other),
            None => self.add_plain_column(table, column),
        }
    }

    /// Gives a column of a table another name.
    pub fn rename_column(&mut self, table: &str, column: &str, to: &str) -> Result<(), AllocError>
        ensures ok { OnOk result (self.new ≡ in_table table.now (with_column_name column.now to.now) self.old) }
        ensures err { OnErr result (self.new ≡ self.old) }
    {
        self.change(table, &Change::ColumnName(column, to))?;
        Ok(())
    }

    /// Removes a column of a table, and the filters that ask for its cells. With an end of a link the other end goes too.
    /// Keys and the link's number are not given again.
    pub fn remove_column(&mut self, table: &str, column: &str) -> Result<(), AllocError>
        ensures ok { OnOk result (self.new ≡ without_column_of table.now column.now self.old) }
        ensures err { OnErr result (self.new ≡ self.old) }
    {
        self.tables = self.tables_without_column(table, column)?;
        Ok(())
    }

    /// Adds the options that a column of a table doesn't have yet, at the end.
    pub fn add_options(
        &mut self,
        table: &str,
        column: &str,
        options: &Texts,
    ) -> Result<(), AllocError>
        ensures ok { OnOk result (self.new ≡ in_table table.now (with_options column.now options.now) self.old) }
        ensures err { OnErr result (self.new ≡ self.old) }
    {
        self.change(table, &Change::Options(column, options))?;
        Ok(())
    }

    /// Puts a view into a table, in the place of the one of its name, else at the end.
    pub fn set_view(&mut self, table: &str, view: View) -> Result<(), AllocError>
        ensures ok { OnOk result (self.new ≡ in_table table.now (with_view view) self.old) }
        ensures err { OnErr result (self.new ≡ self.old) }
    {
        self.change(table, &Change::View(&view))?;
        Ok(())
    }

    /// Removes a view of a table.
    pub fn remove_view(&mut self, table: &str, view: &str) -> Result<(), AllocError>
        ensures ok { OnOk result (self.new ≡ in_table table.now (without_view view.now) self.old) }
        ensures err { OnErr result (self.new ≡ self.old) }
    {
        self.change(table, &Change::WithoutView(view))?;
        Ok(())
    }

    // Adds a column that is no link column.
    fn add_plain_column(&mut self, table: &str, column: &NewColumn) -> Result<(), AllocError>
        requires { self.old.next_column + 1 < 2 ^ 32 }
        ensures ok { OnOk result (self.new ≡ with_plain_column table.now column.now self.old) }
        ensures err { OnErr result (self.new ≡ self.old) }
    {
        let key = ColKey(self.next_column);
        self.change(table, &Change::Column(key, column))?;
        self.next_column += 1;
        Ok(())
    }

    // Adds both columns of a link.
    fn add_link(&mut self, table: &str, name: &str, other: &NewEnd) -> Result<(), AllocError>
        requires keys { self.old.next_column + 2 < 2 ^ 32 }
        requires links { self.old.next_link + 1 < 2 ^ 32 }
        ensures ok { OnOk result (self.new ≡ with_link table.now name.now other.now self.old) }
        ensures err { OnErr result (self.new ≡ self.old) }
    {
        self.tables = self.tables_with_link(table, name, other)?;
        self.next_column += 2;
        self.next_link += 1;
        Ok(())
    }

    // The tables with both columns of the next link.
    fn tables_with_link(
        &self,
        table: &str,
        name: &str,
        other: &NewEnd,
    ) -> Result<Tables, AllocError>
        requires { self.now.next_column + 1 < 2 ^ 32 }
        ensures { IfOk result (λ tables. tables ≡ (with_link table.now name.now other.now self.now).tables) }
    {
        let key = self.next_column;
        let first = self.end_towards(other.table.as_str(), true);
        let second = self.end_towards(table, false);
        let (to, to_name) = (other.table.as_str(), other.name.as_str());
        let mut tables = self.tables.duplicate(self.alloc)?;
        add_end(self.alloc, &mut tables, table, key, name, first)?;
        add_end(self.alloc, &mut tables, to, key + 1, to_name, second)?;
        Ok(tables)
    }

    // An end of the next link, whose other end is in the table of a name.
    fn end_towards(&self, other: &str, first: bool) -> LinkEnd
        ensures { result ≡ end_towards other.now first self.now }
    {
        LinkEnd {
            link: self.next_link,
            table: self.number_of(other),
            first,
        }
    }

    // The number of the table of a name, or 0.
    fn number_of(&self, name: &str) -> TableNo
        ensures { result.0 ≡ number_named self.now.tables name.now }
    {
        match self.table(name) {
            Some(table) => table.no,
            None => TableNo(0),
        }
    }

    // The tables without a column, and without the other end of its link.
    fn tables_without_column(&self, table: &str, column: &str) -> Result<Tables, AllocError>
        ensures { IfOk result (λ tables. tables ≡ (without_column_of table.now column.now self.now).tables) }
    {
        let links = self.links_of_column(table, column)?;
        let mut tables = self.tables.duplicate(self.alloc)?;
        tables.change(self.alloc, table, &Change::WithoutColumn(column))?;
        without_ends(self.alloc, tables, &links)
    }

    // The tables without one of them, and without the other ends of its links.
    fn tables_without_table(&self, table: &str) -> Result<Tables, AllocError>
        ensures { IfOk result (λ tables. tables ≡ (without_table_of table.now self.now).tables) }
    {
        let links = self.links_of_table(table)?;
        let mut tables = self.tables.duplicate(self.alloc)?;
        tables.remove(self.alloc, table)?;
        without_ends(self.alloc, tables, &links)
    }

    // The links that end in a column of a table.
    fn links_of_column(&self, table: &str, column: &str) -> Result<Vec<u32>, AllocError>
        ensures { IfOk result (λ links. links.items ≡ links_of_column table.now column.now self.now.tables) }
    {
        match self.table(table) {
            Some(found) => found.links_of_column(self.alloc, column),
            None => Ok(Vec::new(self.alloc)),
        }
    }

    // The links that end in a table.
    fn links_of_table(&self, table: &str) -> Result<Vec<u32>, AllocError>
        ensures { IfOk result (λ links. links.items ≡ links_of_table table.now self.now.tables) }
    {
        match self.table(table) {
            Some(found) => found.links(self.alloc),
            None => Ok(Vec::new(self.alloc)),
        }
    }

    // Makes a change of the table of a name.
    fn change(&mut self, name: &str, change: &Change) -> Result<(), AllocError>
        ensures ok { OnOk result (self.new ≡ in_table name.now (change_of change.now) self.old) }
        ensures err { OnErr result (self.new ≡ self.old) }
    {
        self.tables.change(self.alloc, name, change)?;
        Ok(())
    }
}

impl Duplicate for Schema {
    fn duplicate(&self, alloc: Global) -> Result<Schema, AllocError> {
        Ok(Schema {
            alloc,
            tables: self.tables.duplicate(alloc)?,
            next_table: self.next_table,
            next_column: self.next_column,
            next_link: self.next_link,
        })
    }
}

// Adds an end of a link to the table of a name.
fn add_end(
    alloc: Global,
    tables: &mut Tables,
    table: &str,
    key: u32,
    name: &str,
    end: LinkEnd,
) -> Result<(), AllocError>
    ensures { OnOk result (tables.new ≡ map (if_table table.now (with_link_column key name.now end)) tables.old) }
{
    let change = Change::LinkColumn(ColKey(key), name, end);
    tables.change(alloc, table, &change)?;
    Ok(())
}

// A table with a change.
fn changed_table(alloc: Global, table: &Table, change: &Change) -> Result<Table, AllocError>
    ensures { IfOk result (λ new. new ≡ change_of change.now table.now) }
{
    match change {
        Change::Name(to) => table.with_name(alloc, to),
        Change::Column(key, column) => table.with_column(alloc, *key, column),
        Change::LinkColumn(key, name, end) => table.with_link_column(alloc, *key, name, *end),
        Change::ColumnName(column, to) => table.with_column_name(alloc, column, to),
        Change::Options(column, options) => table.with_options(alloc, column, options),
        Change::WithoutColumn(column) => table.without_column(alloc, column),
        Change::View(view) => table.with_view(alloc, view),
        Change::WithoutView(view) => table.without_view(alloc, view),
    }
}
