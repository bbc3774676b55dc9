// Operations, and the entries that a base takes.
use sea_cell::{CellWord, Ids, Moment, NewColumn, NewColumns, RowId, Text, Texts};
use sqlite_items::Items;

/// A cell of an operation's row: the column's name, and what stands there.
#[derive(Drop)]
pub struct NamedCell {
    pub name: Text,
    pub word: CellWord,
}

/// The cells of an operation's row, in byte order of their names.
pub type NamedCells = Items<NamedCell>;

/// A row of an operation: its id, where one is given, and its cells.
#[derive(Drop)]
pub struct OpRow {
    pub id: Option<Text>,
    pub cells: NamedCells,
}

/// The rows of an operation, in order.
pub type OpRows = Items<OpRow>;

/// A row of an operation that changes it: its id, and the cells that are replaced.
#[derive(Drop)]
pub struct RowChange {
    pub id: RowId,
    pub cells: NamedCells,
}

/// The changes of rows in an operation, in order.
pub type RowChanges = Items<RowChange>;

/// A filter of a view as an operation has it: the column's name, what is asked of its cells, and with what they are
/// compared.
#[derive(Drop)]
pub struct NewFilter {
    pub column: Text,
    pub predicate: Text,
    pub term: CellWord,
}

/// The filters of a view in an operation, in order.
pub type NewFilters = Items<NewFilter>;

/// A view as an operation has it: its name, whether rows have to meet all of its filters or any of them, and these.
#[derive(Drop)]
pub struct NewView {
    pub name: Text,
    pub all: bool,
    pub filters: NewFilters,
}

/// An operation on a base. Tables, columns, views and rows are named as in the operation, and need not be there.
pub enum Op {
    /// Makes a table of that name with these columns.
    InsertTable {
        table: Text,
        columns: NewColumns,
    },
    /// Gives a table another name.
    RenameTable {
        table: Text,
        to: Text,
    },
    /// Takes a table away with all that it has.
    DeleteTable {
        table: Text,
    },
    /// Makes a column at the end of the table's.
    InsertColumn {
        table: Text,
        column: NewColumn,
    },
    /// Gives a column another name.
    RenameColumn {
        table: Text,
        column: Text,
        to: Text,
    },
    /// Takes a column away with its cells.
    DeleteColumn {
        table: Text,
        column: Text,
    },
    /// Adds the options that the column doesn't have yet.
    AddOptions {
        table: Text,
        column: Text,
        options: Texts,
    },
    /// Appends rows to the table of that name.
    AppendRows {
        table: Text,
        rows: OpRows,
    },
    /// Replaces cells of rows.
    ModifyRows {
        table: Text,
        rows: RowChanges,
    },
    /// Takes rows away.
    DeleteRows {
        table: Text,
        ids: Ids,
    },
    /// Links a row with others, in a link column.
    AddLink {
        table: Text,
        column: Text,
        row: RowId,
        others: Ids,
    },
    /// Takes such links away.
    RemoveLink {
        table: Text,
        column: Text,
        row: RowId,
        others: Ids,
    },
    /// Makes a view at the end of the table's.
    InsertView {
        table: Text,
        view: NewView,
    },
    /// Puts a view in the place of the one of its name.
    ModifyView {
        table: Text,
        view: NewView,
    },
    /// Takes a view away.
    DeleteView {
        table: Text,
        view: Text,
    },
}

// By hand, since what a derive makes of so many variants takes long to check.
impl Drop for Op {
    fn drop(self) {
        match self {
            Op::InsertTable { table, columns } => release((table, columns)),
            Op::RenameTable { table, to } => release((table, to)),
            Op::DeleteTable { table } => release(table),
            Op::InsertColumn { table, column } => release((table, column)),
            Op::RenameColumn { table, column, to } => release((table, column, to)),
            Op::DeleteColumn { table, column } => release((table, column)),
            Op::AddOptions {
                table,
                column,
                options,
            } => release((table, column, options)),
            Op::AppendRows { table, rows } => release((table, rows)),
            Op::ModifyRows { table, rows } => release((table, rows)),
            Op::DeleteRows { table, ids } => release((table, ids)),
            Op::AddLink {
                table,
                column,
                row,
                others,
            } => release((table, column, row, others)),
            Op::RemoveLink {
                table,
                column,
                row,
                others,
            } => release((table, column, row, others)),
            Op::InsertView { table, view } => release((table, view)),
            Op::ModifyView { table, view } => release((table, view)),
            Op::DeleteView { table, view } => release((table, view)),
        }
    }
}

// Lets a value go.
fn release<T: Drop>(_value: T) {}

/// An operation, when it was made, and who made it.
#[derive(Drop)]
pub struct Entry {
    pub op: Op,
    pub moment: Moment,
    pub user: Text,
}

/// Entries in the order in which a base takes them.
pub type Entries = Items<Entry>;
