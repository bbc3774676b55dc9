// Why a base refuses an operation.
use sea_cell::{CellFault, Text};
use std::alloc::AllocError;

/// The numbers of a base that have a last value: 2^62 for the version, the next row number and the number of a log
/// record, 4,294,967,295 for the others.
#[derive(Clone, Copy)]
pub enum Counter {
    Version,
    NextRow,
    NextTable,
    NextColumn,
    NextLink,
    Lsn,
}

/// Why a base refuses an operation. Each variant but Memory has its place in one order, and the first that holds
/// anywhere in the operation is the answer, with its first place there.
#[derive(Drop)]
pub enum OpRefusal {
    /// Memory ran out.
    Memory,
    /// The operation has no form.
    BadOperation,
    /// The operation would raise a number above its last value.
    NumbersSpent { counter: Counter },
    /// The base has no table of this name.
    NoTable { name: Text },
    /// The table has no column of this name.
    NoColumn { name: Text },
    /// The table has no view of this name.
    NoView { name: Text },
    /// The table has no row of this id.
    NoRow { id: Text },
    /// A name that is none: empty, above 64 bytes, with a control character or a backquote, or with `_` in front. Or
    /// a row's id that isn't 1 to 22 letters, digits, `_` and `-`, or an option that is empty or above 64 bytes.
    BadName { name: Text },
    /// A name that is in use, or stands twice in the operation.
    NameTaken { name: Text },
    /// A filter of a view asks what can't be asked of its column, or compares with what can't stand there. The filter's
    /// place in the view, from 0.
    BadFilter { index: u64 },
    /// The column takes no such cell.
    BadCell { column: Text, fault: CellFault },
    /// A row's id that is in use in its table, or stands twice in the operation.
    DuplicateRow { id: Text },
    /// The operation, or the base after it, passes a limit.
    TooMany { limit: u32 },
    /// A row after the operation has an encoding above 8,192 bytes, or none, for which `bytes` is 2^64 - 1.
    RowTooBig { bytes: u64 },
    /// Rows are linked, or not any more, in a column that is no link column.
    NotLink { column: Text },
    /// Options are added to a column that is neither single-select nor multiple-select.
    NotSelect { column: Text },
    /// The row of this id is linked already, or stands twice in the operation.
    LinkExists { id: Text },
    /// The row of this id isn't linked, or stands twice in the operation.
    NoLink { id: Text },
    /// The first column of a table can't be taken away.
    FirstColumn { column: Text },
}

impl From<AllocError> for OpRefusal {
    ghost use Rattle.std.specs.Prelude.{◌≡◌};
    ghost use Rattle.sea_operation.specs.declared.refusal.OpRefusal.TheVariants.{Memory};

    ghost from_gives = { λ _ refusal. refusal ≡ Memory };

    fn from(_error: AllocError) -> OpRefusal {
        OpRefusal::Memory
    }
}
