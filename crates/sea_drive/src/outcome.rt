// What comes of a line.
use sea_cell::{CellValue, Texts};
use sea_core::{CoreFault, Feed};
use sqlite_items::Items;

/// A row of an answer: its cells in the order of the answer's columns.
pub type AnswerRow = Items<CellValue>;

/// The rows of an answer, in order.
pub type AnswerRows = Items<AnswerRow>;

/// The answer of a select: the names of its columns, and its rows.
#[derive(Drop)]
pub struct Answer {
    pub columns: Texts,
    pub rows: AnswerRows,
}

/// What comes of a line that met no want of memory.
#[derive(Drop)]
pub enum LineOutcome {
    /// The line asks for no reply.
    Silent,
    /// An operation was accepted, and the base has this version.
    Version(u64),
    /// The base was found again from its files, and has this version.
    Reopened(u64),
    /// The answer of a select.
    Rows(Answer),
    /// The answer of a feed.
    Fed(Feed),
    /// What was asked for is refused: by the core; as no operation; by a select that names no table; or by a reopening where
    /// a call of the disk failed.
    Refused(CoreFault),
    /// The files stand for no base.
    NotABase,
    /// The line is no UTF-8, or has no form.
    BadLine,
    /// The line has a form that isn't built yet.
    NotYet,
}
