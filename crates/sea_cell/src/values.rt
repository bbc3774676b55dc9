// The values of cells.
ghost use Rattle.std.specs.Prelude.{◌≡◌, IfOk};

use crate::keys::{Ids, Moment};
use sea_text::{Duplicate, Text, Texts};
use std::alloc::{AllocError, Global};

/// The value of a cell.
#[derive(Drop)]
pub enum CellValue {
    /// Nothing.
    Empty,
    /// A text, of a text or long-text column.
    Text(Text),
    /// Whole units of a number column.
    Number(i64),
    /// A checkbox.
    Check(bool),
    /// A date, a time of making or of change.
    Moment(Moment),
    /// One option of a single-select column.
    Choice(Text),
    /// Options of a multiple-select column.
    Choices(Texts),
    /// Names of a collaborator column.
    Names(Texts),
    /// Ids of the rows that a link column leads to.
    Links(Ids),
}

impl Duplicate for CellValue {
    fn duplicate(&self, alloc: Global) -> Result<CellValue, AllocError> {
        match self {
            CellValue::Empty => Ok(CellValue::Empty),
            CellValue::Text(text) => Ok(CellValue::Text(text.duplicate(alloc)?)),
            CellValue::Number(number) => Ok(CellValue::Number(*number)),
            CellValue::Check(check) => Ok(CellValue::Check(*check)),
            CellValue::Moment(moment) => Ok(CellValue::Moment(*moment)),
            CellValue::Choice(option) => Ok(CellValue::Choice(option.duplicate(alloc)?)),
            CellValue::Choices(options) => Ok(CellValue::Choices(options.duplicate(alloc)?)),
            CellValue::Names(names) => Ok(CellValue::Names(names.duplicate(alloc)?)),
            CellValue::Links(ids) => Ok(CellValue::Links(ids.duplicate(alloc)?)),
        }
    }
}
