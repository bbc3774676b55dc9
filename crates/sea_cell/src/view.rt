// The views of a table.
ghost use Rattle.std.specs.Prelude.{◌≡◌, IfOk};

use crate::keys::ColKey;
use crate::values::CellValue;
use sea_text::{Duplicate, Indexed, Named, Text, Texts};
use sqlite_items::Items;
use std::alloc::{AllocError, Global};

/// What a filter asks of a cell.
#[derive(Clone, Copy)]
pub enum Test {
    Is,
    IsNot,
    Contains,
    DoesNotContain,
    Less,
    LessOrEqual,
    Greater,
    GreaterOrEqual,
    HasAnyOf,
    HasAllOf,
    HasNoneOf,
    IsExactly,
    IsEmpty,
    IsNotEmpty,
}

/// What a filter compares a cell with.
#[derive(Drop)]
pub enum Term {
    Nothing,
    Cell(CellValue),
    Items(Texts),
}

/// A condition on the cells of one column.
#[derive(Drop)]
pub struct Filter {
    pub column: ColKey,
    pub test: Test,
    pub term: Term,
}

/// The filters of a view, in order.
pub type Filters = Items<Filter>;

/// A view: the rows that meet all of its filters, or any of them.
#[derive(Drop)]
pub struct View {
    pub name: Text,
    pub all: bool,
    pub filters: Filters,
}

/// The views of a table, in the order in which they were added. They are found by name.
pub type Views = Indexed<View>;

impl Named for View {
    ghost name = { λ view. view.name };

    fn name(&self) -> &str {
        self.name.as_str()
    }
}

impl Duplicate for Term {
    fn duplicate(&self, alloc: Global) -> Result<Term, AllocError> {
        match self {
            Term::Nothing => Ok(Term::Nothing),
            Term::Cell(value) => Ok(Term::Cell(value.duplicate(alloc)?)),
            Term::Items(texts) => Ok(Term::Items(texts.duplicate(alloc)?)),
        }
    }
}

impl Duplicate for Filter {
    fn duplicate(&self, alloc: Global) -> Result<Filter, AllocError> {
        Ok(Filter {
            column: self.column,
            test: self.test,
            term: self.term.duplicate(alloc)?,
        })
    }
}

impl Duplicate for View {
    fn duplicate(&self, alloc: Global) -> Result<View, AllocError> {
        Ok(View {
            name: self.name.duplicate(alloc)?,
            all: self.all,
            filters: self.filters.duplicate(alloc)?,
        })
    }
}
