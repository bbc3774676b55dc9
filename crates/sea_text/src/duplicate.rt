// Copies of what owns memory.
ghost use Rattle.std.specs.Prelude.{◌≡◌, IfOk};

use sqlite_items::Items;
use std::alloc::{AllocError, Global};

/// A value that can be copied where memory is there.
pub trait Duplicate {
    /// An equal value with memory of its own.
    fn duplicate(&self, alloc: Global) -> Result<Self, AllocError>
        ensures { IfOk result (λ copy. copy ≡ self.now) };
}

impl<T: Duplicate + Drop> Duplicate for Items<T> {
    fn duplicate(&self, alloc: Global) -> Result<Items<T>, AllocError> {
        Ok(Items::from_vec(copies_of(alloc, self.as_slice())?))
    }
}

/// Copies of values, in their order.
pub fn copies_of<T: Duplicate + Drop>(alloc: Global, items: &[T]) -> Result<Vec<T>, AllocError>
    ensures { IfOk result (λ copies. copies.items ≡ items.now) }
{
    let mut copies = Vec::with_capacity(alloc, items.len())?;
    for item in items {
        copies.push(item.duplicate(alloc)?)?;
    }
    Ok(copies)
}
