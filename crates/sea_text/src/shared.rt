// Values that have several owners.
ghost use Rattle.std.specs.Prelude.{◌≡◌, IfOk};

use crate::duplicate::Duplicate;
use crate::indexed::Named;
use std::alloc::{AllocError, Global};
use std::marker::Model;
use std::sync::Arc;

/// A value that stays as it is and may have several owners, seen by contracts as the value. A copy is one more owner, and
/// takes no memory.
#[derive(Drop)]
pub struct Shared<T> {
    owner: Arc<T>,
}

impl<T> Model for Shared<T> {
    ghost Value = { T };

    ghost coded = { T.code };

    ghost view = { λ it. it.owner.value };
}

impl<T> Shared<T> {
    /// The value.
    pub fn get(&self) -> &T
        ensures { result.now ≡ self.now }
    {
        &self.owner
    }
}

impl<T: Drop> Shared<T> {
    /// A value with its first owner.
    pub fn new(alloc: Global, value: T) -> Result<Shared<T>, AllocError>
        ensures { IfOk result (λ it. it ≡ value) }
    {
        Ok(Shared {
            owner: Arc::new(alloc, value)?,
        })
    }
}

impl<T: Drop> Duplicate for Shared<T> {
    fn duplicate(&self, _alloc: Global) -> Result<Shared<T>, AllocError> {
        Ok(Shared {
            owner: self.owner.clone()?,
        })
    }
}

impl<T: Named> Named for Shared<T> {
    ghost name = { T.name };

    fn name(&self) -> &str {
        self.get().name()
    }
}
