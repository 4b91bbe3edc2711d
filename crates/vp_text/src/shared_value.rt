ghost use Rattle.std.specs.Prelude.{◌≡◌, IfOk};

use crate::same::Same;
use std::alloc::{AllocError, Global};
use std::marker::Model;
use std::sync::Arc;

/// A value that several hold at once: one holder more costs a count and no copy. A contract sees the value.
#[derive(Drop)]
pub struct Shared<T: Drop> {
    value: Arc<T>,
}

impl<T: Drop> Model for Shared<T> {
    ghost use Rattle.std.specs.Arc.{arc_value};

    ghost Value = { T };

    ghost view = { λ s. arc_value s.value };
}

impl<T: Drop> Shared<T> {
    /// A value, which is moved in. Takes memory.
    pub fn new(alloc: Global, value: T) -> Result<Shared<T>, AllocError>
        ensures { IfOk result (λ s. s ≡ value) }
    {
        match Arc::new(alloc, value) {
            Ok(value) => Ok(Shared { value }),
            Err(_) => Err(AllocError),
        }
    }

    /// The same value for one holder more; or an error where they can't be counted.
    pub fn try_clone(&self) -> Result<Shared<T>, AllocError>
        ensures { IfOk result (λ s. s ≡ self.now) }
    {
        Ok(Shared {
            value: Arc::try_clone(&self.value)?,
        })
    }

    /// The value, borrowed.
    pub fn value(&self) -> &T
        ensures { result.now ≡ self.now }
    {
        &self.value
    }
}

impl<T: Drop + Same> Same for Shared<T> {
    fn is_same(&self, other: &Shared<T>) -> bool {
        self.value().is_same(other.value())
    }
}
