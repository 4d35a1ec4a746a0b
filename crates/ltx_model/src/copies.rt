//! Copies of lists and of what may be absent, item by item, for types that hold memory.

ghost use Rattle.std.specs.Prelude.{◌≡◌, IfOk};

use crate::memory::NoMemory;
use std::alloc::Global;

/// A type whose values can be copied where memory is found.
pub trait Copies: Drop {
    /// A value that equals this one.
    fn copy_of(&self) -> Result<Self, NoMemory>
        ensures equal { IfOk result (λ copy. copy ≡ self.now) };
}

/// Copies of all items, in their order.
pub fn copies_of<T: Copies>(alloc: Global, items: &[T]) -> Result<Vec<T>, NoMemory>
    ensures equal { IfOk result (λ copies. copies.items ≡ items.now) }
{
    let mut copies = Vec::with_capacity(alloc, items.len())?;
    for item in items {
        copies.push(item.copy_of()?)?;
    }
    Ok(copies)
}

/// A copy of what is there, if anything is.
pub fn copy_of_option<T: Copies>(option: &Option<T>) -> Result<Option<T>, NoMemory>
    ensures equal { IfOk result (λ copy. copy ≡ option.now) }
{
    match option {
        Some(item) => Ok(Some(item.copy_of()?)),
        None => Ok(None),
    }
}
