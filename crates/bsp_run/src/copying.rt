//! Lists of copies.

ghost use Rattle.std.specs.Prelude.{◌≡◌, IfOk};

use bsp_model::{OutOfMemory, TryCopy};
use std::alloc::Global;

/// A list of copies.
pub fn copied<T: TryCopy>(alloc: Global, items: &[T]) -> Result<Vec<T>, OutOfMemory>
    ensures { IfOk result (λ all. all.items ≡ items.now) }
{
    let mut all = Vec::with_capacity(alloc, items.len())?;
    for item in items {
        all.push_reserved(item.copy()?);
    }
    Ok(all)
}
