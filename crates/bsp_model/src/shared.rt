//! Values, and lists of them, that their copies share.

ghost use Rattle.std.specs.Prelude.{◌≡◌, [], length, IfErr, IfOk, nat_eq};

use crate::{OutOfMemory, Same, TryCopy, are_same};
use std::alloc::Global;
use std::marker::Model;
use std::ops::Deref;
use std::sync::Arc;

/// A value that stays as it is. Its copies share it, so that a copy takes no memory.
#[derive(Drop)]
pub struct Shared<T> {
    value: Arc<T, Global>,
}

impl<T> Model for Shared<T> {
    ghost use Rattle.std.specs.Arc.{arc_value};

    ghost Value = { T };

    ghost view = { λ s. arc_value s.value };
}

impl<T> Deref for Shared<T> {
    type Target = T;

    ghost deref_gives = { λ s x. x ≡ s };

    fn deref(&self) -> &T {
        &self.value
    }
}

impl<T: Drop> Shared<T> {
    /// This value, or `OutOfMemory`.
    pub fn new(alloc: Global, value: T) -> Result<Shared<T>, OutOfMemory>
        ensures { IfOk result (λ s. s ≡ value) }
    {
        Ok(Shared {
            value: Arc::new(alloc, value)?,
        })
    }

    /// The value itself, where no copy shares it; else this, as it was.
    pub fn try_unwrap(self) -> Result<T, Shared<T>>
        ensures value { IfOk result (λ value. value ≡ self) }
        ensures shared { IfErr result (λ shared. shared ≡ self) }
    {
        match Arc::try_unwrap(self.value) {
            Ok(value) => Ok(value),
            Err(value) => Err(Shared { value }),
        }
    }
}

impl<T: Drop> TryCopy for Shared<T> {
    fn copy(&self) -> Result<Shared<T>, OutOfMemory> {
        let value = Arc::try_clone(&self.value)?;
        Ok(Shared { value })
    }
}

/// A list of values that stays as it is. Its copies share the values, so that a copy takes no memory.
pub struct SharedSeq<T> {
    /// None where there is no value.
    pub(crate) items: Option<Arc<Vec<T>, Global>>,
}

impl<T: Drop> Drop for SharedSeq<T> {
    fn drop(self) {
        let Self { items } = self;
    }
}

impl<T> Model for SharedSeq<T> {
    ghost use Rattle.std.specs.Prelude.{List};
    ghost use Rattle.bsp_model.specs.Inside.Shared.{items_of};

    ghost Value = { List T };

    ghost view = { λ s. items_of s.items };
}

impl<T> SharedSeq<T> {
    /// The empty list, which takes no memory.
    #[inline(always)]
    pub fn new() -> SharedSeq<T>
        ensures { result ≡ [] }
    {
        SharedSeq { items: None }
    }

    /// The items.
    #[inline(always)]
    pub fn as_slice(&self) -> &[T]
        ensures { result.now ≡ self.now }
    {
        match &self.items {
            Some(items) => items.as_slice(),
            None => &[],
        }
    }

    /// The number of items.
    #[inline(always)]
    pub fn len(&self) -> usize
        ensures { result ≡ length self.now }
    {
        self.as_slice().len()
    }

    /// Whether there is no item.
    #[inline(always)]
    pub fn is_empty(&self) -> bool
        ensures { result ≡ nat_eq (length self.now) 0 }
    {
        self.len() == 0
    }
}

impl<T: Drop> SharedSeq<T> {
    /// The list of these items, or `OutOfMemory`. The empty list takes no memory.
    pub fn try_from_vec(items: Vec<T>) -> Result<SharedSeq<T>, OutOfMemory>
        ensures { IfOk result (λ s. s ≡ items.items) }
    {
        if items.is_empty() {
            return Ok(SharedSeq::new());
        }
        let items = Arc::new(*items.allocator(), items)?;
        Ok(SharedSeq { items: Some(items) })
    }
}

impl<T: Drop> TryCopy for SharedSeq<T> {
    fn copy(&self) -> Result<SharedSeq<T>, OutOfMemory> {
        match &self.items {
            Some(items) => Ok(SharedSeq {
                items: Some(Arc::try_clone(items)?),
            }),
            None => Ok(SharedSeq { items: None }),
        }
    }
}

impl<T: Same> Same for SharedSeq<T> {
    fn same(&self, other: &SharedSeq<T>) -> bool {
        are_same(self.as_slice(), other.as_slice())
    }
}
