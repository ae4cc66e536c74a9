//! A part of a memory.

use bsp_model::{OutOfMemory, Same, TryCopy};

/// A part of a process's memory, in words.
#[derive(Clone, Copy, PartialEq, Eq)]
pub struct Area {
    pub start: u64,
    /// The number of its words. It may be 0.
    pub len: u64,
}

impl TryCopy for Area {
    fn copy(&self) -> Result<Area, OutOfMemory> {
        Ok(*self)
    }
}

impl Same for Area {
    fn same(&self, other: &Area) -> bool {
        *self == *other
    }
}
