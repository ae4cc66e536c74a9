//! Values that can be copied and compared as wholes.

ghost use Rattle.std.specs.Prelude.{◌≡◌, IfOk, IsTrue, ◌↔◌};

use crate::OutOfMemory;

/// A value that can be copied where memory suffices.
pub trait TryCopy: Drop {
    /// An equal value, or `OutOfMemory`.
    fn copy(&self) -> Result<Self, OutOfMemory>
        ensures { IfOk result (λ c. c ≡ self.now) };
}

/// A value that can be compared with another as a whole, which takes no memory.
pub trait Same {
    /// Whether the two values are equal.
    fn same(&self, other: &Self) -> bool
        ensures { IsTrue result ↔ (self.now ≡ other.now) };
}

impl TryCopy for u64 {
    fn copy(&self) -> Result<u64, OutOfMemory> {
        Ok(*self)
    }
}

impl Same for u64 {
    fn same(&self, other: &u64) -> bool {
        *self == *other
    }
}

impl TryCopy for usize {
    fn copy(&self) -> Result<usize, OutOfMemory> {
        Ok(*self)
    }
}

impl Same for usize {
    fn same(&self, other: &usize) -> bool {
        *self == *other
    }
}

impl<A: Same, B: Same> Same for (A, B) {
    fn same(&self, other: &(A, B)) -> bool {
        self.0.same(&other.0) && self.1.same(&other.1)
    }
}
