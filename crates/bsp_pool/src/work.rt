//! What a phase works.

ghost use Rattle.std.specs.Prelude.{◌≡◌, IfOk};

use crate::OutOfMemory;
use std::alloc::Global;

/// A function of one input, which several threads may call at once.
pub trait Work: Sync {
    /// What a job is given.
    type In: Sync + Drop;

    /// What a job gives.
    type Out: Send + Drop;

    /// The inputs that `work` takes: the condition of its call.
    ghost accepts: { Self → Self.In → Type 0 };

    /// The output of an input.
    ghost does: { Self → Self.In → Self.Out };

    /// The output of this input, the same at each call.
    ///
    /// # Errors
    /// `OutOfMemory` where memory is refused. The next call with the same input may succeed.
    fn work(&self, alloc: Global, input: &Self::In) -> Result<Self::Out, OutOfMemory>
        requires { accepts self.now input.now }
        ensures { IfOk result (λ out. out ≡ does self.now input.now) };
}
