//! Why a batch was not applied.

ghost use Rattle.std.specs.Prelude.{◌≡◌};
ghost use Rattle.bsp_incr.specs.declared.edit.error.EditError.TheVariants.{OutOfMemory};

use crate::EditRefusal;
use std::alloc::AllocError;
use thiserror::Error;

/// Why a batch was not applied.
#[derive(Clone, Copy, Debug, PartialEq, Eq, Error)]
pub enum EditError {
    /// The batch is not accepted.
    #[error("the batch is refused: {0}")]
    Refused(EditRefusal),
    #[error("memory was refused")]
    OutOfMemory,
}

impl From<AllocError> for EditError {
    ghost from_gives = { λ _ e. e ≡ OutOfMemory };

    fn from(_error: AllocError) -> EditError {
        EditError::OutOfMemory
    }
}
