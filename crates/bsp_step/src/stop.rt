//! Why an acting call did not act.

ghost use Rattle.std.specs.Prelude.{◌≡◌};
ghost use Rattle.bsp_step.specs.Calls.{settled};
ghost use Rattle.bsp_step.specs.declared.stop.Stop.TheVariants.{OutOfMemory};

use bsp_model::End;
use std::alloc::{AllocError, AllocFailed};
use thiserror::Error;

/// Why an acting call of a context did not act.
#[derive(Clone, Copy, Debug, PartialEq, Eq, Error)]
pub enum Stop {
    /// This fault is kept: the call's own, or that of an earlier call.
    #[error("the process has a fault: {0}")]
    Fault(bsp_model::Fault),
    /// Memory was refused. The context is as it was before the call.
    #[error("memory was refused")]
    OutOfMemory,
}

impl From<AllocError> for Stop {
    ghost from_gives = { λ _ s. s ≡ OutOfMemory };

    fn from(_error: AllocError) -> Stop {
        Stop::OutOfMemory
    }
}

impl<T: Drop> From<AllocFailed<T>> for Stop {
    ghost from_gives = { λ _ s. s ≡ OutOfMemory };

    fn from(_error: AllocFailed<T>) -> Stop {
        Stop::OutOfMemory
    }
}

/// The answer of a step whose calls are written with `?`: an end stays, a fault becomes `Halt` (the context keeps the fault), and want of memory stays.
pub fn settle(answer: Result<End, Stop>) -> Result<End, AllocError>
    ensures { result ≡ settled answer }
{
    match answer {
        Ok(how) => Ok(how),
        Err(Stop::Fault(_)) => Ok(End::Halt),
        Err(Stop::OutOfMemory) => Err(AllocError),
    }
}
