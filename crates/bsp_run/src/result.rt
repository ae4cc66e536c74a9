//! What a run gives.

ghost use Rattle.std.specs.Prelude.{◌≡◌};
ghost use Rattle.bsp_run.specs.declared.result.RunError.TheVariants.{OutOfMemory};

use crate::Lines;
use bsp_model::{
    CostRow, Fault, InputFault, Memories, OutOfMemory, Seq, SharedSeq, SyncFault, TryCopy,
};
use std::alloc::AllocError;
use thiserror::Error;

/// A fault of a process.
#[derive(Clone, Copy)]
pub struct ProcessFault {
    pub pid: u64,
    pub fault: Fault,
}

/// How a run ended.
#[derive(Drop)]
pub enum Status {
    Halted,
    /// The superstep limit was reached, after delivery.
    Limit,
    /// Some processes had a fault in this superstep: all faults of the superstep, by process.
    Faulted {
        step: u64,
        faults: Seq<ProcessFault>,
    },
    /// The end of this superstep had a fault.
    SyncFaulted {
        step: u64,
        fault: SyncFault,
    },
}

/// What a run gives to its user.
pub struct RunResult {
    /// How it ended.
    pub status: Status,
    /// The memory of each process, which `get` lends: after the last computing, or after the last delivery at `Limit`.
    pub memories: Memories,
    /// The lines of each process, one superstep after the other.
    pub lines: SharedSeq<Lines>,
    /// The cost of each superstep.
    pub costs: SharedSeq<CostRow>,
    /// The sum of the costs.
    pub total: u64,
}

// docs/DECISIONS.md says why it has a drop of its own.
impl Drop for RunResult {
    fn drop(self) {
        let Self {
            status,
            memories,
            lines,
            costs,
            total,
        } = self;
    }
}

/// Why a run gave nothing.
#[derive(Clone, Copy, Debug, PartialEq, Eq, Error)]
pub enum RunError {
    /// The input's own check answers this fault.
    #[error("the input is refused: {0}")]
    Input(InputFault),
    #[error("memory was refused")]
    OutOfMemory,
}

impl From<AllocError> for RunError {
    ghost from_gives = { λ _ e. e ≡ OutOfMemory };

    fn from(_error: AllocError) -> RunError {
        RunError::OutOfMemory
    }
}

impl TryCopy for ProcessFault {
    fn copy(&self) -> Result<ProcessFault, OutOfMemory> {
        Ok(*self)
    }
}

impl TryCopy for Status {
    fn copy(&self) -> Result<Status, OutOfMemory> {
        match self {
            Status::Halted => Ok(Status::Halted),
            Status::Limit => Ok(Status::Limit),
            Status::Faulted { step, faults } => Ok(Status::Faulted {
                step: *step,
                faults: faults.copy()?,
            }),
            Status::SyncFaulted { step, fault } => Ok(Status::SyncFaulted {
                step: *step,
                fault: *fault,
            }),
        }
    }
}
