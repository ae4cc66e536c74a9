//! The replies to an input and to batches of edits.

ghost use Rattle.std.specs.Prelude.{◌≡◌, []};

use crate::EditRefusal;
use bsp_model::Seq;
use bsp_run::RunResult;
use std::alloc::Global;

/// A process in a superstep.
#[derive(Clone, Copy, PartialEq, Eq)]
pub struct Place {
    /// The number of the superstep, from 0.
    pub step: u64,
    /// The number of the process, from 0.
    pub pid: u64,
}

/// What was done again for a change.
#[derive(Drop)]
pub struct Update {
    /// The turns that were taken again, by superstep, then process.
    pub executed: Seq<Place>,
    /// The deliveries that were made again, by superstep, then process.
    pub redelivered: Seq<Place>,
}

impl Update {
    /// Nothing was done again.
    pub(crate) fn none(alloc: Global) -> Update
        ensures executed { result.executed ≡ [] }
        ensures redelivered { result.redelivered ≡ [] }
    {
        Update {
            executed: Seq::new(alloc),
            redelivered: Seq::new(alloc),
        }
    }
}

/// The reply to an input or to a batch.
#[derive(Drop)]
pub enum Reply {
    /// The run of the input as it is then. There is no update where the run was made afresh.
    Done {
        result: RunResult,
        update: Option<Update>,
    },
    /// The batch was refused, and nothing has changed.
    Refused(EditRefusal),
}
