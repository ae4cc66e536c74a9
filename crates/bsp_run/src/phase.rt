//! What comes next in a run.

use crate::Status;

/// What comes next in a run.
#[derive(Drop)]
pub enum Phase {
    /// The turns of the open superstep.
    Open,
    /// The deliveries of the open superstep.
    Turned,
    /// Nothing: the run has ended.
    Ended(Status),
}
