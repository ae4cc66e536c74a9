//! The superstep limit of a recorded run.

ghost use Rattle.std.specs.Prelude.{◌≡◌, ◌==◌, if◌then◌else◌};
ghost use Rattle.bsp_run.specs.Run.{is_limit};

use crate::{Phase, Status};

/// What comes after the delivery of so many supersteps: the run ends where they reach the limit. A recorded run reads its limit nowhere else, so a lower
/// limit cuts it here.
pub fn phase_at(steps: u64, limit: u64) -> Phase
    ensures { result ≡ (if steps == limit then Phase.Ended Status.Limit else Phase.Open) }
{
    if steps == limit {
        Phase::Ended(Status::Limit)
    } else {
        Phase::Open
    }
}

/// Whether the run has ended at the limit.
pub fn is_limit(phase: &Phase) -> bool
    ensures { result ≡ is_limit phase.now }
{
    matches!(phase, Phase::Ended(Status::Limit))
}
