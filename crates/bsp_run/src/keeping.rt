//! What a tape keeps of a superstep, and what comes after it.

ghost use Rattle.std.specs.Prelude.{◌≡◌, ◌≤◌, ◌==◌, ◌++◌, ◌∷◌, [], length, map, All, IfOk, OnOk, OnErr, None, Some, option_map, if◌then◌else◌};
ghost use Rattle.bsp_run.specs.Run.{phase_after, is_limit};

use crate::limit::is_limit;
use crate::{Phase, Status, Superstep, Views};
use bsp_model::{CostRow, OutOfMemory, Shared};
use bsp_step::Outcomes;
use std::mem;

/// What comes after the turns.
pub fn phase_after(end: Option<Status>) -> Phase
    ensures { result ≡ phase_after end }
{
    match end {
        None => Phase::Turned,
        Some(status) => Phase::Ended(status),
    }
}

/// Keeps the superstep that has ended and its cost, and puts the next views in its place. After `OutOfMemory` nothing has changed.
pub fn keep_superstep(
    past: &mut Vec<Superstep>,
    costs: &mut Vec<CostRow>,
    views: &mut Shared<Views>,
    outcomes: &mut Outcomes,
    next: Shared<Views>,
    row: CostRow,
) -> Result<(), OutOfMemory>
    ensures past { OnOk result (past.new.items
        ≡ past.old.items ++ record { views = views.old; outcomes = outcomes.old } ∷ []) }
    ensures costs { OnOk result (costs.new.items ≡ costs.old.items ++ row ∷ []) }
    ensures views { OnOk result (views.new ≡ next) }
    ensures outcomes { OnOk result (outcomes.new ≡ []) }
    ensures err_past { OnErr result (past.new.items ≡ past.old.items) }
    ensures err_costs { OnErr result (costs.new.items ≡ costs.old.items) }
    ensures err_views { OnErr result (views.new ≡ views.old) }
    ensures err_outcomes { OnErr result (outcomes.new ≡ outcomes.old) }
{
    past.reserve(1)?;
    costs.reserve(1)?;
    past.push_reserved(Superstep {
        views: mem::replace(views, next),
        outcomes: mem::replace(outcomes, Outcomes::new()),
    });
    costs.push_reserved(row);
    Ok(())
}

/// The outcomes of the superstep that ended the run; at the limit there is none such.
pub fn last_turn<'a>(phase: &Phase, outcomes: &'a Outcomes) -> Option<&'a Outcomes>
    ensures { option_map (λ o. o.now) result ≡ (if is_limit phase.now then None else Some outcomes.now) }
{
    if is_limit(phase) {
        None
    } else {
        Some(outcomes)
    }
}
