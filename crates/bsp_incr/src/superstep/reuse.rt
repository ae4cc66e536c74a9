//! What a recorded turn leaves over a new memory.

ghost use Rattle.std.specs.Prelude.{◌≡◌, ◌<◌, ◌++◌, ◌∷◌, [], OnOk, false, length, map, slice_index_or};
ghost use Rattle.bsp_run.specs.Condition.{no_view};
ghost use Rattle.bsp_run.specs.TurnBy.{turn_by};
ghost use Rattle.bsp_incr.specs.Inside.OpenSuperstep.{differs_now};

use crate::compare::OpenSuperstep;
use bsp_model::OutOfMemory;
use bsp_step::{OutcomeRows, Outcomes, Program};

/// Adds the outcome of a process whose recorded turn serves, without a call of the program: the recorded stores are replayed on the memory that the
/// process sees now.
pub fn add_reused_turn<P: Program>(
    rows: &mut OutcomeRows,
    program: &P,
    superstep: &OpenSuperstep<'_, '_>,
    old_outcomes: &Outcomes,
    p: usize,
) -> Result<(), OutOfMemory>
    requires place { p < length superstep.now.views.now }
    requires recorded { old_outcomes.now ≡ map (turn_by P.Program program.now) superstep.now.old_views }
    requires serves { differs_now (P.looks program.now) superstep.now p ≡ false }
    ensures { OnOk result (rows.new ≡ rows.old
        ++ turn_by P.Program program.now (slice_index_or superstep.now.views.now p no_view) ∷ []) }
{
    let recorded = superstep.old_views.get(p);
    // That a view keeps its limits is known where a field of it is read.
    let _step = recorded.step;
    let outcome = old_outcomes.get(p);
    let view = superstep.views.get(p);
    let mut memory = view.memory.to_memory()?;
    outcome.stores.replay_on(&mut memory)?;
    rows.push_over(&outcome, &mut memory)
}
