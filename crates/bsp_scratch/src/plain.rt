//! A run of which no record is kept, on one thread or beside a crew.

ghost use Rattle.std.specs.Prelude.{◌≡◌, ◌≤◌, is_some, None, IfNone, IfOk, IfSome, OnOk, map};
ghost use Rattle.bsp_model.specs.Input.{input_fault};
ghost use Rattle.bsp_step.specs.Turn.{turn_of};
ghost use Rattle.bsp_crew.specs.Parts.{AreOfRun};
ghost use Rattle.bsp_run.specs.TurnBy.{turn_by};
ghost use Rattle.bsp_run.specs.Run.{Run, start, after_turns, open_views, run};
ghost use Rattle.bsp_scratch.specs.Inside.IsUnrecorded.{IsUnrecorded, HasEnded, AreTaken};
ghost use Rattle.bsp_scratch.specs.Inside.Underway.{IsUnderway, Stands};
ghost use Rattle.bsp_run.specs.Result.{result_of};

use crate::unrecorded::{Unrecorded, all_turns};
use bsp_crew::{Crew, Means, Pace, SharedRun, calls_workers};
use bsp_gate::Gate;
use bsp_model::{Input, OutOfMemory, Shared, numbers};
use bsp_run::{Phase, Recording, RunResult, Views};
use bsp_step::Program;
use std::alloc::Global;
use std::marker::Brand;

/// Takes the turns of the open superstep of a run of which no record is kept, in which the processes see these views.
fn unrecorded_turns<J: SharedRun, P: Program, G: Gate>(
    means: &Means<'_, P, G>,
    views: &Shared<Views>,
    kept: &mut Unrecorded,
    crew: Option<&Crew<J>>,
) -> Result<(), OutOfMemory>
    requires opened { (r : Run) × ((r.phase ≡ Phase.Open) × IsUnrecorded r views.now kept.old) }
    requires turn { IfSome crew (λ _. J.turn ≡ turn_by P.Program means.now.program.now) }
    requires seen { IfSome crew (λ _. views.now ≡ J.views kept.old.step) }
    ensures step { kept.new.step ≡ kept.old.step }
    ensures taken { (r : Run) → r.phase ≡ Phase.Open → IsUnrecorded r views.now kept.old
        → OnOk result (AreTaken (is_some kept.new.end)
        (after_turns r (map (turn_by P.Program means.now.program.now) (open_views r))) views.now kept.new) }
{
    let (step, processes) = (kept.step, kept.processes);
    all_turns(means, views, processes, &mut kept.taken, step, crew)?;
    kept.end = views.end(means.alloc, &kept.taken.outcomes)?;
    Ok(())
}

/// The supersteps that are left of a run; with a pace, those until workers are worth their start. It answers the views at which they end.
pub(crate) fn supersteps<J: SharedRun, P: Program, G: Gate>(
    means: &Means<'_, P, G>,
    input: &Input,
    mut views: Shared<Views>,
    kept: &mut Unrecorded,
    crew: Option<&Crew<J>>,
    mut pace: Option<Pace>,
) -> Result<Shared<Views>, OutOfMemory>
    requires lawful { input_fault input.now ≡ None }
    requires under_way { IsUnderway (turn_by P.Program means.now.program.now) input.now views kept.old }
    requires crew { IfSome crew (λ _. AreOfRun (turn_by P.Program means.now.program.now) input.now J.turn J.views) }
    ensures stands { IfOk result
        (λ next. Stands (turn_by P.Program means.now.program.now) input.now next kept.new kept.new.end) }
    ensures over { IfNone pace (IfOk result (λ _. kept.new.end ≡ None → input.now.limit ≤ kept.new.step)) }
{
    for _step in kept.step..input.limit {
        if calls_workers(&mut pace, means.gate) {
            return Ok(views);
        }
        unrecorded_turns(means, &views, kept, crew)?;
        if kept.end.is_some() {
            return Ok(views);
        }
        views = kept.go_on(means.alloc, views)?;
    }
    Ok(views)
}

pub(crate) fn result_at_end(
    alloc: Global,
    views: Shared<Views>,
    mut kept: Unrecorded,
) -> Result<RunResult, OutOfMemory>
    requires ended { (r : Run) × HasEnded kept.end r views kept }
    ensures { (r : Run) → HasEnded kept.end r views kept → IfOk result (λ given. given ≡ result_of r) }
{
    kept.result(alloc, &views)
}

pub(crate) fn finish<J: SharedRun, P: Program, G: Gate>(
    means: &Means<'_, P, G>,
    input: &Input,
    views: Shared<Views>,
    mut kept: Unrecorded,
    crew: Option<&Crew<J>>,
) -> Result<RunResult, OutOfMemory>
    requires lawful { input_fault input.now ≡ None }
    requires under_way { IsUnderway (turn_by P.Program means.now.program.now) input.now views kept }
    requires crew { IfSome crew (λ _. AreOfRun (turn_by P.Program means.now.program.now) input.now J.turn J.views) }
    ensures { IfOk result (λ r. r ≡ result_of (run (turn_by P.Program means.now.program.now) input.now)) }
{
    let views = supersteps(means, input, views, &mut kept, crew, None)?;
    result_at_end(means.alloc, views, kept)
}

/// The result of the run of a program on an input that is known to be lawful. It keeps no record of the run: beside the lines and the costs, memory for
/// one superstep. The gate is passed before each turn.
pub fn lawful_result<P: Program, G: Gate>(
    alloc: Global,
    program: &P,
    input: &Input,
    gate: &G,
) -> Result<RunResult, OutOfMemory>
    requires lawful { input_fault input.now ≡ None }
    ensures { IfOk result (λ r. r ≡ result_of (run (turn_of (P.acts program.now) (P.ending program.now)) input.now)) }
{
    let processes = numbers(input.mems.len());
    let views = Shared::new(alloc, Views::first(alloc, input, Recording::None)?)?;
    let kept = Unrecorded::new(alloc, input, processes);
    let means = Means {
        alloc,
        program,
        gate,
    };
    finish::<Brand, P, G>(&means, input, views, kept, None)
}
