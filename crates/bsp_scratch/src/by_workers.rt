//! A run of which no record is kept, by several workers.

ghost use Rattle.std.specs.Prelude.{◌≡◌, None, IfOk};
ghost use Rattle.bsp_model.specs.Input.{input_fault};
ghost use Rattle.bsp_step.specs.Turn.{turn_of};
ghost use Rattle.bsp_crew.specs.Parts.{AreOfRun};
ghost use Rattle.bsp_run.specs.Run.{run};
ghost use Rattle.bsp_run.specs.TurnBy.{turn_by};
ghost use Rattle.bsp_scratch.specs.Inside.Underway.{IsUnderway};
ghost use Rattle.bsp_run.specs.Result.{result_of};

use crate::plain::{finish, lawful_result, result_at_end, supersteps};
use crate::unrecorded::Unrecorded;
use bsp_crew::{Crew, Means, Pace, SharedRun, Workers};
use bsp_gate::Gate;
use bsp_model::{Input, OutOfMemory, Shared, numbers};
use bsp_run::{Recording, RunResult, Views};
use bsp_step::Program;
use std::marker::Brand;
use std::thread::{Threads, join};

/// The result of a run that is under way, beside a crew that is there.
fn beside_crew<J: SharedRun + Send, P: Program, G: Gate, R: Threads + Sync>(
    workers: &Workers<'_, R, G>,
    program: &P,
    input: &Input,
    views: Shared<Views>,
    kept: Unrecorded,
    crew: &Crew<J>,
) -> Result<RunResult, OutOfMemory>
    requires lawful { input_fault input.now ≡ None }
    requires under_way { IsUnderway (turn_by P.Program program.now) input.now views kept }
    requires crew { AreOfRun (turn_by P.Program program.now) input.now J.turn J.views }
    ensures { IfOk result (λ r. r ≡ result_of (run (turn_by P.Program program.now) input.now)) }
{
    let (rt, alloc, gate) = (workers.rt, workers.alloc, workers.gate);
    let means = Means {
        alloc,
        program,
        gate,
    };
    let attend = ||
        requires { J.turn ≡ turn_by P.Program means.program.now }
    { crew.attend(rt, &means) };
    let conduct = move || -> Result<RunResult, OutOfMemory>
        requires lawful { input_fault input.now ≡ None }
        requires under_way { IsUnderway (turn_by P.Program program.now) input.now views kept }
        requires crew { AreOfRun (turn_by P.Program program.now) input.now J.turn J.views }
        ensures { IfOk result (λ r. r ≡ result_of (run (turn_by P.Program program.entry.now) input.entry.now)) }
    {
        let means = Means {
            alloc,
            program,
            gate,
        };
        let result = finish(&means, input, views, kept, Some(crew));
        crew.dismiss();
        result
    };
    // Where no thread can start, `join` calls its second closure first. The workers are dismissed then, so the first returns.
    join(rt, attend, conduct).1
}

/// The result of a run that is under way, by so many workers beside the calling thread.
fn by_crew<J: SharedRun + Send, P: Program, G: Gate, R: Threads + Sync>(
    workers: &Workers<'_, R, G>,
    program: &P,
    input: &Input,
    views: Shared<Views>,
    kept: Unrecorded,
    beside: usize,
) -> Result<RunResult, OutOfMemory>
    requires lawful { input_fault input.now ≡ None }
    requires under_way { IsUnderway (turn_by P.Program program.now) input.now views kept }
    requires run { AreOfRun (turn_by P.Program program.now) input.now J.turn J.views }
    ensures { IfOk result (λ r. r ≡ result_of (run (turn_by P.Program program.now) input.now)) }
{
    let crew: Option<Crew<J>> = Crew::new(workers.alloc, beside);
    let Some(crew) = crew else {
        let means = Means {
            alloc: workers.alloc,
            program,
            gate: workers.gate,
        };
        return finish::<Brand, P, G>(&means, input, views, kept, None);
    };
    beside_crew(workers, program, input, views, kept, &crew)
}

/// The result of `lawful_result`, by 1 to `MOST_WORKERS` workers, the calling thread among them. It goes on alone until workers are worth their start. Where
/// the gate tells no time they start at once.
pub fn wide_result<P: Program, G: Gate, R: Threads + Sync>(
    workers: &Workers<'_, R, G>,
    program: &P,
    input: &Input,
) -> Result<RunResult, OutOfMemory>
    requires lawful { input_fault input.now ≡ None }
    ensures { IfOk result (λ r. r ≡ result_of (run (turn_of (P.acts program.now) (P.ending program.now)) input.now)) }
{
    let (alloc, gate) = (workers.alloc, workers.gate);
    let useful = workers.useful(input.mems.len());
    if useful < 2 {
        return lawful_result(alloc, program, input, gate);
    }
    let processes = numbers(input.mems.len());
    let views = Shared::new(alloc, Views::first(alloc, input, Recording::None)?)?;
    let mut kept = Unrecorded::new(alloc, input, processes);
    let pace = Some(Pace::new(gate, Recording::None));
    let means = Means {
        alloc,
        program,
        gate,
    };
    let alone = supersteps::<Brand, P, G>(&means, input, views, &mut kept, None, pace);
    let views = match alone {
        Ok(views) => views,
        Err(error) => {
            drop(kept);
            return Err(error);
        }
    };
    if kept.is_over(input.limit) {
        return result_at_end(alloc, views, kept);
    }
    let beside = workers.beside(useful);
    by_crew::<Brand, P, G, R>(workers, program, input, views, kept, beside)
}
