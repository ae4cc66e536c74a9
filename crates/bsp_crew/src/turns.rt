//! The turns of a superstep, by the calling thread or by a crew beside it.

ghost use Rattle.std.specs.Prelude.{◌≡◌, ◌<◌, ◌++◌, All, IfOk, IfSome, OnOk, length};
ghost use Rattle.bsp_run.specs.Shares.{turns_of};
ghost use Rattle.bsp_run.specs.TurnBy.{turn_by};

use crate::crew::Crew;
use crate::part::Part;
use crate::shared_run::SharedRun;
use crate::task::{Made, Means, Task};
use bsp_gate::Gate;
use bsp_model::{OutOfMemory, Shared, TryCopy};
use bsp_run::Views;
use bsp_step::{Gathering, OutcomeRows, Program, add_turn};
use std::alloc::{AllocError, Global};

/// At this depth a gate is told of a session's runs: of that of the opening as 0, of those of the batches by their numbers from 1 on.
pub const DEPTH_OF_RUNS: usize = 0;

/// At this depth a gate is told of a run's supersteps, by their numbers from 0 on.
pub const DEPTH_OF_SUPERSTEPS: usize = 1;

fn spare_of(alloc: Global, spare: &mut Option<Gathering>) -> Result<Gathering, OutOfMemory> {
    match spare.take() {
        Some(gathering) => Ok(gathering),
        None => Gathering::new(alloc),
    }
}

impl<'a, P: Program, G: Gate> Means<'a, P, G> {
    /// Adds the turns of the processes of a part to `rows`, by this thread. The gate is passed before each turn, with its place in the superstep's
    /// list. The turns are taken in the spare lists, if there are any. After `OutOfMemory` there are none.
    pub(crate) fn take_turns(
        &self,
        views: &Views,
        part: &Part<'_>,
        spare: &mut Option<Gathering>,
        rows: &mut OutcomeRows,
    ) -> Result<(), OutOfMemory>
        requires { All (λ p. p < length views.now) part.now.processes.now }
        ensures { OnOk result (rows.new ≡ rows.old
            ++ turns_of (turn_by P.Program self.now.program.now) views.now part.now.processes.now) }
    {
        let mut gathering = spare_of(self.alloc, spare)?;
        gathering.swap(rows);
        for (place, process) in part.processes.iter().enumerate() {
            self.gate.pass(part.first + place);
            gathering = add_turn(self.alloc, self.program, &views.get(*process), gathering)?;
        }
        gathering.swap(rows);
        spare.insert(gathering);
        Ok(())
    }
}

impl<J: SharedRun> Crew<J> {
    /// The outcomes of `rows`, and behind them the turns of the processes of a list of two or more.
    fn take_turns<P: Program, G: Gate>(
        &self,
        means: &Means<'_, P, G>,
        rows: OutcomeRows,
        spare: &mut Option<Gathering>,
        views: &Shared<Views>,
        whole: &Part<'_>,
    ) -> Result<OutcomeRows, OutOfMemory>
        requires processes { All (λ p. p < length views.now) whole.now.processes.now }
        requires turn { J.turn ≡ turn_by P.Program means.now.program.now }
        requires seen { views.now ≡ J.views whole.now.step }
        ensures { IfOk result (λ all. all
            ≡ rows ++ turns_of (turn_by P.Program means.now.program.now) views.now whole.now.processes.now) }
    {
        let Ok(copy) = views.copy() else {
            drop(rows);
            return Err(AllocError);
        };
        let (task, mut made) = (Task::Turns(copy), Made::Taken(rows));
        let worked = self.work_units(means, &task, whole, spare, &mut made);
        drop(task);
        match (worked, made) {
            (Ok(()), Made::Taken(rows)) => Ok(rows),
            (Ok(()), Made::Delivered(_)) => unreachable!(),
            (Err(error), _) => Err(error),
        }
    }
}

/// The outcomes of `rows`, and behind them the turns of some processes, in the order of the list. Where there is a crew, its workers take turns beside
/// the calling thread. `processes` are places in `views`, which are those of superstep `step`. Whoever takes the turn at the place k of the list,
/// counted from 0, passes the gate with k before. The calling thread takes its turns in the spare lists, if there are any.
///
/// # Errors
/// `OutOfMemory` where the calling thread is refused memory for a turn that no worker hands in, or to add the turns.
pub fn wide_turns<J: SharedRun, P: Program, G: Gate>(
    means: &Means<'_, P, G>,
    mut rows: OutcomeRows,
    spare: &mut Option<Gathering>,
    views: &Shared<Views>,
    processes: &[usize],
    step: u64,
    crew: Option<&Crew<J>>,
) -> Result<OutcomeRows, OutOfMemory>
    requires processes { All (λ p. p < length views.now) processes.now }
    requires turn { IfSome crew (λ _. J.turn ≡ turn_by P.Program means.now.program.now) }
    requires seen { IfSome crew (λ _. views.now ≡ J.views step) }
    ensures { IfOk result (λ all. all
        ≡ rows ++ turns_of (turn_by P.Program means.now.program.now) views.now processes.now) }
{
    means.gate.enter(DEPTH_OF_SUPERSTEPS, step);
    let whole = Part {
        step,
        processes,
        first: 0,
    };
    match crew {
        Some(crew) if processes.len() > 1 => crew.take_turns(means, rows, spare, views, &whole),
        _ => {
            let taken = means.take_turns(views, &whole, spare, &mut rows);
            taken.and(Ok(rows))
        }
    }
}
