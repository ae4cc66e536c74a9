//! The replies of a session, by runs made afresh.

ghost use Rattle.std.specs.Prelude.{◌≡◌, ◌++◌, ◌∷◌, [], ℕ, Bool, None, IfOk, IfErr, OnOk, map};
ghost use Rattle.bsp_model.specs.Input.{input_fault};
ghost use Rattle.bsp_step.specs.ViewParts.{ViewParts};
ghost use Rattle.bsp_step.specs.OutcomeParts.{OutcomeParts};
ghost use Rattle.bsp_run.specs.Run.{run};
ghost use Rattle.bsp_run.specs.Result.{result_of};
ghost use Rattle.bsp_run.specs.RunErrors.{input_fault_of};
ghost use Rattle.bsp_incr.specs.Replies.{input_after, without_update, AreScratchReplies, MakesRuns};
ghost use Rattle.bsp_incr.specs.Inside.Replies.{reply_to, replies};

use crate::edit::{make_edits, refusal_of};
use crate::{Batch, Reply};
use bsp_crew::DEPTH_OF_RUNS;
use bsp_gate::Gate;
use bsp_model::{Input, OutOfMemory};
use bsp_run::{RunError, RunResult};
use std::alloc::Global;

/// Adds the reply that gives the run of a lawful input, made afresh by `make`.
fn push_run<F: Fn(&Input) -> Result<RunResult, OutOfMemory>>(
    all: &mut Vec<Reply>,
    input: &Input,
    make: &F,
) -> Result<(), OutOfMemory>
    requires lawful { input_fault input.now ≡ None }
    requires makes { (turn : ViewParts → OutcomeParts) × MakesRuns F.Fn make.now turn }
    ensures { (turn : ViewParts → OutcomeParts) → MakesRuns F.Fn make.now turn
        → OnOk result (all.new.items ≡ all.old.items ++ Reply.Done (result_of (run turn input.now)) None ∷ []) }
{
    let result = make(input)?;
    all.push(Reply::Done {
        result,
        update: None,
    })?;
    Ok(())
}

/// Adds the reply to a batch, by a run made afresh where the batch is accepted.
fn push_reply<F: Fn(&Input) -> Result<RunResult, OutOfMemory>>(
    all: &mut Vec<Reply>,
    alloc: Global,
    input: &mut Input,
    batch: &Batch,
    make: &F,
) -> Result<(), OutOfMemory>
    requires lawful { input_fault input.old ≡ None }
    requires makes { (turn : ViewParts → OutcomeParts) × MakesRuns F.Fn make.now turn }
    ensures input { OnOk result (input.new ≡ input_after input.old batch.now) }
    ensures reply { (looks : ViewParts → ℕ → Bool) (turn : ViewParts → OutcomeParts) → MakesRuns F.Fn make.now turn
        → OnOk result (all.new.items ≡ all.old.items ++ without_update (reply_to looks turn input.old batch.now) ∷ []) }
    ensures lawful { OnOk result (input_fault input.new ≡ None) }
{
    if let Some(refusal) = refusal_of(input, batch.as_slice()) {
        all.push(Reply::Refused(refusal))?;
        return Ok(());
    }
    make_edits(alloc, input, batch.as_slice())?;
    push_run(all, input, make)
}

fn push_replies<G: Gate, F: Fn(&Input) -> Result<RunResult, OutOfMemory>>(
    all: &mut Vec<Reply>,
    alloc: Global,
    input: &mut Input,
    batches: &[Batch],
    make: &F,
    gate: &G,
) -> Result<(), OutOfMemory>
    requires none { all.old.items ≡ [] }
    requires lawful { input_fault input.old ≡ None }
    requires makes { (turn : ViewParts → OutcomeParts) × MakesRuns F.Fn make.now turn }
    ensures { (looks : ViewParts → ℕ → Bool) (turn : ViewParts → OutcomeParts) → MakesRuns F.Fn make.now turn
        → OnOk result (all.new.items ≡ map without_update (replies looks turn input.old batches.now)) }
{
    push_run(all, input, make)?;
    for batch in batches {
        gate.enter(DEPTH_OF_RUNS, all.len() as u64);
        push_reply(all, alloc, input, batch, make)?;
    }
    Ok(())
}

/// The replies of a session to its opening and to these batches, without their updates: `make` makes the run of each accepted input from its first
/// superstep. The gate is told of each run. `Input(f)` exactly where the input's check answers f, or `OutOfMemory`.
pub fn scratch_run_behind<G: Gate, F: Fn(&Input) -> Result<RunResult, OutOfMemory>>(
    alloc: Global,
    mut input: Input,
    batches: &[Batch],
    make: &F,
    gate: &G,
) -> Result<Vec<Reply>, RunError>
    requires makes { (turn : ViewParts → OutcomeParts) × MakesRuns F.Fn make.now turn }
    ensures law { (looks : ViewParts → ℕ → Bool) (turn : ViewParts → OutcomeParts) → MakesRuns F.Fn make.now turn
        → IfOk result (λ all. AreScratchReplies looks turn input batches.now all.items) }
    ensures lawful { OnOk result (input_fault input ≡ None) }
    ensures input { IfErr result (λ e. input_fault input ≡ input_fault_of e) }
{
    match input.check() {
        Ok(()) => {}
        Err(fault) => {
            drop(input);
            return Err(RunError::Input(fault));
        }
    }
    let mut all = Vec::new(alloc);
    let pushed = push_replies(&mut all, alloc, &mut input, batches, make, gate);
    drop(input);
    match pushed {
        Ok(()) => Ok(all),
        Err(error) => {
            drop(all);
            Err(error.into())
        }
    }
}
