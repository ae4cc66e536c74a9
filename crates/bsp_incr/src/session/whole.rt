//! A session from its input to its last batch, in one call.

ghost use Rattle.std.specs.Prelude.{◌≡◌, ◌<◌, ◌≤◌, ◌++◌, None, Some, IfOk, IfErr, OnOk};
ghost use Rattle.bsp_model.specs.Input.{input_fault};
ghost use Rattle.bsp_step.specs.Turn.{turn_of};
ghost use Rattle.bsp_run.specs.Run.{run};
ghost use Rattle.bsp_run.specs.Result.{result_of};
ghost use Rattle.bsp_run.specs.RunErrors.{input_fault_of};
ghost use Rattle.bsp_run.specs.TurnBy.{turn_by};
ghost use Rattle.bsp_incr.specs.Exact.{IsExact};
ghost use Rattle.bsp_incr.specs.Replies.{input_after, AreReplies, AreScratchReplies};
ghost use Rattle.bsp_incr.specs.Inside.Replies.{done, reply_to, replies_from, replies};

use super::replies::scratch_run_behind;
use crate::rerun::recorded_alone;
use crate::{Batch, EditError, Reply, Session, Update};
use bsp_crew::Workers;
use bsp_gate::{Gate, Open};
use bsp_model::limits::MOST_WORKERS;
use bsp_model::{Input, OutOfMemory};
use bsp_run::{History, RunError, RunResult};
use bsp_step::Program;
use std::alloc::{AllocError, Global};
use std::thread::Threads;

fn done(history: &History, update: Update) -> Result<Reply, OutOfMemory>
    ensures { IfOk result (λ reply. reply ≡ Reply.Done (result_of history.now) (Some update)) }
{
    Ok(Reply::Done {
        result: history.result()?,
        update: Some(update),
    })
}

fn reply<P: Program + Drop, R: Threads + Sync, G: Gate>(
    workers: &Workers<'_, R, G>,
    session: &mut Session<P>,
    batch: &Batch,
) -> Result<Reply, OutOfMemory>
    ensures program { OnOk result (session.new.program ≡ session.old.program) }
    ensures input { OnOk result (session.new.input ≡ input_after session.old.input batch.now) }
    ensures reply { IfOk result (λ reply. reply ≡ reply_to (P.looks session.old.program)
        (turn_by P.Program session.old.program) session.old.input batch.now) }
{
    // That the input is lawful, and the history its run, is known where they are read.
    let _input = session.input();
    let _history = session.history();
    match session.apply(
        workers.rt,
        workers.alloc,
        batch.as_slice(),
        workers.count,
        workers.gate,
    ) {
        Ok(update) => done(session.history(), update),
        Err(EditError::Refused(refusal)) => Ok(Reply::Refused(refusal)),
        Err(EditError::OutOfMemory) => Err(AllocError),
    }
}

fn opening_reply<P: Program + Drop>(
    session: &Session<P>,
    update: Update,
) -> Result<Reply, OutOfMemory>
    requires exact { IsExact (P.looks session.now.program) None session.now.history update }
    ensures { IfOk result (λ reply. reply ≡ done (P.looks session.now.program) None
        (run (turn_by P.Program session.now.program) session.now.input)) }
{
    // That the input is lawful is known where it is read.
    let _input = session.input();
    done(session.history(), update)
}

fn add_replies<P: Program + Drop, R: Threads + Sync, G: Gate>(
    workers: &Workers<'_, R, G>,
    session: &mut Session<P>,
    batches: &[Batch],
    all: &mut Vec<Reply>,
) -> Result<(), OutOfMemory>
    ensures { OnOk result (all.new.items ≡ all.old.items ++ replies_from (P.looks session.old.program)
        (turn_by P.Program session.old.program) session.old.input batches.now) }
{
    for batch in batches {
        let reply = reply(workers, session, batch)?;
        all.push(reply)?;
    }
    Ok(())
}

/// The replies to the opening of a session, of which this is the update, and to its batches.
fn all_replies<P: Program + Drop, R: Threads + Sync, G: Gate>(
    workers: &Workers<'_, R, G>,
    session: &mut Session<P>,
    update: Update,
    batches: &[Batch],
) -> Result<Vec<Reply>, OutOfMemory>
    requires exact { IsExact (P.looks session.old.program) None session.old.history update }
    ensures { IfOk result (λ all. all.items ≡ replies (P.looks session.old.program)
        (turn_by P.Program session.old.program) session.old.input batches.now) }
{
    let mut all = Vec::new(workers.alloc);
    let opening = opening_reply(session, update)?;
    all.push(opening)?;
    add_replies(workers, session, batches, &mut all)?;
    Ok(all)
}

/// The replies of a session: the opening first, then one for each batch. 1 to `MOST_WORKERS` workers share the turns and the deliveries.
/// `Input(f)` exactly where the input's check answers f, or `OutOfMemory`.
pub fn session_run<P: Program + Drop, R: Threads + Sync, G: Gate>(
    rt: &R,
    alloc: Global,
    program: P,
    input: Input,
    batches: &[Batch],
    workers: usize,
    gate: &G,
) -> Result<Vec<Reply>, RunError>
    requires workers { (0 < workers) × (workers ≤ MOST_WORKERS) }
    ensures law { IfOk result (λ all. AreReplies (P.looks program) (turn_of (P.acts program) (P.ending program))
        input batches.now all.items) }
    ensures lawful { OnOk result (input_fault input ≡ None) }
    ensures input { IfErr result (λ e. input_fault input ≡ input_fault_of e) }
{
    let (mut session, update) = Session::open(rt, alloc, program, input, workers, gate)?;
    let workers = Workers::new(rt, alloc, workers, gate);
    let replies = all_replies(&workers, &mut session, update, batches);
    drop(session);
    Ok(replies?)
}

/// The replies of `session_run` without their updates: each accepted input is run by itself on the calling thread, from its first superstep.
pub fn scratch_run<P: Program>(
    alloc: Global,
    program: &P,
    input: Input,
    batches: &[Batch],
) -> Result<Vec<Reply>, RunError>
    ensures law { IfOk result (λ all. AreScratchReplies (P.looks program.now)
        (turn_of (P.acts program.now) (P.ending program.now))
        input batches.now all.items) }
    ensures lawful { OnOk result (input_fault input ≡ None) }
    ensures input { IfErr result (λ e. input_fault input ≡ input_fault_of e) }
{
    let make = |input: &Input| -> Result<RunResult, OutOfMemory>
        requires { input_fault input.now ≡ None }
        ensures { IfOk result (λ given. given ≡ result_of (run (turn_of (P.acts program.entry.now)
            (P.ending program.entry.now)) input.entry.now)) }
    { recorded_alone(alloc, program, input, &Open)?.result() };
    scratch_run_behind(alloc, input, batches, &make, &Open)
}
