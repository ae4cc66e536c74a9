//! The blocks of a report, and the report of a job.

ghost use Rattle.std.specs.Prelude.{◌≡◌, ◌++◌, IfOk, OnOk, map, option_map, ◌<◌, ◌≤◌, IfErr, None, false, true};
ghost use Rattle.bsp_engine.specs.Blocks.{reply_lines, compared_result, text_of};
ghost use Rattle.bsp_engine.specs.Told.{alone};
ghost use Rattle.bsp_model.specs.Input.{input_fault};
ghost use Rattle.bsp_step.specs.Turn.{turn_of};
ghost use Rattle.bsp_run.specs.Run.{run};
ghost use Rattle.bsp_run.specs.Result.{result_of};
ghost use Rattle.bsp_run.specs.RunErrors.{input_fault_of};
ghost use Rattle.bsp_incr.specs.Replies.{AreScratchReplies};
ghost use Rattle.bsp_engine.specs.Inside.Replies.{job_told, replies_of};

use crate::block_lines::push_refusal;
use crate::change_lines::{push_changes, push_result};
use crate::jobs::Job;
use crate::live_blocks::begin;
use crate::update_lines::push_update_alone;
use bsp_crew::Workers;
use bsp_gate::{Gate, let_go};
use bsp_incr::{Batch, Reply, scratch_run_behind};
use bsp_model::{Input, OutOfMemory};
use bsp_options::Detail;
use bsp_run::{RunError, RunResult};
use bsp_scratch::wide_result;
use bsp_step::Program;
use bsp_text::push_line;
use std::alloc::{AllocError, Global};
use std::thread::Threads;

fn push_reply(
    text: &mut Vec<u8>,
    places: bool,
    before: Option<&RunResult>,
    reply: &Reply,
) -> Result<(), OutOfMemory>
    ensures { OnOk result (text.new.items ≡ text.old.items ++ reply_lines places (option_map
        (λ r. r.now) before.entry) (alone reply.now)) }
{
    match reply {
        Reply::Done {
            result: run,
            update,
        } => {
            match before {
                None => push_result(text, run)?,
                Some(old) => push_changes(text, old, run)?,
            }
            push_update_alone(text, places, update)
        }
        Reply::Refused(refusal) => push_refusal(text, *refusal),
    }
}

/// With changes, the result that the next block is compared with: that of the last block that was not refused.
fn compared_result<'a>(
    changes: bool,
    before: Option<&'a RunResult>,
    reply: &'a Reply,
) -> Option<&'a RunResult>
    ensures { option_map (λ r. r.now) result ≡ compared_result changes (option_map
        (λ r. r.now) before.entry) reply.now }
{
    match reply {
        Reply::Done {
            result: run,
            update: _,
        } => { if changes { Some(run) } else { None } }
        Reply::Refused(_) => before,
    }
}

fn push_report(text: &mut Vec<u8>, replies: &[Reply], detail: Detail) -> Result<(), OutOfMemory>
    ensures { OnOk result (text.new.items ≡ text.old.items ++ text_of detail (map alone replies.now)) }
{
    let mut before = None;
    for (number, reply) in replies.iter().enumerate() {
        push_line(text, "run", &[number as u64])?;
        push_reply(text, detail.places, before, reply)?;
        before = compared_result(detail.changes, before, reply);
    }
    Ok(())
}

/// The text of a report: for each reply a block of lines, which ends with LF. With places each update tells its turns and its deliveries. With
/// changes each block after the first tells only the differences from the last block before it that has a status.
pub fn report(alloc: Global, replies: &[Reply], detail: Detail) -> Result<Vec<u8>, OutOfMemory>
    ensures { IfOk result (λ text. text.items ≡ text_of detail (map alone replies.now)) }
{
    let mut text = Vec::new(alloc);
    let pushed = push_report(&mut text, replies, detail);
    pushed.and(Ok(text))
}

fn replies_by_runs<P: Program, R: Threads + Sync, G: Gate>(
    workers: &Workers<'_, R, G>,
    program: &P,
    input: Input,
    batches: &[Batch],
) -> Result<Vec<Reply>, RunError>
    ensures law { IfOk result (λ all. AreScratchReplies (P.looks program.now)
        (turn_of (P.acts program.now) (P.ending program.now))
        input batches.now all.items) }
    ensures lawful { OnOk result (input_fault input ≡ None) }
    ensures input { IfErr result (λ e. input_fault input ≡ input_fault_of e) }
{
    let make = |input: &Input| -> Result<RunResult, OutOfMemory>
        requires { input_fault input.now ≡ None }
        ensures { IfOk result (λ given. given ≡ result_of (run (turn_of (P.acts program.entry.now)
            (P.ending program.entry.now)) input.entry.now)) }
    { wide_result(workers, program, input) };
    scratch_run_behind(workers.alloc, input, batches, &make, workers.gate)
}

#[tactic(auto, using(bsp_incr::proofs::Replying::scratch_replies_fixed), unfolding(crate::specs::Inside::Replies::replies_of))]
fn scratch_replies<P: Program + Drop, R: Threads + Sync, G: Gate>(
    workers: &Workers<'_, R, G>,
    job: Job<P>,
) -> Result<Vec<Reply>, OutOfMemory>
    requires lawful { input_fault job.input ≡ None }
    ensures { IfOk result (λ all. all.items ≡ replies_of P.acts P.ending P.looks true job) }
{
    let Job {
        program,
        input,
        batches,
    } = job;
    match replies_by_runs(workers, &program, input, batches.as_slice()) {
        Ok(replies) => Ok(replies),
        Err(RunError::Input(_)) => unreachable!(),
        Err(RunError::OutOfMemory) => Err(AllocError),
    }
}

/// Leaves nothing in a text but the report of a job: by a session, which is let go, or from scratch, where no update is told.
pub fn put_report<P: Program + Drop, R: Threads + Sync, G: Gate>(
    workers: &Workers<'_, R, G>,
    scratch: bool,
    detail: Detail,
    job: Job<P>,
    text: &mut Vec<u8>,
) -> Result<(), OutOfMemory>
    requires lawful { input_fault job.input ≡ None }
    ensures { OnOk result (text.new.items ≡ text_of detail (job_told P.acts P.ending P.looks scratch detail job)) }
{
    text.clear();
    if scratch {
        let replies = scratch_replies(workers, job)?;
        return push_report(text, replies.as_slice(), detail);
    }
    let live = begin(workers, detail, job, text, b"")?;
    let_go(live, workers.gate);
    Ok(())
}
