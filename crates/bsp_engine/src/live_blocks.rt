//! The blocks of a live session: its report, and the answers to its lines.

ghost use Rattle.std.specs.Prelude.{◌≡◌, ◌++◌, IfOk, OnOk, None, false, Some, length, unwrap_or};
ghost use Rattle.bsp_model.specs.Input.{input_fault};
ghost use Rattle.bsp_step.specs.Turn.{turn_of};
ghost use Rattle.bsp_run.specs.Run.{run};
ghost use Rattle.bsp_incr.specs.Edits.{refusal_of};
ghost use Rattle.bsp_incr.specs.Inside.Changes.{update_of};
ghost use Rattle.bsp_engine.specs.Blocks.{blocks_after, reply_lines, text_of};
ghost use Rattle.bsp_engine.specs.Inside.LiveReplies.{advanced, live_replies, live_reply, live_replying, opening_block};
ghost use Rattle.bsp_engine.specs.Inside.Replies.{job_told};
ghost use Rattle.bsp_engine.specs.Live.{after, after_batch, after_batches, answer_lines, answer_to, last_result, opened};
ghost use Rattle.bsp_run.specs.Result.{result_of};
ghost use Rattle.bsp_incr.specs.declared.reply.Reply.TheVariants.{Done};
ghost use Rattle.bsp_engine.specs.Told.{told_by};
ghost use Rattle.bsp_engine.specs.Inside.Given.{result_if};
ghost use Rattle.bsp_engine.specs.Inside.Touched.{IsUpdateBetween};

use crate::asked::{Asked, Unread};
use crate::block_lines::{push_refusal, push_unread};
use crate::change_lines::push_run;
use crate::changed_run::push_changed;
use crate::jobs::Job;
use crate::live::{Live, apply, open};
use crate::update_lines::push_update;
use bsp_crew::{DEPTH_OF_RUNS, Workers};
use bsp_gate::Gate;
use bsp_incr::{Batch, Edit, EditError, Update};
use bsp_model::OutOfMemory;
use bsp_options::Detail;
use bsp_run::History;
use bsp_step::Program;
use bsp_text::push_line;
use std::alloc::AllocError;
use std::thread::Threads;

fn push_opening<P: Program + Drop>(
    live: &Live<P>,
    update: &Update,
    text: &mut Vec<u8>,
) -> Result<(), OutOfMemory>
    requires { update.now ≡ update_of (P.looks live.now.program) None (run (turn_of (P.acts live.now.program)
        (P.ending live.now.program)) live.now.input) }
    ensures { OnOk result (text.new.items ≡ text.old.items
        ++ opening_block P.acts P.ending P.looks live.now.detail live.now.program live.now.input) }
{
    // That the input is lawful, and the history its run, is known where they are read.
    let _input = live.session.input();
    let history = live.session.history();
    push_line(text, "run", &[0])?;
    push_run(text, history)?;
    push_update(
        text,
        live.detail,
        live.session.program(),
        None,
        history,
        update,
    )
}

fn push_accepted<P: Program>(
    text: &mut Vec<u8>,
    detail: Detail,
    program: &P,
    nprocs: usize,
    old: &History,
    new: &History,
    batch: &[Edit],
    update: &Update,
) -> Result<(), OutOfMemory>
    requires count { nprocs ≡ length (result_of old.now).memories }
    requires update { IsUpdateBetween old.now batch.now update.now new.now }
    ensures { OnOk result (text.new.items ≡ text.old.items
        ++ reply_lines detail.places (result_if detail.changes old.now)
        (told_by detail (P.looks program.now) (Some old.now) new.now (Done (result_of new.now) (Some update.now)))) }
{
    if detail.changes {
        push_changed(text, nprocs, old, new, batch, update)?;
    } else {
        push_run(text, new)?;
    }
    push_update(text, detail, program, Some(old), new, update)
}

/// Applies an accepted batch, and appends the lines of its reply.
fn apply_and_tell<P: Program + Drop, R: Threads + Sync, G: Gate>(
    workers: &Workers<'_, R, G>,
    live: &mut Live<P>,
    text: &mut Vec<u8>,
    batch: &[Edit],
) -> Result<(), OutOfMemory>
    requires accepted { refusal_of live.old.input batch.now ≡ None }
    ensures after { OnOk result (live.new ≡ advanced live.old batch.now) }
    ensures text { OnOk result (text.new.items ≡ text.old.items
        ++ reply_lines live.old.detail.places (last_result P.acts P.ending live.old)
        (live_reply P.acts P.ending P.looks live.old batch.now)) }
{
    let mut before = live.replaced.take();
    let update = match apply(workers, &mut live.session, batch, &mut before) {
        Ok(update) => update,
        Err(error) => {
            drop(before);
            return Err(error);
        }
    };
    let detail = live.detail;
    let program = live.session.program();
    let nprocs = live.session.input().mems.len();
    let new = live.session.history();
    let old = before.as_ref().unwrap_or(new);
    let pushed = push_accepted(text, detail, program, nprocs, old, new, batch, &update);
    drop(update);
    live.replaced = before;
    pushed
}

/// Makes a batch, appends the lines of its reply, and keeps the batch that takes this one back, unless this one is refused.
fn make_batch<P: Program + Drop, R: Threads + Sync, G: Gate>(
    workers: &Workers<'_, R, G>,
    live: &mut Live<P>,
    text: &mut Vec<u8>,
    batch: &[Edit],
) -> Result<(), OutOfMemory>
    ensures after { OnOk result (live.new ≡ after_batch live.old batch.now) }
    ensures text { OnOk result (text.new.items ≡ text.old.items
        ++ reply_lines live.old.detail.places (last_result P.acts P.ending live.old)
        (live_reply P.acts P.ending P.looks live.old batch.now)) }
{
    match live.session.undo_of(workers.alloc, batch) {
        Ok(undo) => {
            live.undos.push_front(undo)?;
            apply_and_tell(workers, live, text, batch)
        }
        Err(EditError::Refused(refusal)) => push_refusal(text, refusal),
        Err(EditError::OutOfMemory) => Err(AllocError),
    }
}

/// Makes a batch that takes an earlier one back, and appends the lines of its reply.
fn make_undo<P: Program + Drop, R: Threads + Sync, G: Gate>(
    workers: &Workers<'_, R, G>,
    live: &mut Live<P>,
    text: &mut Vec<u8>,
    undo: &[Edit],
) -> Result<(), OutOfMemory>
    ensures after { OnOk result (live.new ≡ advanced live.old undo.now) }
    ensures text { OnOk result (text.new.items ≡ text.old.items
        ++ reply_lines live.old.detail.places (last_result P.acts P.ending live.old)
        (live_reply P.acts P.ending P.looks live.old undo.now)) }
{
    match live.session.refusal(undo) {
        Some(refusal) => push_refusal(text, refusal),
        None => apply_and_tell(workers, live, text, undo),
    }
}

fn make_batches<P: Program + Drop, R: Threads + Sync, G: Gate>(
    workers: &Workers<'_, R, G>,
    live: &mut Live<P>,
    text: &mut Vec<u8>,
    batches: &[Batch],
) -> Result<(), OutOfMemory>
    ensures live { OnOk result (live.new ≡ after_batches live.old batches.now) }
    ensures text { OnOk result (text.new.items ≡ text.old.items
        ++ blocks_after live.old.detail 1 (last_result P.acts P.ending live.old)
        (live_replies P.acts P.ending P.looks live.old batches.now)) }
{
    for (index, batch) in batches.iter().enumerate() {
        workers.gate.enter(DEPTH_OF_RUNS, index as u64 + 1);
        push_line(text, "run", &[index as u64 + 1])?;
        make_batch(workers, live, text, batch.as_slice())?;
    }
    Ok(())
}

/// Appends the report of a job whose session was opened with this update, and then the end.
fn tell_all<P: Program + Drop, R: Threads + Sync, G: Gate>(
    workers: &Workers<'_, R, G>,
    live: &mut Live<P>,
    update: &Update,
    batches: &[Batch],
    text: &mut Vec<u8>,
    end: &[u8],
) -> Result<(), OutOfMemory>
    requires update { update.now ≡ update_of (P.looks live.old.program) None (run (turn_of (P.acts live.old.program)
        (P.ending live.old.program)) live.old.input) }
    ensures live { OnOk result (live.new ≡ after_batches live.old batches.now) }
    ensures text { OnOk result (text.new.items ≡ text.old.items
        ++ opening_block P.acts P.ending P.looks live.old.detail live.old.program live.old.input
        ++ blocks_after live.old.detail 1 (last_result P.acts P.ending live.old)
        (live_replies P.acts P.ending P.looks live.old batches.now) ++ end.now) }
{
    push_opening(live, update, text)?;
    make_batches(workers, live, text, batches)?;
    text.extend_from_slice(end)
}

/// Opens the session of a job, makes its batches, and appends its report and the end.
pub fn begin<P: Program + Drop, R: Threads + Sync, G: Gate>(
    workers: &Workers<'_, R, G>,
    detail: Detail,
    job: Job<P>,
    text: &mut Vec<u8>,
    end: &[u8],
) -> Result<Live<P>, OutOfMemory>
    requires lawful { input_fault job.input ≡ None }
    ensures live { IfOk result (λ live. live ≡ after_batches (opened detail job.program job.input) job.batches) }
    ensures text { OnOk result (text.new.items ≡ text.old.items
        ++ text_of detail (job_told P.acts P.ending P.looks false detail job) ++ end.now) }
{
    let Job {
        program,
        input,
        batches,
    } = job;
    match open(workers, detail, program, input) {
        Ok((mut live, update)) => {
            let told = tell_all(workers, &mut live, &update, batches.as_slice(), text, end);
            drop(update);
            drop(batches);
            told.and(Ok(live))
        }
        Err(error) => {
            drop(batches);
            Err(error)
        }
    }
}

pub fn push_answer<P: Program + Drop, R: Threads + Sync, G: Gate>(
    workers: &Workers<'_, R, G>,
    live: &mut Live<P>,
    text: &mut Vec<u8>,
    asked: Asked,
) -> Result<(), OutOfMemory>
    ensures after { OnOk result (live.new ≡ after live.old asked) }
    ensures text { OnOk result (text.new.items ≡ text.old.items
        ++ answer_lines live.old.detail.places (last_result P.acts P.ending live.old) (answer_to
        (live_replying P.acts P.ending P.looks) live.old asked)) }
{
    match asked {
        Asked::Batch(batch) => make_batch(workers, live, text, batch.as_slice()),
        Asked::Undo => match live.undos.pop_front() {
            Some(undo) => make_undo(workers, live, text, undo.as_slice()),
            None => push_unread(text, Unread::NothingToUndo),
        },
        Asked::Nothing(unread) => push_unread(text, unread),
    }
}
