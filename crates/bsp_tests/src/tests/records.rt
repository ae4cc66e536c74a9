//! What a run records: copies of it, and deliveries from it.

ghost use Rattle.std.specs.Prelude.{◌<◌, length};
ghost use Rattle.bsp_deliver.specs.Condition.{AreDeliverable};

use super::known::{COUNT_OF_KNOWN, Known, RANKS_AT, TOLD_AT, known_run};
use bsp_deliver::{answers_same, deliver, deliver_inbox, inbox, parcel_same};
use bsp_model::{Memory, OutOfMemory, Same, TryCopy};
use bsp_programs::Bundled;
use bsp_run::{History, RunError, Views};
use bsp_step::{Outcome, Outcomes, Queue, View, turn};
use bsp_whole::run_plain;
use std::alloc::Global;
use std::process::Abort;

fn is_copied(outcome: &Outcome) -> Result<bool, OutOfMemory> {
    let copy = outcome.copy()?;
    let is_same = copy.same(outcome);
    drop(copy);
    Ok(is_same)
}

/// Whether each view is the same as itself, and another than that of the process before.
fn are_apart(views: &Views) -> bool {
    for pid in 0..views.len() {
        let view = views.get(pid);
        if !view.same(&views.get(pid)) || pid > 0 && view.same(&views.get(pid - 1)) {
            return false;
        }
    }
    true
}

/// Whether what a program's turn leaves at each view is the same as its copy.
fn are_copied(alloc: Global, program: &Bundled, views: &Views) -> Result<bool, OutOfMemory> {
    for pid in 0..views.len() {
        let outcome = turn(alloc, program, &views.get(pid))?;
        let found = is_copied(&outcome);
        drop(outcome);
        if !found? {
            return Ok(false);
        }
    }
    Ok(true)
}

fn delivered_from_inbox(
    alloc: Global,
    d: usize,
    outcomes: &Outcomes,
) -> Result<(Memory, Queue), OutOfMemory>
    requires known { d < length outcomes.now }
    requires deliverable { AreDeliverable outcomes.now }
{
    let mine = inbox(alloc, d, outcomes)?;
    let delivered = deliver_inbox(alloc, d, &mine, outcomes);
    drop(mine);
    delivered
}

/// Whether a delivery brings what the process sees next.
fn is_seen(
    delivered: Result<(Memory, Queue), OutOfMemory>,
    next: &View<'_>,
) -> Result<bool, OutOfMemory> {
    let (memory, queue) = delivered?;
    let is_seen = memory.as_ref().same(&next.memory) && queue.as_ref().same(&next.queue);
    drop(memory);
    drop(queue);
    Ok(is_seen)
}

/// Whether all processes are brought what they see next, by either call.
fn are_delivered(alloc: Global, outcomes: &Outcomes, next: &Views) -> Result<bool, OutOfMemory>
    requires { AreDeliverable outcomes.now }
{
    for d in 0..outcomes.len() {
        if d >= next.len() {
            return Ok(false);
        }
        let next = next.get(d);
        if !is_seen(deliver(alloc, d, outcomes), &next)? {
            return Ok(false);
        }
        if !is_seen(delivered_from_inbox(alloc, d, outcomes), &next)? {
            return Ok(false);
        }
    }
    Ok(true)
}

/// Whether a superstep is recorded as it has to be. The last one may have ended without a delivery.
fn is_superstep(
    alloc: Global,
    program: &Bundled,
    history: &History,
    step: u64,
) -> Result<bool, OutOfMemory> {
    let Some(views) = history.views(step) else {
        return Ok(false);
    };
    let Some(outcomes) = history.outcomes(step) else {
        return Ok(false);
    };
    if !are_apart(views) || !are_copied(alloc, program, views)? {
        return Ok(false);
    }
    let next = step.wrapping_add(1);
    match history.views(next) {
        Some(views) => are_delivered(alloc, outcomes, views),
        None => Ok(next == history.steps() as u64),
    }
}

fn is_record(alloc: Global, program: &Bundled, history: &History) -> Result<bool, OutOfMemory> {
    for step in 0..history.steps() as u64 {
        if !is_superstep(alloc, program, history, step)? {
            return Ok(false);
        }
    }
    Ok(true)
}

fn history_of(alloc: Global, known: &Known) -> Result<History, RunError> {
    let input = known.input(alloc)?;
    let run = run_plain(alloc, &known.program, &input);
    drop(input);
    run
}

fn is_recorded(alloc: Global, known: &Known) -> Result<bool, RunError> {
    let history = history_of(alloc, known)?;
    let found = is_record(alloc, &known.program, &history);
    drop(history);
    Ok(found?)
}

fn find_recorded(rt: &impl Abort, alloc: Global, known: &Known) {
    assert!(rt; is_recorded(alloc, known) == Ok(true), "{}", known.name);
}

#[test]
fn what_a_run_records(rt: HostRuntime) {
    for number in 0..COUNT_OF_KNOWN {
        find_recorded(&rt, rt.alloc(), known_run(number));
    }
}

/// Whether the parcels and the answers of process 2 are the same in supersteps 1 and 2.
fn are_same(history: &History) -> Option<(bool, bool)> {
    let old = history.outcomes(1)?;
    let new = history.outcomes(2)?;
    if old.len() != 4 || new.len() != 4 {
        return None;
    }
    Some((parcel_same(old, new, 2), answers_same(old, new, 2)))
}

fn are_same_in(alloc: Global, known: &Known) -> Result<Option<(bool, bool)>, RunError> {
    let history = history_of(alloc, known)?;
    let are_same = are_same(&history);
    drop(history);
    Ok(are_same)
}

#[test]
fn what_a_delivery_depends_on_is_compared(rt: HostRuntime) {
    assert!(rt; are_same_in(rt.alloc(), known_run(TOLD_AT)) == Ok(Some((false, true))));
    assert!(rt; are_same_in(rt.alloc(), known_run(RANKS_AT)) == Ok(Some((true, false))));
}
