//! Workers that have to meet.

use super::counted::Calls;
use super::known::{PRODUCT_AT, known_run};
use super::pairs::Pairs;
use super::running::{Way, is_run};
use super::sessions::{is_changed, opened};
use super::sittings::{Change, OTHER_PRODUCT, Sitting};
use bsp_incr::{Batch, session_run};
use bsp_model::OutOfMemory;
use bsp_run::RunError;
use std::alloc::Global;
use std::thread::Threads;

static WAYS: [Way; 3] = [Way::Wide, Way::Opened, Way::Replied];

/// Two workers meet at each pair of 10 calls of a gate.
#[test]
fn two_workers_meet_in_each_phase(rt: HostRuntime) {
    for i in 0..WAYS.len() {
        let gate = Pairs::new();
        let found = is_run(&rt, rt.alloc(), WAYS[i], known_run(PRODUCT_AT), 2, &gate);
        assert!(rt; found == Ok(true) && gate.is_met(10), "{i}");
    }
}

/// Whether 2 workers meet at each pair of 8 calls of a gate, where a session is changed.
fn meet<R: Threads + Sync>(rt: &R, alloc: Global, sitting: &Sitting) -> Result<bool, RunError> {
    let [change] = sitting.changes else {
        return Ok(false);
    };
    let known = &sitting.known;
    let calls = Calls::new();
    let mut session = opened(rt, alloc, known.program, &calls, known, 1)?;
    let gate = Pairs::new();
    let found = is_changed(rt, alloc, &mut session, change, 2, &gate);
    drop(session);
    Ok(found == Ok(true) && gate.is_met(8))
}

#[test]
fn two_workers_meet_in_an_update(rt: HostRuntime) {
    let found = meet(&rt, rt.alloc(), &OTHER_PRODUCT);
    assert!(rt; found == Ok(true));
}

/// One batch with the edits of a change.
fn one_batch(alloc: Global, change: &Change) -> Result<Vec<Batch>, OutOfMemory> {
    let mut batch = Batch::new(alloc);
    for edit in change.batch {
        batch.push(*edit)?;
    }
    let mut batches = Vec::new(alloc);
    batches.push(batch)?;
    Ok(batches)
}

/// Whether 2 workers meet at each pair of 18 calls of a gate: 10 where a session is opened, and 8 at its batch.
fn meet_in_one_call<R: Threads + Sync>(
    rt: &R,
    alloc: Global,
    sitting: &Sitting,
) -> Result<bool, RunError> {
    let [change] = sitting.changes else {
        return Ok(false);
    };
    let batches = one_batch(alloc, change)?;
    let known = &sitting.known;
    let input = known.input(alloc)?;
    let gate = Pairs::new();
    let replies = session_run(
        rt,
        alloc,
        known.program,
        input,
        batches.as_slice(),
        2,
        &gate,
    )?;
    let count = replies.len();
    drop(replies);
    Ok(count == 2 && gate.is_met(18))
}

#[test]
fn two_workers_meet_in_a_session_of_one_call(rt: HostRuntime) {
    let found = meet_in_one_call(&rt, rt.alloc(), &OTHER_PRODUCT);
    assert!(rt; found == Ok(true));
}
