//! Calls that find no memory. `ci/refuse_allocations` runs the tests of this file with each allocation refused in turn that is made between the lines
//! `begin` and `end` of their output.

use super::clash;
use super::counted::Calls;
use super::known::{COUNT_OF_KNOWN, End, Known, known_run};
use super::running::{Way, is_run};
use super::sessions::{CountedSession, is_changed, is_changed_at_last, opened};
use super::sittings::{Change, Sitting, UPDATES};
use super::tables::is_found_once_pushed;
use bsp_gate::Open;
use bsp_run::RunError;
use bsp_step::Program;
use bsp_table::TableFault;
use std::alloc::Global;
use std::process::Abort;
use std::sync::atomic::Ordering::SeqCst;
use std::thread::Threads;

/// Begins the allocations that are refused in turn, and answers whether the line was written.
fn begin(rt: &impl Print) -> bool {
    println!(rt; "begin").is_ok()
}

/// Ends the allocations that are refused in turn, and answers whether the line was written.
fn end(rt: &impl Print) -> bool {
    println!(rt; "end").is_ok()
}

/// Finds that a call makes a known run or is refused memory, and that the same call then makes the run.
fn find_run<R: Threads + Sync + Print + Abort>(rt: &R, alloc: Global, way: Way, known: &Known) {
    let begun = begin(rt);
    let found = is_run(rt, alloc, way, known, 2, &Open);
    let ended = end(rt);
    let is_right = found == Ok(true) || found == Err(RunError::OutOfMemory);
    let again = is_run(rt, alloc, way, known, 2, &Open);
    assert!(rt;
        begun && is_right && ended && again == Ok(true),
        "{}",
        known.name
    );
}

fn find_runs<R: Threads + Sync + Print + Abort>(rt: &R, alloc: Global, way: Way) {
    for number in 0..COUNT_OF_KNOWN {
        find_run(rt, alloc, way, known_run(number));
    }
}

#[test]
fn plain_runs_with_an_allocation_refused(rt: HostRuntime) {
    find_runs(&rt, rt.alloc(), Way::Plain);
}

#[test]
fn unrecorded_runs_with_an_allocation_refused(rt: HostRuntime) {
    find_runs(&rt, rt.alloc(), Way::Unrecorded);
}

#[test]
fn unrecorded_wide_runs_with_an_allocation_refused(rt: HostRuntime) {
    find_runs(&rt, rt.alloc(), Way::UnrecordedWide);
}

#[test]
fn wide_runs_with_an_allocation_refused(rt: HostRuntime) {
    find_runs(&rt, rt.alloc(), Way::Wide);
}

#[test]
fn records_with_an_allocation_refused(rt: HostRuntime) {
    find_runs(&rt, rt.alloc(), Way::Begun);
}

#[test]
fn openings_with_an_allocation_refused(rt: HostRuntime) {
    find_runs(&rt, rt.alloc(), Way::Opened);
}

/// Finds that a run in which a get and puts meet is made or refused memory, and is then made.
fn find_clash<R: Threads + Sync + Print + Abort>(rt: &R, alloc: Global, is_wide: bool) {
    let begun = begin(rt);
    let found = clash::is_right(rt, alloc, is_wide);
    let ended = end(rt);
    let is_right = found == Ok(true) || found == Err(RunError::OutOfMemory);
    let again = clash::is_right(rt, alloc, is_wide);
    assert!(rt; begun && is_right && ended && again == Ok(true));
}

#[test]
fn clashes_with_an_allocation_refused(rt: HostRuntime) {
    find_clash(&rt, rt.alloc(), false);
    find_clash(&rt, rt.alloc(), true);
}

#[test]
fn tables_with_an_allocation_refused(rt: HostRuntime) {
    let begun = begin(&rt);
    let found = is_found_once_pushed(rt.alloc());
    let ended = end(&rt);
    let is_right = found == Ok(true) || found == Err(TableFault::OutOfMemory);
    assert!(rt; begun && is_right && ended);
}

/// Whether a batch changes a session, or is refused memory, changes nothing, and then changes the session.
fn is_changed_between_marks<P: Program + Drop, R: Threads + Sync + Print>(
    rt: &R,
    alloc: Global,
    session: &mut CountedSession<'_, P>,
    before: &End,
    change: &Change,
) -> bool {
    let begun = begin(rt);
    let found = is_changed(rt, alloc, session, change, 2, &Open);
    let ended = end(rt);
    let is_right = match found {
        Ok(is_right) => is_right,
        Err(_) => is_changed_at_last(rt, alloc, session, before, change),
    };
    begun && is_right && ended
}

/// Whether a batch is refused memory where a session's program finds none, and changes nothing.
fn is_refused<P: Program + Drop, R: Threads + Sync>(
    rt: &R,
    alloc: Global,
    session: &mut CountedSession<'_, P>,
    calls: &Calls,
    before: &End,
    change: &Change,
) -> bool {
    calls.refuses.store(true, SeqCst);
    let found = is_changed(rt, alloc, session, change, 2, &Open);
    calls.refuses.store(false, SeqCst);
    found.is_err() && before.is_of(session.history())
}

/// Whether two batches change a session, once its program finds memory.
fn are_changed<R: Threads + Sync + Print>(
    rt: &R,
    alloc: Global,
    sitting: &Sitting,
) -> Result<bool, RunError> {
    let [first, second] = sitting.changes else {
        return Ok(false);
    };
    let known = &sitting.known;
    let calls = Calls::new();
    let mut session = opened(rt, alloc, known.program, &calls, known, 1)?;
    let is_refused = is_refused(rt, alloc, &mut session, &calls, &known.end, first);
    let is_first = is_changed_between_marks(rt, alloc, &mut session, &known.end, first);
    let is_second = is_changed_between_marks(rt, alloc, &mut session, &first.end, second);
    drop(session);
    Ok(is_refused && is_first && is_second)
}

#[test]
fn updates_with_an_allocation_refused(rt: HostRuntime) {
    for i in 0..UPDATES.len() {
        let found = are_changed(&rt, rt.alloc(), &UPDATES[i]);
        assert!(rt; found == Ok(true), "{i}");
    }
}
