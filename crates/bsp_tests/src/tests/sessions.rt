//! Sessions, whose every turn, delivery and look is counted.

ghost use Rattle.std.specs.Prelude.{◌<◌, ◌≤◌};

use super::counted::{Calls, Counted, Everywhere, Work};
use super::known::{End, Known};
use super::sittings::{Change, EVERYWHERE, SITTINGS, Sitting};
use bsp_gate::{Gate, Open};
use bsp_incr::{EditError, Session};
use bsp_model::OutOfMemory;
use bsp_model::limits::MOST_WORKERS;
use bsp_programs::Prefix;
use bsp_run::RunError;
use bsp_step::Program;
use std::alloc::{AllocError, Global};
use std::process::Abort;
use std::thread::Threads;

/// The session of a program that is counted.
pub type CountedSession<'a, P> = Session<Counted<'a, P>>;

/// The session of a program on a known input, opened by so many workers that pass the gate of its calls.
pub fn opened<'a, P: Program + Drop, R: Threads + Sync>(
    rt: &R,
    alloc: Global,
    program: P,
    calls: &'a Calls,
    known: &Known,
    workers: usize,
) -> Result<CountedSession<'a, P>, RunError>
    requires { (0 < workers) × (workers ≤ MOST_WORKERS) }
{
    let program = Counted { program, calls };
    let input = known.input(alloc)?;
    let (session, opening) = Session::open(rt, alloc, program, input, workers, calls)?;
    drop(opening);
    Ok(session)
}

/// Whether a batch changes a session as it has to, or is refused and changes nothing.
pub fn is_changed<P: Program + Drop, R: Threads + Sync, G: Gate>(
    rt: &R,
    alloc: Global,
    session: &mut CountedSession<'_, P>,
    change: &Change,
    workers: usize,
    gate: &G,
) -> Result<bool, OutOfMemory>
    requires { (0 < workers) × (workers ≤ MOST_WORKERS) }
{
    let is_right = match session.apply(rt, alloc, change.batch, workers, gate) {
        Ok(update) => {
            change.refusal.is_none()
                && update.executed.as_slice() == change.executed
                && update.redelivered.as_slice() == change.redelivered
        }
        Err(EditError::Refused(refusal)) => change.refusal == Some(refusal),
        Err(EditError::OutOfMemory) => return Err(AllocError),
    };
    Ok(is_right && change.end.is_of(session.history()))
}

/// How many workers the calls of a session have: the first call `first`, and each further call `more` more than the call before, of 1 to 16.
#[derive(Clone, Copy)]
struct Staff {
    first: usize,
    more: usize,
}

impl Staff {
    fn at(self, call: usize) -> usize
        ensures { (0 < result) × (result ≤ 16) }
    {
        let workers = self.first.wrapping_add(self.more.wrapping_mul(call));
        workers.wrapping_sub(1) % 16 + 1
    }
}

/// How many batches, from the first one on, change a session as they have to, with a step for each turn.
fn count_of_right<P: Program + Drop, R: Threads + Sync>(
    rt: &R,
    alloc: Global,
    session: &mut CountedSession<'_, P>,
    calls: &Calls,
    changes: &[Change],
    staff: Staff,
) -> usize {
    for i in 0..changes.len() {
        let change = &changes[i];
        let workers = staff.at(i.wrapping_add(1));
        let found = is_changed(rt, alloc, session, change, workers, calls);
        let are_places = calls.were_at(change.executed);
        let work = Work {
            turns: change.executed.len() as u64,
            deliveries: change.redelivered.len() as u64,
            looks: change.looks,
            most_places: change.most_places,
        };
        if found != Ok(true) || !are_places || !calls.were(work, workers) {
            return i;
        }
    }
    changes.len()
}

/// Whether a session is opened and changed as it has to be.
fn is_sitting<P: Program + Drop, R: Threads + Sync>(
    rt: &R,
    alloc: Global,
    program: P,
    sitting: &Sitting,
    staff: Staff,
) -> Result<bool, RunError> {
    let known = &sitting.known;
    let calls = Calls::new();
    let workers = staff.at(0);
    let mut session = opened(rt, alloc, program, &calls, known, workers)?;
    let opening = Work {
        turns: known.turns,
        deliveries: known.deliveries,
        looks: 0,
        most_places: None,
    };
    let is_open = known.end.is_of(session.history()) && calls.were(opening, workers);
    let count = count_of_right(rt, alloc, &mut session, &calls, sitting.changes, staff);
    drop(session);
    Ok(is_open && count == sitting.changes.len())
}

/// One worker, 3 and 16 at all calls, and another number at each call.
static STAFFS: [Staff; 5] = [
    Staff { first: 1, more: 0 },
    Staff { first: 3, more: 0 },
    Staff { first: 16, more: 0 },
    Staff { first: 1, more: 1 },
    Staff { first: 15, more: 1 },
];

fn find_sitting<R: Threads + Sync + Abort>(rt: &R, alloc: Global, sitting: &Sitting) {
    let known = &sitting.known;
    for i in 0..STAFFS.len() {
        let found = is_sitting(rt, alloc, known.program, sitting, STAFFS[i]);
        assert!(rt; found == Ok(true), "{} {i}", known.name);
    }
}

#[test]
fn updates_do_what_was_counted_by_hand(rt: HostRuntime) {
    for i in 0..SITTINGS.len() {
        find_sitting(&rt, rt.alloc(), &SITTINGS[i]);
    }
}

#[test]
fn a_program_that_looks_everywhere(rt: HostRuntime) {
    let program = Everywhere(Prefix);
    assert!(rt; is_sitting(&rt, rt.alloc(), program, &EVERYWHERE, STAFFS[1]) == Ok(true));
}

/// Whether a batch that found no memory had changed nothing, and now changes a session as it has to.
pub fn is_changed_at_last<P: Program + Drop, R: Threads + Sync>(
    rt: &R,
    alloc: Global,
    session: &mut CountedSession<'_, P>,
    before: &End,
    change: &Change,
) -> bool {
    before.is_of(session.history()) && is_changed(rt, alloc, session, change, 2, &Open) == Ok(true)
}
