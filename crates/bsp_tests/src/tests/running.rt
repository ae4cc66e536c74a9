//! Runs by each call that makes one.

ghost use Rattle.std.specs.Prelude.{◌<◌, ◌≤◌};

use super::known::{COUNT_OF_KNOWN, End, Known, TOLD_AT, known_run};
use super::sittings::{SITTINGS, SUMS_OF_ONES_AT};
use crate::hello::Hello;
use bsp_gate::{Gate, Open, Timed};
use bsp_incr::{Reply, Session, scratch_run, session_run};
use bsp_model::limits::MOST_WORKERS;
use bsp_model::{Input, TryCopy};
use bsp_right::run_computing;
use bsp_run::{History, RunError, RunResult, Tape};
use bsp_whole::{run_plain, run_result, run_result_wide, run_wide};
use std::alloc::Global;
use std::process::Abort;
use std::thread::Threads;

/// A call that runs a program.
#[derive(Clone, Copy)]
pub enum Way {
    Plain,
    /// The call that says what the program computes.
    Computing,
    Wide,
    Unrecorded,
    UnrecordedWide,
    Opened,
    Replied,
    /// The replies by runs from scratch.
    RepliedAfresh,
    /// A record of the run, which is opened only.
    Begun,
}

fn is_begun(alloc: Global, input: &Input) -> Result<bool, RunError> {
    let tape = Tape::open(alloc, input)?;
    let is_begun = tape.is_open() && tape.step() == 0 && tape.views().len() == input.mems.len();
    drop(tape);
    Ok(is_begun)
}

/// Whether a recorded run ends so.
pub fn is_recorded(run: Result<History, RunError>, end: &End) -> Result<bool, RunError> {
    let history = run?;
    let is_right = end.is_of(&history);
    drop(history);
    Ok(is_right)
}

/// Whether a run without a record gives so much.
pub fn is_given(run: Result<RunResult, RunError>, end: &End) -> Result<bool, RunError> {
    let given = run?;
    let is_right = given.total == end.total;
    drop(given);
    Ok(is_right)
}

fn is_opened<R: Threads + Sync, G: Gate>(
    rt: &R,
    alloc: Global,
    known: &Known,
    input: Input,
    workers: usize,
    gate: &G,
) -> Result<bool, RunError>
    requires { (0 < workers) × (workers ≤ MOST_WORKERS) }
{
    let (session, opening) = Session::open(rt, alloc, known.program, input, workers, gate)?;
    let is_right = known.end.is_of(session.history())
        && opening.executed.len() as u64 == known.turns;
    drop(session);
    drop(opening);
    Ok(is_right)
}

/// Whether the one reply has the result, and an update where one is told.
fn is_reply(
    replies: Result<Vec<Reply>, RunError>,
    end: &End,
    is_update_told: bool,
) -> Result<bool, RunError> {
    let replies = replies?;
    let is_right = match replies.as_slice() {
        [Reply::Done { result, update }] => {
            result.total == end.total && update.is_some() == is_update_told
        }
        _ => false,
    };
    drop(replies);
    Ok(is_right)
}

/// Whether a call runs the program on the input as it is known. Workers and the gate are given to the calls that take them.
fn is_run_on<R: Threads + Sync, G: Gate>(
    rt: &R,
    alloc: Global,
    way: Way,
    known: &Known,
    input: &Input,
    workers: usize,
    gate: &G,
) -> Result<bool, RunError>
    requires { (0 < workers) × (workers ≤ MOST_WORKERS) }
{
    let program = known.program;
    match way {
        Way::Plain => is_recorded(run_plain(alloc, &program, input), &known.end),
        Way::Computing => is_recorded(run_computing(alloc, &program, input), &known.end),
        Way::Wide => {
            let run = run_wide(rt, alloc, &program, input, workers, gate);
            is_recorded(run, &known.end)
        }
        Way::Unrecorded => is_given(run_result(alloc, &program, input), &known.end),
        Way::UnrecordedWide => {
            let given = run_result_wide(rt, alloc, &program, input, workers, gate);
            is_given(given, &known.end)
        }
        Way::Opened => is_opened(rt, alloc, known, input.copy()?, workers, gate),
        Way::Replied => {
            let replies = session_run(rt, alloc, program, input.copy()?, &[], workers, gate);
            is_reply(replies, &known.end, true)
        }
        Way::RepliedAfresh => {
            let replies = scratch_run(alloc, &program, input.copy()?, &[]);
            is_reply(replies, &known.end, false)
        }
        Way::Begun => is_begun(alloc, input),
    }
}

/// The same, where the input is made too.
pub fn is_run<R: Threads + Sync, G: Gate>(
    rt: &R,
    alloc: Global,
    way: Way,
    known: &Known,
    workers: usize,
    gate: &G,
) -> Result<bool, RunError>
    requires { (0 < workers) × (workers ≤ MOST_WORKERS) }
{
    let input = known.input(alloc)?;
    let found = is_run_on(rt, alloc, way, known, &input, workers, gate);
    drop(input);
    found
}

static WAYS: [Way; 9] = [
    Way::Plain,
    Way::Computing,
    Way::Wide,
    Way::Unrecorded,
    Way::UnrecordedWide,
    Way::Opened,
    Way::Replied,
    Way::RepliedAfresh,
    Way::Begun,
];

fn find_all<R: Threads + Sync + Abort>(rt: &R, alloc: Global, known: &Known) {
    for i in 0..WAYS.len() {
        let found = is_run(rt, alloc, WAYS[i], known, 3, &Open);
        assert!(rt; found == Ok(true), "{}", known.name);
    }
}

#[test]
fn each_call_runs_each_program(rt: HostRuntime) {
    for number in 0..COUNT_OF_KNOWN {
        find_all(&rt, rt.alloc(), known_run(number));
    }
}

#[test]
fn any_number_of_workers_gives_the_sums(rt: HostRuntime) {
    let known = &SITTINGS[SUMS_OF_ONES_AT].known;
    let timed = Timed::new(&rt);
    assert!(rt; timed.now().is_some() && Open.now().is_none());
    for workers in 1..MOST_WORKERS + 1 {
        for way in [Way::Wide, Way::UnrecordedWide] {
            let found = is_run(&rt, rt.alloc(), way, known, workers, &Open);
            let timed = is_run(&rt, rt.alloc(), way, known, workers, &timed);
            assert!(rt; found == Ok(true) && timed == Ok(true), "{workers} workers");
        }
    }
}

/// What a run of `Hello` leaves.
static NUMBERS: End = End {
    memories: &[&[7], &[0], &[0], &[0]],
    prints: &[0, 1, 2, 3],
    total: 0,
};

fn prints_its_numbers(alloc: Global) -> Result<bool, RunError> {
    let input = known_run(TOLD_AT).input(alloc)?;
    let found = is_recorded(run_plain(alloc, &Hello, &input), &NUMBERS);
    drop(input);
    found
}

#[test]
fn a_program_of_ones_own(rt: HostRuntime) {
    assert!(rt; prints_its_numbers(rt.alloc()) == Ok(true));
}
