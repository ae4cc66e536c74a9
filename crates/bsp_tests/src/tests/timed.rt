//! Workers that have to meet under a gate that tells the time, as that of the tools does: a run goes on alone at first, and starts workers once it is long.

ghost use Rattle.std.specs.Prelude.{◌<◌, ◌≤◌};

use super::known::{Known, PRODUCT, SUMS};
use super::running::{is_given, is_recorded};
use super::sittings::{Change, OTHER_VECTOR};
use bsp_crew::DEPTH_OF_SUPERSTEPS;
use bsp_gate::Gate;
use bsp_incr::Session;
use bsp_model::{End, OutOfMemory};
use bsp_run::RunError;
use bsp_step::{Ctx, Program, View};
use bsp_whole::{run_result_wide, run_wide};
use std::alloc::Global;
use std::process::Abort;
use std::sync::atomic::Ordering::SeqCst;
use std::sync::atomic::{AtomicBool, AtomicU64};
use std::thread;
use std::thread::{Threads, available_parallelism};
use std::time::{Clock, Instant};

/// How often a turn adds 1: it then takes a few milliseconds, so that a superstep is worth workers.
const ADDED_IN_A_TURN: u64 = 400_000;

/// A program each of whose turns takes a while.
#[derive(Drop)]
struct Slow<P> {
    program: P,
    added: AtomicU64,
}

impl<P> Slow<P> {
    fn new(program: P) -> Slow<P> {
        Slow {
            program,
            added: AtomicU64::new(0),
        }
    }
}

impl<P: Program> Program for Slow<P> {
    ghost acts = { λ s. P.acts s.program };

    ghost ending = { λ s. P.ending s.program };

    ghost looks = { λ s. P.looks s.program };

    ghost footprint = { λ s. P.footprint s.program };

    fn looks(&self, view: &View<'_>, address: u64) -> bool {
        self.program.looks(view, address)
    }

    fn step(&self, alloc: Global, ctx: &mut Ctx<'_>) -> Result<End, OutOfMemory> {
        for _ in 0..ADDED_IN_A_TURN {
            self.added.fetch_add(1, SeqCst);
        }
        self.program.step(alloc, ctx)
    }
}

/// A gate with a clock, at which workers meet in pairs from a superstep on: each odd call waits for the next call. By then the supersteps before have taken
/// so long that workers start. Once a call has waited in vain, no further call waits.
#[derive(Drop)]
struct TimedPairs<'a, C> {
    clock: &'a C,
    from: u64,
    step: AtomicU64,
    calls: AtomicU64,
    met: AtomicU64,
    gave_up: AtomicBool,
}

/// How many milliseconds a call waits, and how often it looks at most.
const MOST_MILLISECONDS: u128 = 1_000;

const MOST_LOOKS: u64 = 1_000_000_000;

impl<'a, C: Clock> TimedPairs<'a, C> {
    fn new(clock: &'a C, from: u64) -> TimedPairs<'a, C> {
        TimedPairs {
            clock,
            from,
            step: AtomicU64::new(0),
            calls: AtomicU64::new(0),
            met: AtomicU64::new(0),
            gave_up: AtomicBool::new(false),
        }
    }

    fn is_long_since(&self, began: Option<Instant>) -> bool {
        match (began, Instant::now(self.clock).ok()) {
            (Some(began), Some(now)) => {
                now.duration_since(began).as_millis() > MOST_MILLISECONDS
            }
            _ => true,
        }
    }

    /// Waits until more calls than these were made, and answers whether they were.
    fn is_met(&self, calls: u64) -> bool {
        let began = Instant::now(self.clock).ok();
        for _ in 0..MOST_LOOKS {
            if self.calls.load(SeqCst) > calls {
                return true;
            }
            if self.is_long_since(began) {
                return false;
            }
            thread::yield_now();
        }
        false
    }
}

impl<'a, C: Clock + Sync> Gate for TimedPairs<'a, C> {
    fn pass(&self, _job: usize) {
        if self.step.load(SeqCst) < self.from || self.gave_up.load(SeqCst) {
            return;
        }
        let earlier = self.calls.fetch_add(1, SeqCst);
        if earlier % 2 == 1 {
            return;
        }
        if self.is_met(earlier.wrapping_add(1)) {
            self.met.fetch_add(1, SeqCst);
        } else {
            self.gave_up.store(true, SeqCst);
        }
    }

    fn now(&self) -> Option<Instant> {
        Instant::now(self.clock).ok()
    }

    fn enter(&self, depth: usize, number: u64) {
        if depth == DEPTH_OF_SUPERSTEPS {
            self.step.store(number, SeqCst);
        }
    }
}

/// A call that starts workers.
#[derive(Clone, Copy)]
enum Way {
    Wide,
    Unrecorded,
    Opened,
    /// An update of a session that was opened by one worker.
    Updated,
}

fn is_made<R: Threads + Sync, G: Gate>(
    rt: &R,
    alloc: Global,
    way: Way,
    known: &Known,
    workers: usize,
    gate: &G,
) -> Result<bool, RunError>
    requires { (0 < workers) × (workers ≤ 16) }
{
    let program = Slow::new(known.program);
    let input = known.input(alloc)?;
    match way {
        Way::Wide => {
            let run = run_wide(rt, alloc, &program, &input, workers, gate);
            drop(input);
            is_recorded(run, &known.end)
        }
        Way::Unrecorded => {
            let given = run_result_wide(rt, alloc, &program, &input, workers, gate);
            drop(input);
            is_given(given, &known.end)
        }
        Way::Opened => {
            let (session, opening) = Session::open(rt, alloc, program, input, workers, gate)?;
            let is_right = known.end.is_of(session.history());
            drop(session);
            drop(opening);
            Ok(is_right)
        }
        Way::Updated => {
            let (mut session, opening) = Session::open(
                rt,
                alloc,
                program,
                input,
                1,
                &bsp_gate::Open,
            )?;
            drop(opening);
            let is_right = is_updated(rt, alloc, &mut session, &OTHER_VECTOR, workers, gate);
            drop(session);
            Ok(is_right)
        }
    }
}

fn is_updated<P: Program + Drop, R: Threads + Sync, G: Gate>(
    rt: &R,
    alloc: Global,
    session: &mut Session<P>,
    change: &Change,
    workers: usize,
    gate: &G,
) -> bool
    requires { (0 < workers) × (workers ≤ 16) }
{
    session
        .apply(rt, alloc, change.batch, workers, gate)
        .is_ok()
        && change.end.is_of(session.history())
}

/// A call, and the superstep from which workers meet.
struct Meeting {
    way: Way,
    known: Known,
    from: u64,
}

static MEETINGS: [Meeting; 4] = [
    Meeting {
        way: Way::Wide,
        known: SUMS,
        from: 1,
    },
    Meeting {
        way: Way::Unrecorded,
        known: SUMS,
        from: 1,
    },
    Meeting {
        way: Way::Opened,
        known: SUMS,
        from: 1,
    },
    Meeting {
        way: Way::Updated,
        known: PRODUCT,
        from: 2,
    },
];

/// How often a meeting is tried, since a busy machine may hold a worker up for long.
const TRIES: usize = 3;

/// Finds that each try is right, and that two threads meet in one of them. With one processor no thread starts.
fn find_meeting<R: Threads + Sync + Clock + Abort>(
    rt: &R,
    alloc: Global,
    meeting: &Meeting,
    workers: usize,
)
    requires { (0 < workers) × (workers ≤ 16) }
{
    let is_alone = available_parallelism(rt).is_ok_and(|count| count.get() == 1);
    let from = if is_alone { u64::MAX } else { meeting.from };
    for _ in 0..TRIES {
        let gate = TimedPairs::new(rt, from);
        let found = is_made(rt, alloc, meeting.way, &meeting.known, workers, &gate);
        assert!(rt; found == Ok(true), "{workers} workers");
        let met = gate.met.load(SeqCst);
        drop(gate);
        if is_alone || met > 0 {
            return;
        }
    }
    assert!(rt; false, "{workers} workers do not meet");
}

#[test]
fn workers_meet_once_a_run_is_long(rt: HostRuntime) {
    for i in 0..MEETINGS.len() {
        find_meeting(&rt, rt.alloc(), &MEETINGS[i], 2);
        find_meeting(&rt, rt.alloc(), &MEETINGS[i], 4);
    }
}
