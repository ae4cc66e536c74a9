//! The numbers that a crew passes to the gate, and the threads on which it works.

ghost use Rattle.std.specs.Prelude.{◌<◌, ◌≤◌};

use super::counted::Calls;
use super::known::SUMS_OF_ONES;
use super::running::{Way, is_run};
use super::sessions::{is_changed, opened};
use super::sittings::{Change, Sitting, UPDATES};
use bsp_crew::DEPTH_OF_SUPERSTEPS;
use bsp_gate::Gate;
use bsp_incr::Place;
use bsp_model::OutOfMemory;
use bsp_run::RunError;
use std::alloc::Global;
use std::sync::atomic::AtomicU64;
use std::sync::atomic::Ordering::SeqCst;
use std::thread;
use std::thread::Threads;

/// How many calls of a gate meet.
const TOGETHER: u64 = 4;

/// How often a call looks for those that it meets.
const MOST_LOOKS: u32 = 10_000_000;

/// A gate where four calls meet from a superstep on: each waits until all four are there. So four threads work. It counts how often each number is passed.
#[derive(Drop)]
struct Fours {
    from: u64,
    step: AtomicU64,
    meeting: AtomicU64,
    gave_up: AtomicU64,
    passed: Vec<AtomicU64>,
}

impl Fours {
    fn new(alloc: Global, numbers: usize, from: u64) -> Result<Fours, OutOfMemory> {
        let mut passed = Vec::new(alloc);
        for _number in 0..numbers {
            passed.push(AtomicU64::new(0))?;
        }
        Ok(Fours {
            from,
            step: AtomicU64::new(0),
            meeting: AtomicU64::new(0),
            gave_up: AtomicU64::new(0),
            passed,
        })
    }

    /// Whether each number was passed so often, and no call gave up.
    fn were_passed<F: Fn(usize) -> u64>(&self, times: &F) -> bool
        requires { F.IsAlwaysCallable times.now }
    {
        for number in 0..self.passed.len() {
            if self.passed[number].load(SeqCst) != times(number) {
                return false;
            }
        }
        self.gave_up.load(SeqCst) == 0
    }
}

impl Gate for Fours {
    fn pass(&self, job: usize) {
        match self.passed.get(job) {
            Some(count) => count.fetch_add(1, SeqCst),
            None => self.gave_up.fetch_add(1, SeqCst),
        };
        if self.step.load(SeqCst) < self.from {
            return;
        }
        let earlier = self.meeting.fetch_add(1, SeqCst);
        let all = earlier
            .wrapping_sub(earlier % TOGETHER)
            .wrapping_add(TOGETHER);
        for _look in 0..MOST_LOOKS {
            if self.meeting.load(SeqCst) >= all || self.gave_up.load(SeqCst) > 0 {
                return;
            }
            thread::yield_now();
        }
        self.gave_up.fetch_add(1, SeqCst);
    }

    fn enter(&self, depth: usize, number: u64) {
        if depth == DEPTH_OF_SUPERSTEPS {
            self.step.store(number, SeqCst);
        }
    }
}

/// A call by a crew, and how many phases pass each of the 64 numbers of the processes: the turns of 8 supersteps and, where a record is kept, the deliveries
/// of 7.
struct Told {
    way: Way,
    phases: u64,
}

static TOLD: [Told; 4] = [
    Told {
        way: Way::Wide,
        phases: 15,
    },
    Told {
        way: Way::UnrecordedWide,
        phases: 8,
    },
    Told {
        way: Way::Opened,
        phases: 15,
    },
    Told {
        way: Way::Replied,
        phases: 15,
    },
];

fn is_told<R: Threads + Sync>(rt: &R, alloc: Global, told: &Told) -> Result<bool, RunError> {
    let gate = Fours::new(alloc, SUMS_OF_ONES.memories.len(), 0)?;
    let found = is_run(rt, alloc, told.way, &SUMS_OF_ONES, 4, &gate);
    let phases = told.phases;
    let were_passed = gate.were_passed(&|_number| phases);
    drop(gate);
    Ok(found? && were_passed)
}

/// In each phase four threads meet again and again, and each number of the list is passed once.
#[test]
fn four_workers_pass_each_number_once(rt: HostRuntime) {
    for i in 0..TOLD.len() {
        let found = is_told(&rt, rt.alloc(), &TOLD[i]);
        assert!(rt; found == Ok(true), "{i}");
    }
}

/// In how many supersteps more places than these are named.
fn longer_lists(places: &[Place], number: usize) -> u64 {
    let mut steps: u64 = 0;
    for step in 0..16 {
        let count = places.iter().filter(|place| place.step == step).count();
        if count > number {
            steps = steps.wrapping_add(1);
        }
    }
    steps
}

/// Whether the first change of a session passes each number of each list once, by so many workers, of which four meet from a superstep on.
fn is_update_told<R: Threads + Sync>(
    rt: &R,
    alloc: Global,
    sitting: &Sitting,
    change: &Change,
    workers: usize,
    from: u64,
) -> Result<bool, RunError>
    requires { (0 < workers) × (workers ≤ 16) }
{
    let known = &sitting.known;
    let calls = Calls::new();
    let gate = Fours::new(alloc, known.memories.len(), from)?;
    let mut session = opened(rt, alloc, known.program, &calls, known, 1)?;
    let found = is_changed(rt, alloc, &mut session, change, workers, &gate);
    let times = |number: usize| {
        longer_lists(change.executed, number).wrapping_add(longer_lists(change.redelivered, number))
    };
    let were_passed = gate.were_passed(&times);
    drop(session);
    drop(gate);
    Ok(found? && were_passed)
}

#[test]
fn an_update_passes_each_number_of_its_lists_once(rt: HostRuntime) {
    for i in 0..UPDATES.len() {
        let sitting = &UPDATES[i];
        for workers in [1, 2, 3, 4] {
            let [first, ..] = sitting.changes else {
                continue;
            };
            let found = is_update_told(&rt, rt.alloc(), sitting, first, workers, u64::MAX);
            assert!(rt; found == Ok(true), "{i} {workers}");
        }
    }
}

/// The last superstep of the sums of four words. A new first word has all four turns taken again there.
const LAST_OF_SUMS: u64 = 3;

#[test]
fn four_workers_meet_in_an_update(rt: HostRuntime) {
    let sitting = &UPDATES[0];
    let [first, ..] = sitting.changes else {
        return;
    };
    let found = is_update_told(&rt, rt.alloc(), sitting, first, 4, LAST_OF_SUMS);
    assert!(rt; found == Ok(true));
}
