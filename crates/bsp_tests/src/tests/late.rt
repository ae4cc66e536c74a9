//! A worker that is late.

use super::known::{PRODUCT_AT, known_run};
use super::running::{Way, is_run};
use bsp_crew::DEPTH_OF_SUPERSTEPS;
use bsp_gate::Gate;
use std::sync::atomic::AtomicU64;
use std::sync::atomic::Ordering::SeqCst;
use std::thread;
use std::time::{Clock, Instant};

/// A gate that holds the worker with job 1 of superstep 0 until superstep 1 begins. The calling thread, which has job 0, waits there until job 1 was called.
/// It tells the time once superstep 0 has begun, so that workers start at once and the calling thread is not patient for long.
#[derive(Drop)]
struct Holding<'a, C> {
    clock: &'a C,
    begun: AtomicU64,
    step: AtomicU64,
    called: AtomicU64,
    gave_up: AtomicU64,
}

/// How often a job looks before it gives up.
const MOST_LOOKS: u32 = 10_000_000;

impl<'a, C> Holding<'a, C> {
    fn new(clock: &'a C) -> Holding<'a, C> {
        Holding {
            clock,
            begun: AtomicU64::new(0),
            step: AtomicU64::new(0),
            called: AtomicU64::new(0),
            gave_up: AtomicU64::new(0),
        }
    }

    fn wait_for(&self, count: &AtomicU64) {
        for _look in 0..MOST_LOOKS {
            if count.load(SeqCst) > 0 {
                return;
            }
            thread::yield_now();
        }
        self.gave_up.fetch_add(1, SeqCst);
    }
}

impl<'a, C: Clock + Sync> Gate for Holding<'a, C> {
    fn pass(&self, job: usize) {
        if self.step.load(SeqCst) > 0 {
            return;
        }
        if job == 0 {
            self.wait_for(&self.called);
        } else if self.called.fetch_add(1, SeqCst) == 0 {
            self.wait_for(&self.step);
        }
    }

    fn now(&self) -> Option<Instant> {
        if self.begun.load(SeqCst) == 0 {
            return None;
        }
        Instant::now(self.clock).ok()
    }

    fn enter(&self, depth: usize, number: u64) {
        if depth == DEPTH_OF_SUPERSTEPS {
            self.step.store(number, SeqCst);
            self.begun.store(1, SeqCst);
        }
    }
}

/// The calling thread takes the turn of a worker that is late, and goes on.
#[test]
fn a_late_worker_is_not_waited_for(rt: HostRuntime) {
    let gate = Holding::new(&rt);
    let found = is_run(&rt, rt.alloc(), Way::Wide, known_run(PRODUCT_AT), 2, &gate);
    assert!(rt; found == Ok(true) && gate.gave_up.load(SeqCst) == 0);
}
