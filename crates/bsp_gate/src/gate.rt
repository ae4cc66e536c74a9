//! The gate before a job.

use std::mem;
use std::time::{Clock, Instant};

/// A place that a worker passes before a job, as to hold it there in a test. A job is a turn, a delivery, or a job of a phase.
pub trait Gate: Sync {
    /// Called by the worker that is to do the job of this number (from 0), before its work.
    fn pass(&self, job: usize);

    /// The time, by which callers see whether more threads are worth their start. Where there is none, the threads start at once.
    fn now(&self) -> Option<Instant> {
        None
    }

    /// Called where a part of the work begins, by whoever works it. Parts of depth 1 lie in those of depth 0, and are numbered in each of them.
    fn enter(&self, _depth: usize, _number: u64) {}

    /// Called where the work is done, or pauses.
    fn leave(&self) {}

    /// Whether the process ends with the work. Then no memory has to be given back piece by piece.
    fn ends_process(&self) -> bool {
        false
    }
}

/// The gate that does nothing and tells no time.
#[derive(Clone, Copy)]
pub struct Open;

impl Gate for Open {
    fn pass(&self, _job: usize) {}
}

/// The gate that does nothing but tell the time of a clock, as a runtime has one.
#[derive(Drop)]
pub struct Timed<'a, C> {
    clock: &'a C,
}

impl<'a, C> Timed<'a, C> {
    /// The gate with this clock.
    pub fn new(clock: &'a C) -> Timed<'a, C> {
        Timed { clock }
    }
}

impl<'a, C: Clock + Sync> Gate for Timed<'a, C> {
    fn pass(&self, _job: usize) {}

    fn now(&self) -> Option<Instant> {
        Instant::now(self.clock).ok()
    }
}

/// Drops a value, unless the process ends with the work.
pub fn let_go<T: Drop, G: Gate>(value: T, gate: &G) {
    if gate.ends_process() {
        mem::forget(value);
    } else {
        drop(value);
    }
}
