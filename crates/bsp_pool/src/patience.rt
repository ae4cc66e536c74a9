//! How long the calling thread waits for the workers of a run.

use bsp_gate::Gate;
use std::hint::spin_loop;
use std::thread;
use std::time::Instant;

/// How often a worker looks for an order in vain before it yields at each look.
pub(crate) const LOOKS_FOR_AN_ORDER: u64 = 2_000;

/// How often the calling thread looks for an answer in vain before it yields at each look.
const LOOKS_FOR_AN_ANSWER: u64 = 200;

/// How many looks there are at most, where the gate tells no time.
const MOST_LOOKS: u64 = 1_000_000;

/// How many nanoseconds the calling thread waits at least, before it takes the late turns itself.
const LEAST_NANOS: u128 = 20_000;

/// Waits a little at a look in vain, after which a thread yields at each look from this number on.
pub(crate) fn pause(look: u64, before_yield: u64) {
    if look < before_yield {
        spin_loop();
    } else {
        thread::yield_now();
    }
}

/// How long the calling thread waits in a superstep: twice as long as its own part took, and some microseconds at least. To work a part again that is
/// about to be ready costs more than the wait.
#[derive(Clone, Copy)]
pub struct Patience {
    since: Option<Instant>,
    nanos: u128,
    looks: u64,
}

impl Patience {
    /// That of a superstep whose part of the calling thread began at this time, and ends now.
    pub fn new<G: Gate>(began: Option<Instant>, gate: &G) -> Patience {
        let since = gate.now();
        let took = match (began, since) {
            (Some(began), Some(since)) => since.duration_since(began).as_nanos().saturating_mul(2),
            _ => 0,
        };
        Patience {
            since,
            nanos: took.max(LEAST_NANOS),
            looks: 0,
        }
    }

    /// Waits a little. False once it has lasted long enough.
    pub fn lasts<G: Gate>(&mut self, gate: &G) -> bool {
        pause(self.looks, LOOKS_FOR_AN_ANSWER);
        self.looks = self.looks.saturating_add(1);
        match (self.since, gate.now()) {
            (Some(since), Some(now)) => now.duration_since(since).as_nanos() < self.nanos,
            _ => self.looks < MOST_LOOKS,
        }
    }
}
