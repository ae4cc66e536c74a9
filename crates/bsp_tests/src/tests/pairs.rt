//! A gate where workers meet.

use bsp_gate::Gate;
use std::sync::atomic::AtomicU64;
use std::sync::atomic::Ordering::SeqCst;
use std::thread;

/// A gate where workers meet in pairs. It counts its calls from 1, and each odd call waits until the next call was made.
#[derive(Drop)]
pub struct Pairs {
    calls: AtomicU64,
    gave_up: AtomicU64,
}

/// How often a call looks for the next one before it gives up, as the first one does where all jobs run on one thread.
const MOST_LOOKS: u32 = 10_000_000;

impl Pairs {
    /// The gate before its first call.
    pub fn new() -> Pairs {
        Pairs {
            calls: AtomicU64::new(0),
            gave_up: AtomicU64::new(0),
        }
    }

    /// Whether so many calls were made, and none gave up waiting.
    pub fn is_met(&self, calls: u64) -> bool {
        self.calls.load(SeqCst) == calls && self.gave_up.load(SeqCst) == 0
    }
}

impl Gate for Pairs {
    fn pass(&self, _job: usize) {
        let earlier = self.calls.fetch_add(1, SeqCst);
        if earlier % 2 == 1 {
            return;
        }
        for _look in 0..MOST_LOOKS {
            if self.calls.load(SeqCst) > earlier.wrapping_add(1) {
                return;
            }
            thread::yield_now();
        }
        self.gave_up.fetch_add(1, SeqCst);
    }
}
