//! The report of a document by several workers: two that have to meet, and sessions one after the other in one process.

use super::bundled::{STEADY, writes};
use bsp_gate::{Gate, Open};
use std::sync::atomic::AtomicU64;
use std::sync::atomic::Ordering::SeqCst;
use std::thread;

/// Counts its calls from 1. Each odd call waits until the next call was made, and gives up after 10,000,000 turns.
#[derive(Drop)]
struct Pairs {
    calls: AtomicU64,
    gave_up: AtomicU64,
}

impl Gate for Pairs {
    fn pass(&self, _job: usize) {
        let earlier = self.calls.fetch_add(1, SeqCst);
        if earlier % 2 == 1 {
            return;
        }
        for _turn in 0..10000000 {
            if self.calls.load(SeqCst) > earlier.wrapping_add(1) {
                return;
            }
            thread::yield_now();
        }
        self.gave_up.fetch_add(1, SeqCst);
    }
}

const DOCUMENT: &[u8] =
    b"program = \"matvec\"\nlimit = 16\ng = 4\nl = 10\nmemory = [[1, 2, 5, 0, 0, 0], [3, 4, 6, 0, 0, 0]]\nargs = [[1], [1]]\n";

const REPORT: &[u8] = b"run 0
status halted
memory 0 1 2 5 5 6 17
memory 1 3 4 6 5 6 39
print 0 17
print 1 39
cost 0 0 0 10
cost 1 0 2 18
cost 2 2 0 2
total 30
executed 6 redelivered 4
";

#[test]
fn two_workers_meet_at_each_pair_of_turns_and_of_deliveries(rt: HostRuntime) {
    let gate = Pairs {
        calls: AtomicU64::new(0),
        gave_up: AtomicU64::new(0),
    };
    let writes = writes(&rt, rt.alloc(), DOCUMENT, STEADY, REPORT, Ok(()), 2, &gate);
    assert!(rt; writes && gate.calls.load(SeqCst) == 10 && gate.gave_up.load(SeqCst) == 0);
}

/// How many sessions are opened and let go one after the other, by two workers each.
const SESSIONS: usize = 1_000;

/// `ci/count_allocations` compares the memory and the threads of the process at the lines `begin` and `end`. By `begin` there was one session.
#[test]
fn a_thousand_sessions_leave_nothing(rt: HostRuntime) {
    let alloc = rt.alloc();
    assert!(rt; writes(&rt, alloc, DOCUMENT, STEADY, REPORT, Ok(()), 2, &Open));
    assert!(rt; println!(rt; "begin").is_ok());
    for _session in 0..SESSIONS {
        assert!(rt; writes(&rt, alloc, DOCUMENT, STEADY, REPORT, Ok(()), 2, &Open));
    }
    assert!(rt; println!(rt; "end").is_ok());
}
