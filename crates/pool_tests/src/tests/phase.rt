use crate::tests::doubling::{Doubling, doubles};
use crate::tests::meeting::Meeting;
use std::sync::atomic::Ordering::SeqCst;

static MANY: [u32; 1000] = [7; 1000];

/// Each of 1000 jobs passes the gate, on any of 16 threads, and is worked. No job is called twice.
#[test]
fn each_of_1000_jobs_passes_the_gate_once_and_is_worked_once(rt: HostRuntime) {
    let work = Doubling::refusing(0);
    let gate = Meeting::new(2, 10_000_000);
    assert!(rt; doubles(&rt, rt.alloc(), &work, &MANY, 16, &gate) == Ok(true));
    assert!(rt; work.calls.load(SeqCst) == 1000 && gate.has_called(1000, 499_500));
}

/// Two jobs that wait for each other at the gate are worked by two threads, and four by four.
#[test]
fn jobs_meet_in_as_many_threads(rt: HostRuntime) {
    let work = Doubling::refusing(0);
    let gate = Meeting::new(2, 10_000_000);
    assert!(rt; doubles(&rt, rt.alloc(), &work, &[1, 2], 2, &gate) == Ok(true));
    assert!(rt; gate.has_called(2, 1));
    let gate = Meeting::new(4, 10_000_000);
    assert!(rt; doubles(&rt, rt.alloc(), &work, &[1, 2, 3, 4], 4, &gate) == Ok(true));
    assert!(rt; gate.has_called(4, 6));
}
