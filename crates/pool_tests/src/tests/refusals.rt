use crate::tests::doubling::{Doubling, EIGHT, doubles};
use bsp_pool::Open;

/// A phase is made up for where memory is refused once, and gives up where it always is.
#[test]
fn a_work_that_refuses_memory(rt: HostRuntime) {
    for workers in 1..4 {
        let once = Doubling::refusing(1);
        assert!(rt; doubles(&rt, rt.alloc(), &once, &EIGHT, workers, &Open) == Ok(true));
        let always = Doubling::refusing(u64::MAX);
        assert!(rt; doubles(&rt, rt.alloc(), &always, &EIGHT, workers, &Open).is_err());
    }
}

/// `ci/refuse_allocations` runs this with each allocation refused in turn that is made between the lines `begin` and `end` of its output. The
/// answer is whole, unless the calling thread was the one that found no memory. After the line `end` none is refused, and so the same call is
/// answered.
#[test]
fn phase_with_an_allocation_refused(rt: HostRuntime) {
    let work = Doubling::refusing(0);
    let begun = println!(rt; "begin").is_ok();
    let found = doubles(&rt, rt.alloc(), &work, &EIGHT, 3, &Open);
    let ended = println!(rt; "end").is_ok();
    assert!(rt; begun && found != Ok(false) && ended);
    assert!(rt; doubles(&rt, rt.alloc(), &work, &EIGHT, 3, &Open) == Ok(true));
}
