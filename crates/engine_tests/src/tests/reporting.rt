//! The report of a caller's own replies.

use super::bundled::ONE_WORKER;
use bsp_engine::report;
use bsp_incr::{EditFault, EditRefusal, Reply};
use bsp_model::OutOfMemory;
use std::alloc::Global;

fn is_refusal_told(alloc: Global) -> Result<bool, OutOfMemory> {
    let refusal = EditRefusal {
        place: 1,
        fault: EditFault::NoSuchWord,
    };
    let replies = [Reply::Refused(refusal)];
    let text = report(alloc, &replies, ONE_WORKER.detail)?;
    let is_told = text.as_slice() == b"run 0\nrefused E2 at 1\n".as_slice();
    drop(text);
    Ok(is_told)
}

#[test]
fn replies_are_reported(rt: HostRuntime) {
    assert!(rt; is_refusal_told(rt.alloc()) == Ok(true));
}
