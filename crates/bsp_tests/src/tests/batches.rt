//! Batches that are made into one.

use bsp_incr::Edit;
use bsp_laws::{coalesce, join};
use bsp_model::OutOfMemory;
use std::alloc::Global;

/// The first word of process 0 becomes 9, and 2.
const FIRST: &[Edit] = &[
    Edit::Word {
        pid: 0,
        addr: 0,
        value: 9,
    },
    Edit::Word {
        pid: 0,
        addr: 0,
        value: 2,
    },
];

/// It becomes 1.
const SECOND: &[Edit] = &[Edit::Word {
    pid: 0,
    addr: 0,
    value: 1,
}];

/// Whether two batches come down to the last edit of the word that they name.
fn come_down_to_one(alloc: Global, first: &[Edit], second: &[Edit]) -> Result<bool, OutOfMemory> {
    let both = join(alloc, first, second)?;
    let count = both.len();
    let last = coalesce(alloc, both.as_slice());
    drop(both);
    let last = last?;
    let is_one = count == 3 && last.as_slice() == second;
    drop(last);
    Ok(is_one)
}

#[test]
fn joined_batches_come_down_to_one_edit(rt: HostRuntime) {
    assert!(rt; come_down_to_one(rt.alloc(), FIRST, SECOND) == Ok(true));
}
