//! How the outputs of a phase are put together. What may fail for want of memory comes first, so that the
//! kept outputs stay where they are until nothing can fail.

ghost use Rattle.std.specs.Prelude.{◌≡◌, ◌≤◌, [], IfOk, All, length};
ghost use Rattle.std.specs.Vec.{vec_capacity};
ghost use Rattle.bsp_pool.specs.Inside.Turning.{missing_of, merged_of};

use crate::OutOfMemory;
use crate::work::Work;
use std::alloc::Global;

/// The outputs that no worker handed over, and room for all outputs.
#[derive(Drop)]
pub(crate) struct Missing<T> {
    /// The output of each number for which none is kept.
    made: Vec<Option<T>>,
    /// Room for all outputs.
    room: Vec<T>,
}

/// The output of each input for which none was kept.
pub(crate) fn work_missing<W: Work>(
    alloc: Global,
    work: &W,
    inputs: &[W::In],
    kept: &[Option<W::Out>],
) -> Result<Missing<W::Out>, OutOfMemory>
    requires accepts { All (W.accepts work.now) inputs.now }
    requires kept { length kept.now ≡ length inputs.now }
    ensures made { IfOk result (λ missing. missing.made.items ≡ missing_of (W.does work.now) inputs.now kept.now) }
    ensures empty { IfOk result (λ missing. missing.room.items ≡ []) }
    ensures room { IfOk result (λ missing. length inputs.now ≤ vec_capacity missing.room) }
{
    let mut made = Vec::with_capacity(alloc, inputs.len())?;
    for (number, input) in inputs.iter().enumerate() {
        made.push_reserved(match &kept[number] {
            Some(_) => None,
            None => Some(work.work(alloc, input)?),
        });
    }
    let room = Vec::with_capacity(alloc, inputs.len())?;
    Ok(Missing { made, room })
}

/// The kept outputs in order, with what was made where none was kept.
pub(crate) fn merged<T: Drop>(kept: Vec<Option<T>>, missing: Missing<T>) -> Vec<T>
    requires empty { missing.room.items ≡ [] }
    requires room { length kept.items ≤ vec_capacity missing.room }
    ensures { result.items ≡ merged_of kept.items missing.made.items }
{
    let mut outputs = missing.room;
    let mut others = missing.made.into_iter();
    for output in kept {
        let other = others.next().flatten();
        if let Some(output) = output.or(other) {
            outputs.push_reserved(output);
        }
    }
    outputs
}
