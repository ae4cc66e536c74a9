//! Calls on batches.

ghost use Rattle.std.specs.Prelude.{◌≡◌, ◌++◌, IfOk};
ghost use Rattle.std.specs.List.{list_any};
ghost use Rattle.bsp_incr.specs.Undo.{same_part};
ghost use Rattle.bsp_laws.specs.Batches.{IsSequence, last_edits, IsInPlaceOf};

use bsp_incr::{Batch, Edit};
use bsp_model::{OutOfMemory, Seq};
use std::alloc::Global;

/// Two batches as one: it is accepted exactly where both are, one after the other, and does what they do. `OutOfMemory` where there is none for
/// the list.
pub fn join(alloc: Global, first: &[Edit], second: &[Edit]) -> Result<Batch, OutOfMemory>
    ensures batch { IfOk result (λ both. both ≡ first.now ++ second.now) }
    ensures law { IfOk result (λ both. IsSequence first.now second.now both) }
{
    let mut both = first.to_vec(alloc)?;
    both.extend_from_slice(second)?;
    Ok(Seq::from_vec(both))
}

fn are_of_one_part(edit: &Edit, other: &Edit) -> bool
    ensures { result ≡ same_part edit.now other.now }
{
    match (*edit, *other) {
        (
            Edit::Word { pid, addr, .. },
            Edit::Word {
                pid: p,
                addr: a,
                ..
            },
        ) => { pid == p && addr == a }
        (
            Edit::Arg { pid, index, .. },
            Edit::Arg {
                pid: p,
                index: i,
                ..
            },
        ) => { pid == p && index == i }
        (Edit::Limit(_), Edit::Limit(_)) | (Edit::Prices { .. }, Edit::Prices { .. }) => true,
        _ => false,
    }
}

/// Whether there is an edit of the same part among these.
fn is_overwritten(edit: &Edit, later: &[Edit]) -> bool
    ensures { result ≡ list_any (same_part edit.now) later.now }
{
    later.iter().any(|other| are_of_one_part(edit, other))
}

/// The last edit of each part, in the order in which they stand in the batch: it does what the batch does, and is accepted where the batch is. Of a
/// batch that is refused nothing is claimed, since the refused edit may be gone. `OutOfMemory` where there is none for the list.
pub fn coalesce(alloc: Global, edits: &[Edit]) -> Result<Batch, OutOfMemory>
    ensures batch { IfOk result (λ last. last ≡ last_edits edits.now) }
    ensures law { IfOk result (λ last. IsInPlaceOf edits.now last) }
{
    let mut last = Seq::new(alloc);
    for k in 0..edits.len() {
        let edit = edits[k];
        if !is_overwritten(&edit, &edits[k + 1..]) {
            last.push(edit)?;
        }
    }
    Ok(last)
}
