//! Marks of the processes to which a sender's requests have changed.

ghost use Rattle.std.specs.Prelude.{◌≡◌, ℕ, ◌<◌, ◌≤◌, ◌==◌, [], filter, map, take, drop, length, true, All};
ghost use Rattle.bsp_deliver.specs.Inside.Comparison.{HasSameParcel};
ghost use Rattle.bsp_deliver.specs.Inside.Marks.{AreMarkedUnless, AreToKnown};

use crate::addressed::Addressed;
use crate::same::are_same_to;
use bsp_model::{BlocksRef, ProcessSet};
use bsp_step::OutcomeRef;

/// Marks the processes to which the requests at the first places differ, as far as the requests at each place are to one process in both
/// lists. Returns how far that is.
#[inline(always)]
fn mark_aligned<R: Addressed>(
    marks: &mut ProcessSet,
    old: &BlocksRef<'_, R>,
    new: &BlocksRef<'_, R>,
) -> usize
    requires { All (λ r. R.addressee r < length marks.old) old.now }
    ensures in_old { result ≤ length old.now }
    ensures in_new { result ≤ length new.now }
    ensures aligned { map R.addressee (take result old.now) ≡ map R.addressee (take result new.now) }
    ensures marked { AreMarkedUnless (λ d. filter (λ r. R.addressee r == d) (take result old.now)
        ≡ filter (λ r. R.addressee r == d) (take result new.now)) marks.old marks.new }
{
    let shared = old.len().min(new.len());
    for i in 0..shared {
        let addressee = R::addressee_at(old, i);
        if addressee != R::addressee_at(new, i) {
            return i;
        }
        if !R::same_at(old, i, new, i) {
            marks.insert(addressee as usize);
        }
    }
    shared
}

/// Marks the processes to which the requests differ from a place on.
#[inline(always)]
fn mark_unaligned<R: Addressed>(
    marks: &mut ProcessSet,
    old: &BlocksRef<'_, R>,
    new: &BlocksRef<'_, R>,
    from: usize,
)
    requires in_old { from ≤ length old.now }
    requires in_new { from ≤ length new.now }
    ensures { AreMarkedUnless (λ d. filter (λ r. R.addressee r == d) (drop from old.now)
        ≡ filter (λ r. R.addressee r == d) (drop from new.now)) marks.old marks.new }
{
    if from == old.len() && from == new.len() {
        return;
    }
    for d in 0..marks.count() {
        if !marks.contains(d) && !are_same_to(old, new, from, d as u64) {
            marks.insert(d);
        }
    }
}

#[inline(always)]
fn mark_changes<R: Addressed>(
    marks: &mut ProcessSet,
    old: &BlocksRef<'_, R>,
    new: &BlocksRef<'_, R>,
)
    requires { All (λ r. R.addressee r < length marks.old) old.now }
    ensures { AreMarkedUnless (λ d. filter (λ r. R.addressee r == d) old.now
        ≡ filter (λ r. R.addressee r == d) new.now) marks.old marks.new }
{
    let aligned = mark_aligned(marks, old, new);
    mark_unaligned(marks, old, new, aligned);
}

/// Marks the processes to which one sender brings other puts or messages than before. Messages are not looked for where the sender is known to send none.
#[inline(always)]
pub fn mark_parcels(
    marks: &mut ProcessSet,
    old: &OutcomeRef<'_>,
    new: &OutcomeRef<'_>,
    sends_none: bool,
)
    requires known { AreToKnown (length marks.old) old.now }
    requires none { sends_none ≡ true → (old.now.sends ≡ []) × (new.now.sends ≡ []) }
    ensures { AreMarkedUnless (λ d. HasSameParcel d old.now new.now) marks.old marks.new }
{
    mark_changes(marks, &old.puts, &new.puts);
    if sends_none {
        return;
    }
    mark_changes(marks, &old.sends, &new.sends);
}
