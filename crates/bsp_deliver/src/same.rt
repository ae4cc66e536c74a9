//! Whether two turns issued the same requests to a process, and whether a get reads the same words in two supersteps.

ghost use Rattle.std.specs.Prelude.{◌≡◌, ℕ, ◌+◌, ◌<◌, ◌≤◌, ◌==◌, ◌↔◌, IsTrue, filter, drop, length, true, slice_index, slice_index_or};
ghost use Rattle.bsp_deliver.specs.Requests.{each_below, words_read};
ghost use Rattle.bsp_deliver.specs.Readable.{IsReadable};

use crate::addressed::Addressed;
use bsp_model::{BlocksRef, Get};
use bsp_step::{OutcomeRef, Outcomes};

/// The place of the next request to `d`, or the number of requests.
#[inline(always)]
fn next_to<R: Addressed>(requests: &BlocksRef<'_, R>, d: u64, from: usize) -> usize
    requires { from ≤ length requests.now }
    ensures within { result ≤ length requests.now }
    ensures later { from ≤ result }
    ensures rest { filter (λ r. R.addressee r == d) (drop from requests.now)
        ≡ filter (λ r. R.addressee r == d) (drop result requests.now) }
    ensures here { (r : _) → result < length requests.now → (R.addressee (slice_index_or requests.now result r) == d)
        ≡ true }
{
    let count = requests.len();
    for i in from..count {
        if R::addressee_at(requests, i) == d {
            return i;
        }
    }
    count
}

/// Whether the requests of one sender to `d`, from a place on, are equal lists.
#[inline(always)]
pub(crate) fn are_same_to<R: Addressed>(
    old: &BlocksRef<'_, R>,
    new: &BlocksRef<'_, R>,
    from: usize,
    d: u64,
) -> bool
    requires in_old { from ≤ length old.now }
    requires in_new { from ≤ length new.now }
    ensures { IsTrue result ↔ (filter (λ r. R.addressee r == d) (drop from old.now)
        ≡ filter (λ r. R.addressee r == d) (drop from new.now)) }
{
    let old_count = old.len();
    let new_count = new.len();
    let mut i = next_to(old, d, from);
    let mut j = next_to(new, d, from);
    while i < old_count && j < new_count {
        if !R::same_at(old, i, new, j) {
            return false;
        }
        i = next_to(old, d, i + 1);
        j = next_to(new, d, j + 1);
    }
    i == old_count && j == new_count
}

/// Whether one sender's puts to process `d` are equal lists.
#[inline(always)]
pub fn are_same_puts(old: &OutcomeRef<'_>, new: &OutcomeRef<'_>, d: u64) -> bool
    ensures { IsTrue result ↔ (filter (λ p. p.target == d) old.now.puts ≡ filter (λ p. p.target == d) new.now.puts) }
{
    are_same_to(&old.puts, &new.puts, 0, d)
}

/// Whether one sender's messages to process `d` are equal lists.
#[inline(always)]
pub fn are_same_sends(old: &OutcomeRef<'_>, new: &OutcomeRef<'_>, d: u64) -> bool
    ensures { IsTrue result ↔ (filter (λ m. m.target == d) old.now.sends ≡ filter (λ m. m.target == d) new.now.sends) }
{
    are_same_to(&old.sends, &new.sends, 0, d)
}

/// Whether a get reads the same words.
pub fn get_reads_same_words(old: &Outcomes, new: &Outcomes, get: &Get) -> bool
    requires old { IsReadable old.now get.now }
    requires new { IsReadable new.now get.now }
    ensures { IsTrue result ↔ (words_read old.now get.now ≡ words_read new.now get.now) }
{
    let owner = get.owner as usize;
    let earlier = old.get(owner);
    let later = new.get(owner);
    let (start, len) = (get.start, get.len as usize);
    earlier
        .memory
        .has_same_words(start, &later.memory, start, len)
}
