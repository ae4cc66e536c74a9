//! Changes of blocks of words.

ghost use Rattle.std.specs.Prelude.{◌≡◌, ◌≤◌, ◌+◌, ◌++◌, length, take, drop};

use crate::page::WORDS_OF_A_PAGE;
use crate::seq::replace_items;

/// A block of so few words is copied without a call.
const FEW_WORDS: usize = 8;

/// A change of a block of words. It keeps their number, and depends on them alone.
pub trait Change {
    ghost use Rattle.std.specs.Prelude.{◌≡◌, List, ℕ, length};

    /// The words that the change makes of words.
    ghost makes: { Self → List ℕ → List ℕ };

    /// Writes the words that the change makes of `before` over `after`, which has as many. It takes no memory.
    fn change(&self, before: &[u64], after: &mut [u64])
        requires { length after.old ≡ length before.now }
        ensures { after.new ≡ makes self.now before.now };
}

/// Makes the words of `after` from `start` on those that the change makes of `before`.
#[inline(always)]
pub(crate) fn change_part<C: Change>(before: &[u64], after: &mut [u64], start: usize, change: &C)
    requires { start + length before.now ≤ length after.old }
    ensures made { after.new ≡ take start after.old ++ C.makes change.now before.now
        ++ drop (start + length before.now) after.old }
    ensures count { length (C.makes change.now before.now) ≡ length before.now }
{
    change.change(before, &mut after[start..start + before.len()]);
}

#[inline(always)]
fn change_copied<const MOST: usize, C: Change>(
    words: &mut [u64],
    start: usize,
    len: usize,
    change: &C,
)
    requires inside { start + len ≤ length words.old }
    requires few { len ≤ MOST }
    requires small { MOST ≤ WORDS_OF_A_PAGE }
    ensures made { let changed = C.makes change.now (take len (drop start words.old)) in
        words.new ≡ take start words.old ++ changed ++ drop (start + len) words.old }
    ensures count { length (C.makes change.now (take len (drop start words.old))) ≡ len }
{
    let mut before = [0; MOST];
    let before = &mut before[..len];
    before.copy_from_slice(&words[start..start + len]);
    change_part(before, words, start, change);
}

/// Makes the change in at most `WORDS_OF_A_PAGE` words from `start` on, where they lie.
#[inline(always)]
pub(crate) fn change_in_place<C: Change>(words: &mut [u64], start: usize, len: usize, change: &C)
    requires inside { start + len ≤ length words.old }
    requires few { len ≤ WORDS_OF_A_PAGE }
    ensures made { let changed = C.makes change.now (take len (drop start words.old)) in
        words.new ≡ take start words.old ++ changed ++ drop (start + len) words.old }
    ensures count { length (C.makes change.now (take len (drop start words.old))) ≡ len }
{
    if len <= FEW_WORDS {
        change_copied::<FEW_WORDS, C>(words, start, len, change);
    } else {
        change_copied::<WORDS_OF_A_PAGE, C>(words, start, len, change);
    }
}

/// Makes `after` the words of `before`, with the change made in `len` words from `start` on.
#[inline(always)]
pub(crate) fn copy_changed<C: Change>(
    before: &[u64],
    after: &mut [u64],
    start: usize,
    len: usize,
    change: &C,
)
    requires inside { start + len ≤ length before.now }
    requires alike { length after.old ≡ length before.now }
    ensures made { let changed = C.makes change.now (take len (drop start before.now)) in
        after.new ≡ take start before.now ++ changed ++ drop (start + len) before.now }
    ensures count { length (C.makes change.now (take len (drop start before.now))) ≡ len }
{
    let end = start + len;
    replace_items(after, 0, &before[..start]);
    replace_items(after, end, &before[end..]);
    change_part(&before[start..end], after, start, change);
}
