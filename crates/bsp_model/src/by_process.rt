//! An item for each of several processes, and how the items of some are replaced.

ghost use Rattle.std.specs.Prelude.{ℕ, ◌≡◌, ◌<◌, ◌≤◌, ◌++◌, [], All, IfOk, List, OnErr, OnOk, length, slice_range};
ghost use Rattle.bsp_model.specs.Replaced.{replaced, IsAscending};

use crate::OutOfMemory;
use crate::places::end_of_run;
use std::alloc::Global;

/// An item for each of several processes, in flat lists. The items of consecutive processes are copied in one piece.
pub trait ByProcess: Sized {
    ghost Item: { Type 0 };

    ghost items: { Self → List Item };

    // All items, with new items in the places of the items of their processes.
    ghost lay: { Self → List ℕ → Self → Self };

    ghost lays: { (all : Self) (processes : List ℕ) (new : Self)
        → items (lay all processes new) ≡ replaced (items all) processes (items new) };

    /// The number of processes.
    fn count(&self) -> usize
        ensures { result ≡ length (items self.now) };

    /// Nothing, with as much room.
    fn room_like(&self, alloc: Global) -> Result<Self, OutOfMemory>
        ensures { IfOk result (λ room. items room ≡ []) };

    /// For how many items there is room. It is for speed alone, and may be any number.
    fn capacity(&self) -> usize;

    /// Nothing, in the room of these items.
    fn into_room(self) -> Self
        ensures { items result ≡ [] };

    /// Adds the items of `more` from `from` on, and before `to`. Full pages of memories are shared. After `OutOfMemory` nothing has changed.
    fn append_range(&mut self, more: &Self, from: usize, to: usize) -> Result<(), OutOfMemory>
        requires order { from ≤ to }
        requires inside { to ≤ length (items more.now) }
        ensures ok { OnOk result (items self.new ≡ items self.old ++ slice_range (items more.now) from to) }
        ensures err { OnErr result (items self.new ≡ items self.old) };
}

/// Adds to `all`, which is empty, the items of all processes, with new items of some, which are in ascending order. Items of consecutive processes are
/// copied in one piece. After `OutOfMemory` some of them are added.
pub fn add_replaced<T: ByProcess>(
    all: &mut T,
    old: &T,
    processes: &[usize],
    new: &T,
) -> Result<(), OutOfMemory>
    requires empty { T.items all.old ≡ [] }
    requires known { All (λ p. p < length (T.items old.now)) processes.now }
    requires ascending { IsAscending processes.now }
    requires count { length (T.items new.now) ≡ length processes.now }
    ensures { OnOk result (T.items all.new ≡ replaced (T.items old.now) processes.now (T.items new.now)) }
{
    let mut place = 0;
    while place < processes.len() {
        let end = end_of_run(processes, place);
        all.append_range(old, all.count(), processes[place])?;
        all.append_range(new, place, end)?;
        place = end;
    }
    all.append_range(old, all.count(), old.count())
}

/// The items of all processes, with new items of some, which are in ascending order.
pub fn with_replaced<T: ByProcess + Drop>(
    alloc: Global,
    old: &T,
    processes: &[usize],
    new: &T,
) -> Result<T, OutOfMemory>
    requires known { All (λ p. p < length (T.items old.now)) processes.now }
    requires ascending { IsAscending processes.now }
    requires count { length (T.items new.now) ≡ length processes.now }
    ensures { IfOk result (λ all. T.items all ≡ replaced (T.items old.now) processes.now (T.items new.now)) }
{
    let mut all = old.room_like(alloc)?;
    let added = add_replaced(&mut all, old, processes, new);
    added.and(Ok(all))
}
