//! For each process two rows, such as its stores.

ghost use Rattle.std.specs.Prelude.{◌≡◌, ◌<◌, ◌&&◌, ℕ, [], OnErr, OnOk, length, nat_eq};
ghost use Rattle.bsp_model.specs.Columns.{AreCut, AreTaken, IsPut};
ghost use Rattle.bsp_model.specs.Inside.Beside.{stores_beside, AreBeside};
ghost use Rattle.bsp_model.specs.Inside.Columns.{pair_at};

use crate::range::Range;
use crate::stores_ref::range_beside;
use crate::{Column, LocalMemory, MemoryRef, OutOfMemory, Share, StoresRef};
use std::alloc::Global;
use std::marker::Model;

/// For each process, by its number, two rows, whose items lie in two lists.
pub struct Pairs<A, B> {
    pub(crate) firsts: Column<A>,
    pub(crate) seconds: Column<B>,
}

impl<A: Drop, B: Drop> Drop for Pairs<A, B> {
    fn drop(self) {
        let Self { firsts, seconds } = self;
    }
}

impl<A, B> Model for Pairs<A, B> {
    ghost use Rattle.std.specs.Prelude.{List};

    ghost Value = { (List (List A)) × (List (List B)) };

    ghost view = { λ p. (p.firsts, p.seconds) };
}

impl<A, B> Pairs<A, B> {
    /// Empty rows alone, which take no memory.
    pub fn new(alloc: Global) -> Pairs<A, B>
        ensures { result ≡ ([], []) }
    {
        Pairs {
            firsts: Column::new(alloc),
            seconds: Column::new(alloc),
        }
    }

    #[inline(always)]
    pub fn is_empty(&self) -> bool
        ensures { result ≡ (nat_eq (length self.now.0) 0 && nat_eq (length self.now.1) 0) }
    {
        self.firsts.is_empty() && self.seconds.is_empty()
    }

    #[inline(always)]
    pub(crate) fn pair(&self, place: usize) -> (&[A], &[B])
        ensures { (result.0.now, result.1.now) ≡ pair_at self.now place }
    {
        (self.firsts.row(place), self.seconds.row(place))
    }
}

impl<A: Copy, B: Copy> Pairs<A, B> {
    /// Makes room for the rows of so many processes more, of one item each.
    pub fn reserve(&mut self, processes: usize) -> Result<(), OutOfMemory>
        ensures { self.new ≡ self.old }
    {
        let firsts = self.firsts.reserve(processes);
        firsts.and(self.seconds.reserve(processes))
    }

    /// Makes room for a share of the rows that others have.
    pub fn reserve_like(&mut self, like: &Pairs<A, B>, share: Share) -> Result<(), OutOfMemory>
        ensures { self.new ≡ self.old }
    {
        let firsts = self.firsts.reserve_like(&like.firsts, share);
        firsts.and(self.seconds.reserve_like(&like.seconds, share))
    }

    #[inline(always)]
    pub fn cut(&mut self, place: usize)
        ensures { AreCut ([], []) (pair_at self.old) place (pair_at self.new) }
    {
        self.firsts.truncate(place);
        self.seconds.truncate(place);
    }

    /// Exchanges all rows with others. Columns without a row stay where they are.
    #[inline(always)]
    pub fn swap(&mut self, other: &mut Self)
        ensures taken { self.new ≡ other.old }
        ensures given { other.new ≡ self.old }
    {
        self.firsts.swap(&mut other.firsts);
        self.seconds.swap(&mut other.seconds);
    }

    /// Takes all rows away. Their room stays.
    pub fn clear(&mut self)
        ensures { self.new ≡ ([], []) }
    {
        self.firsts.clear();
        self.seconds.clear();
    }

    #[inline(always)]
    pub(crate) fn put_pair(
        &mut self,
        place: usize,
        first: &[A],
        second: &[B],
    ) -> Result<(), OutOfMemory>
        ensures ok { OnOk result (IsPut ([], []) (pair_at self.old) place (first.now, second.now) (pair_at self.new)) }
        ensures err { OnErr result (AreCut ([], []) (pair_at self.old) place (pair_at self.new)) }
    {
        let firsts = self.firsts.put(place, first);
        let both = firsts.and(self.seconds.put(place, second));
        if both.is_err() {
            self.cut(place);
        }
        both
    }

    /// Copies the rows `from` to `to` of `more`, the last excluded, to `place` and the places behind it. After `OutOfMemory` no row stands from `place` on.
    pub fn take_range(
        &mut self,
        place: usize,
        more: &Pairs<A, B>,
        from: usize,
        to: usize,
    ) -> Result<(), OutOfMemory>
        ensures ok { OnOk result
            (AreTaken ([], []) (pair_at self.old) place (pair_at more.now) from to (pair_at self.new)) }
        ensures err { OnErr result (AreCut ([], []) (pair_at self.old) place (pair_at self.new)) }
    {
        let firsts = self.firsts.take_range(place, &more.firsts, from, to);
        let both = firsts.and(self.seconds.take_range(place, &more.seconds, from, to));
        if both.is_err() {
            self.cut(place);
        }
        both
    }
}

/// For each process, by its number, stores in the order in which they were made, in few lists. They are kept beside the memory that its turn left:
/// where they are one range, whose words stand there, no words are kept.
pub type StoreColumn = Pairs<Range, u64>;

impl Pairs<Range, u64> {
    /// Those of a process beside the memory that its turn left, to be read where they lie.
    #[inline(always)]
    pub fn get<'a>(&'a self, place: usize, memory: &MemoryRef<'a>) -> StoresRef<'a>
        requires { AreBeside self.now place memory.now }
        ensures { result ≡ stores_beside self.now place memory.now }
    {
        let (ranges, values) = self.pair(place);
        StoresRef {
            ranges,
            values,
            memory: memory.reborrow(),
        }
    }

    /// Puts the stores of a process beside its memory. The rows behind the process are left out, and after `OutOfMemory` its own row too.
    pub fn put(
        &mut self,
        place: usize,
        stores: &StoresRef<'_>,
        memory: &MemoryRef<'_>,
    ) -> Result<(), OutOfMemory>
        ensures before { (k : ℕ) → k < place → pair_at self.new k ≡ pair_at self.old k }
        ensures behind { (k : ℕ) → place < k → pair_at self.new k ≡ ([], []) }
        ensures beside { OnOk result (AreBeside self.new place memory.now) }
        ensures there { OnOk result (stores_beside self.new place memory.now ≡ stores.now) }
        ensures err { OnErr result (pair_at self.new place ≡ ([], [])) }
    {
        if stores.ranges.len() == 1 && stores.stand_in(stores.ranges[0], memory) {
            return self.put_pair(place, stores.ranges, &[]);
        }
        let Some(_) = range_beside(stores.ranges, stores.values) else {
            return self.put_pair(place, stores.ranges, stores.values);
        };
        self.cut(place);
        let words = stores.to_words(memory.alloc)?;
        self.put_pair(place, stores.ranges, words.as_slice())
    }

    /// The same for those that a turn made, beside the memory that it left.
    #[inline(always)]
    pub fn put_local(&mut self, place: usize, local: &LocalMemory) -> Result<(), OutOfMemory>
        ensures before { (k : ℕ) → k < place → pair_at self.new k ≡ pair_at self.old k }
        ensures behind { (k : ℕ) → place < k → pair_at self.new k ≡ ([], []) }
        ensures beside { OnOk result (AreBeside self.new place local.now.memory) }
        ensures there { OnOk result (stores_beside self.new place local.now.memory ≡ local.now.stores) }
    {
        self.put_pair(place, local.ranges.as_slice(), local.values.as_slice())
    }
}
