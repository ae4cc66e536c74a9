//! For each process blocks.

ghost use Rattle.std.specs.Prelude.{◌≡◌, ◌≤◌, ◌<◌, [], ℕ, IfNone, IfSome, OnErr, OnOk, false, length, nat_eq, slice_index_or, true};
ghost use Rattle.bsp_model.specs.Columns.{row_at, AreCut, AreTaken, IsPut};
ghost use Rattle.bsp_model.specs.PutsTo.{AreToNone};
ghost use Rattle.bsp_model.specs.declared.block.PutHead.{PutHead};

use super::pairs::Pairs;
use crate::block::{Block, PutHead};
use crate::rows::{row_behind, start_of};
use crate::{BlocksRef, OutOfMemory, ProcessSet, Put, Share};
use std::alloc::Global;
use std::marker::Model;

/// For each process, by its number, blocks in order; all lie in four lists. A process at which no blocks were put has none.
pub struct BlockColumn<X: Block> {
    pub(super) pairs: Pairs<(X::Head, usize), u64>,
}

impl<X: Block> Drop for BlockColumn<X> {
    fn drop(self) {
        let Self { pairs } = self;
    }
}

impl<X: Block> Model for BlockColumn<X> {
    ghost use Rattle.std.specs.Prelude.{List, ℕ};
    ghost use Rattle.bsp_model.specs.Inside.Blocks.{blocks_of, AreBlocks};
    ghost use Rattle.bsp_model.specs.Inside.Columns.{paired, pair_at};

    ghost Value = { List (List X) };

    ghost view = { λ c. paired (blocks_of X.of) c.pairs.0 c.pairs.1 };

    ghost invariant = { λ c. (k : ℕ) → AreBlocks X.IsKept (pair_at c.pairs k).0 (pair_at c.pairs k).1 };
}

impl<X: Block> BlockColumn<X> {
    /// No blocks for any process. They take no memory.
    pub fn new(alloc: Global) -> BlockColumn<X>
        ensures { result ≡ [] }
    {
        BlockColumn {
            pairs: Pairs::new(alloc),
        }
    }

    /// Makes room for the blocks of so many processes more, one of one word each.
    pub fn reserve(&mut self, processes: usize) -> Result<(), OutOfMemory>
        ensures { self.new ≡ self.old }
    {
        self.pairs.reserve(processes)
    }

    /// Makes room for a share of the blocks of another column.
    pub fn reserve_like(&mut self, like: &BlockColumn<X>, share: Share) -> Result<(), OutOfMemory>
        ensures { self.new ≡ self.old }
    {
        self.pairs.reserve_like(&like.pairs, share)
    }

    /// Takes all blocks away. Their room stays.
    pub fn clear(&mut self)
        ensures { self.new ≡ [] }
    {
        self.pairs.clear();
    }

    /// Whether no process has blocks, for sure: where it is false, all may still have none.
    #[inline(always)]
    pub fn is_empty(&self) -> bool
        ensures { result ≡ nat_eq (length self.now) 0 }
    {
        self.pairs.is_empty()
    }

    /// The blocks of a process, to be read where they lie.
    #[inline(always)]
    pub fn get(&self, place: usize) -> BlocksRef<'_, X>
        ensures { result ≡ row_at self.now place }
    {
        let (heads, words) = self.pairs.pair(place);
        BlocksRef { heads, words }
    }

    /// Leaves out the blocks of the processes from a place on.
    #[inline(always)]
    pub fn cut(&mut self, place: usize)
        ensures { AreCut [] (row_at self.old) place (row_at self.new) }
    {
        self.pairs.cut(place);
    }

    /// Makes `blocks` those of a process, and takes away those of the processes behind it. After `OutOfMemory` it has none either.
    #[inline(always)]
    pub fn put(&mut self, place: usize, blocks: &BlocksRef<'_, X>) -> Result<(), OutOfMemory>
        ensures ok { OnOk result (IsPut [] (row_at self.old) place blocks.now (row_at self.new)) }
        ensures err { OnErr result (AreCut [] (row_at self.old) place (row_at self.new)) }
    {
        self.pairs.put_pair(place, blocks.heads, blocks.words)
    }

    /// Copies the rows `from` to `to` of `more`, the last excluded, to `place` and the places behind it. After `OutOfMemory` no row stands from `place` on.
    pub fn take_range(
        &mut self,
        place: usize,
        more: &BlockColumn<X>,
        from: usize,
        to: usize,
    ) -> Result<(), OutOfMemory>
        ensures ok { OnOk result (AreTaken [] (row_at self.old) place (row_at more.now) from to (row_at self.new)) }
        ensures err { OnErr result (AreCut [] (row_at self.old) place (row_at self.new)) }
    {
        self.pairs.take_range(place, &more.pairs, from, to)
    }
}

fn head_to(heads: &[(PutHead, usize)], targets: &ProcessSet, from: usize) -> usize
    requires { from ≤ length heads.now }
    ensures later { from ≤ result }
    ensures within { result ≤ length heads.now }
    ensures before { (k : ℕ) (head : PutHead × ℕ) → from ≤ k → k < result
        → slice_index_or targets.now (slice_index_or heads.now k head).0.target false ≡ false }
    ensures there { (head : PutHead × ℕ) → result < length heads.now
        → slice_index_or targets.now (slice_index_or heads.now result head).0.target false ≡ true }
{
    let targets = *targets;
    for place in from..heads.len() {
        let (head, _end) = &heads[place];
        if targets.contains(head.target as usize) {
            return place;
        }
    }
    heads.len()
}

impl BlockColumn<Put> {
    /// The first process from `from` on that puts something to a process of the set.
    pub fn next_to(&self, targets: &ProcessSet, from: usize) -> Option<usize>
        ensures later { IfSome result (λ next. from ≤ next) }
        ensures before { IfSome result (λ next. (k : ℕ) → from ≤ k → k < next
            → AreToNone targets.now (row_at self.now k)) }
        ensures there { IfSome result (λ next. ¬ AreToNone targets.now (row_at self.now next)) }
        ensures none { IfNone result ((k : ℕ) → from ≤ k → AreToNone targets.now (row_at self.now k)) }
    {
        let heads = &self.pairs.firsts;
        let ends = heads.ends.as_slice();
        if from >= ends.len() {
            return None;
        }
        let items = heads.items.as_slice();
        let place = head_to(items, targets, start_of(ends, from));
        if place == items.len() {
            return None;
        }
        Some(row_behind(ends, from, place))
    }
}
