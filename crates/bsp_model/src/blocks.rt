//! Blocks in two lists: the heads, and the words of all blocks one behind the other.

ghost use Rattle.std.specs.Prelude.{◌≡◌, ◌<◌, ◌≤◌, [], length, Some, IsTrue, ◌↔◌, nat_eq, slice_get, slice_index_or};
ghost use Rattle.bsp_model.specs.Inside.Blocks.{AreEnds, start_at};

mod kinds;

use crate::block::Block;
use crate::seq::{are_same, are_same_words};
use crate::{OpenBlocks, OutOfMemory, Same, TryCopy};
pub use kinds::{MessageView, PutView, SendView};
use std::alloc::Global;
use std::marker::Model;

/// Blocks in order.
#[derive(Drop)]
pub struct Blocks<X: Block> {
    /// They are its open row; no row is closed.
    row: OpenBlocks<X>,
}

impl<X: Block> Model for Blocks<X> {
    ghost use Rattle.std.specs.Prelude.{List};

    ghost Value = { List X };

    ghost view = { λ b. b.row.last };
}

/// Blocks in order, read where they lie.
#[derive(Drop)]
pub struct BlocksRef<'a, X: Block> {
    pub(crate) heads: &'a [(X::Head, usize)],
    pub(crate) words: &'a [u64],
}

impl<'a, X: Block> Model for BlocksRef<'a, X> {
    ghost use Rattle.std.specs.Prelude.{List};
    ghost use Rattle.bsp_model.specs.Inside.Blocks.{blocks_of, AreBlocks};

    ghost Value = { List X };

    ghost view = { λ b. blocks_of X.of b.heads.now b.words.now };

    ghost invariant = { λ b. AreBlocks X.IsKept b.heads.now b.words.now };
}

#[inline]
fn bounds<H>(heads: &[(H, usize)], count: usize, place: usize) -> (usize, usize)
    requires ends { AreEnds 0 heads.now count }
    requires known { place < length heads.now }
    ensures start { result.0 ≡ start_at place 0 heads.now }
    ensures end { (head : _) → result.1 ≡ (slice_index_or heads.now place head).1 }
    ensures order { result.0 ≤ result.1 }
    ensures inside { result.1 ≤ count }
{
    let start = if place == 0 { 0 } else { heads[place - 1].1 };
    (start, heads[place].1)
}

impl<X: Block> Blocks<X> {
    /// No blocks, which take no memory.
    pub fn new(alloc: Global) -> Blocks<X>
        ensures { result ≡ [] }
    {
        Blocks {
            row: OpenBlocks::new(alloc),
        }
    }

    /// The number of blocks.
    #[inline(always)]
    pub fn len(&self) -> usize
        ensures { result ≡ length self.now }
    {
        self.row.len()
    }

    /// All blocks, to be read where they lie.
    #[inline(always)]
    pub fn as_ref(&self) -> BlocksRef<'_, X>
        ensures { result ≡ self.now }
    {
        self.row.last()
    }
}

impl<'a, X: Block> BlocksRef<'a, X> {
    /// No blocks.
    pub fn none() -> BlocksRef<'a, X>
        ensures { result ≡ [] }
    {
        BlocksRef {
            heads: &[],
            words: &[],
        }
    }

    /// The number of blocks.
    #[inline(always)]
    pub fn len(&self) -> usize
        ensures { result ≡ length self.now }
    {
        self.heads.len()
    }

    /// Whether there is no block.
    #[inline]
    pub fn is_empty(&self) -> bool
        ensures { result ≡ nat_eq (length self.now) 0 }
    {
        self.heads.is_empty()
    }

    #[inline]
    pub(crate) fn parts(&self, place: usize) -> (&'a X::Head, &'a [u64])
        requires { place < length self.now }
        ensures is { slice_get self.now place ≡ Some (X.of (result.0.now, result.1.now)) }
        ensures kept { X.IsKept (result.0.now, result.1.now) }
    {
        let heads = self.heads;
        let (start, end) = bounds(heads, self.words.len(), place);
        (&heads[place].0, &self.words[start..end])
    }

    /// Whether the block at `place` equals the block of `others` at `other`.
    pub fn same_at(&self, place: usize, others: &BlocksRef<'_, X>, other: usize) -> bool
        requires known { place < length self.now }
        requires known_other { other < length others.now }
        ensures { IsTrue result ↔ (slice_get self.now place ≡ slice_get others.now other) }
    {
        let (head, words) = self.parts(place);
        let (other_head, other_words) = others.parts(other);
        head.same(other_head) && words == other_words
    }
}

impl<'a, X: Block> Same for BlocksRef<'a, X> {
    fn same(&self, other: &BlocksRef<'a, X>) -> bool {
        are_same(self.heads, other.heads) && are_same_words(self.words, other.words)
    }
}

impl<X: Block> TryCopy for Blocks<X> {
    fn copy(&self) -> Result<Blocks<X>, OutOfMemory> {
        Ok(Blocks {
            row: self.row.copy_last()?,
        })
    }
}

impl<X: Block> Same for Blocks<X> {
    fn same(&self, other: &Blocks<X>) -> bool {
        self.as_ref().same(&other.as_ref())
    }
}
