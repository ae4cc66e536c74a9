//! For each process blocks, of which the last process still gets some.

ghost use Rattle.std.specs.Prelude.{◌≡◌, ◌≤◌, ◌+◌, ◌++◌, ◌∷◌, ℕ, [], length, take, IfOk, OnErr, OnOk};
ghost use Rattle.bsp_model.specs.Columns.{row_at, AreCut, IsPut};

use super::BlockColumn;
use crate::block::{Block, PutHead, SendHead};
use crate::{BlocksRef, Message, OpenRow, OutOfMemory, Put, Send, Words};
use std::alloc::Global;
use std::marker::Model;

/// For each process, by its number, blocks in order, and behind them the open row: the blocks of one process more, which are still being added. A block
/// that is added stays where it is.
pub struct OpenBlocks<X: Block> {
    /// The heads, each with the place where the words of its block end, counted from the first word of its process.
    heads: OpenRow<(X::Head, usize)>,
    words: OpenRow<u64>,
}

impl<X: Block> Drop for OpenBlocks<X> {
    fn drop(self) {
        let Self { heads, words } = self;
    }
}

impl<X: Block> Model for OpenBlocks<X> {
    ghost use Rattle.std.specs.Prelude.{ℕ};
    ghost use Rattle.bsp_model.specs.Opened.{Opened};
    ghost use Rattle.bsp_model.specs.Inside.OpenBlocks.{opened_blocks, AreOpenBlocks};

    ghost Value = { Opened X };

    ghost view = { λ b. opened_blocks X.of b.heads b.words };

    ghost invariant = { λ b. AreOpenBlocks X.IsKept b.heads b.words };
}

impl<X: Block> OpenBlocks<X> {
    /// No blocks. They take no memory.
    pub fn new(alloc: Global) -> OpenBlocks<X>
        ensures { result ≡ record { rows = []; last = [] } }
    {
        OpenBlocks {
            heads: OpenRow::new(alloc),
            words: OpenRow::new(alloc),
        }
    }

    /// The number of blocks of the open row.
    #[inline(always)]
    pub fn len(&self) -> usize
        ensures { result ≡ length self.now.last }
    {
        self.heads.len()
    }

    /// Makes room for the blocks of so many processes more, of one word each.
    pub fn reserve(&mut self, processes: usize) -> Result<(), OutOfMemory>
        ensures { self.new ≡ self.old }
    {
        let heads = self.heads.reserve(processes);
        heads.and(self.words.reserve(processes))
    }

    /// The blocks of the open row, to be read where they lie.
    pub fn last(&self) -> BlocksRef<'_, X>
        ensures { result ≡ self.now.last }
    {
        BlocksRef {
            heads: self.heads.as_slice(),
            words: self.words.as_slice(),
        }
    }

    /// Adds a block to the open row. Its words are given in two parts. After `OutOfMemory` nothing has changed.
    #[inline(always)]
    fn add_block(&mut self, head: X::Head, front: &[u64], back: &[u64]) -> Result<(), OutOfMemory>
        requires { X.IsKept (head, front.now ++ back.now) }
        ensures ok { OnOk result (self.new
            ≡ record self.old { last = self.old.last ++ X.of (head, front.now ++ back.now) ∷ [] }) }
        ensures err { OnErr result (self.new ≡ self.old) }
    {
        let before = self.words.len();
        self.words.extend(front)?;
        if let Err(error) = self.words.extend(back) {
            self.words.cut(before);
            return Err(error);
        }
        let end = self.words.len();
        if let Err(error) = self.heads.push((head, end)) {
            self.words.cut(before);
            return Err(error);
        }
        Ok(())
    }

    /// Adds copies of blocks to the open row. After `OutOfMemory` the first of them are there.
    pub fn extend(&mut self, more: &BlocksRef<'_, X>) -> Result<(), OutOfMemory>
        ensures ok { OnOk result (self.new ≡ record self.old { last = self.old.last ++ more.now }) }
        ensures err { OnErr result ((count : ℕ)
            × (self.new ≡ record self.old { last = self.old.last ++ take count more.now })) }
    {
        for place in 0..more.len() {
            let (head, words) = more.parts(place);
            self.add_block(*head, &[], words)?;
        }
        Ok(())
    }

    /// Makes the open row that of a process, where it has a block, and opens the next. After `OutOfMemory` the blocks of the open row are gone.
    #[inline(always)]
    pub fn end_row(&mut self, place: usize) -> Result<(), OutOfMemory>
        requires { length self.old.rows ≤ place }
        ensures ok { OnOk result (IsPut [] (row_at self.old.rows) place self.old.last (row_at self.new.rows)) }
        ensures err { OnErr result (AreCut [] (row_at self.old.rows) place (row_at self.new.rows)) }
        ensures none { self.new.last ≡ [] }
        ensures few { length self.new.rows ≤ place + 1 }
    {
        if self.heads.len() == 0 {
            return Ok(());
        }
        let heads = self.heads.end_row(place);
        if let Err(error) = heads.and(self.words.end_row(place)) {
            self.heads.cut_rows(place);
            self.words.cut_rows(place);
            return Err(error);
        }
        Ok(())
    }

    /// Leaves out the blocks of the processes from a place on, and those of the open row.
    pub fn cut_rows(&mut self, place: usize)
        ensures { self.new ≡ record { rows = take place self.old.rows; last = [] } }
    {
        self.heads.cut_rows(place);
        self.words.cut_rows(place);
    }

    /// A copy of the blocks of the open row, behind no rows.
    pub fn copy_last(&self) -> Result<OpenBlocks<X>, OutOfMemory>
        ensures { IfOk result (λ b. b ≡ record { rows = []; last = self.now.last }) }
    {
        Ok(OpenBlocks {
            heads: self.heads.copy_last()?,
            words: self.words.copy_last()?,
        })
    }

    /// Exchanges the blocks with others, of which those of the processes before a place are taken. The blocks of the open row are gone.
    pub fn swap(&mut self, column: &mut BlockColumn<X>, place: usize)
        ensures taken { self.new ≡ record { rows = take place column.old; last = [] } }
        ensures given { column.new ≡ self.old.rows }
    {
        self.heads.swap(&mut column.pairs.firsts, place);
        self.words.swap(&mut column.pairs.seconds, place);
    }
}

impl OpenBlocks<Put> {
    /// Adds a put to the open row. After `OutOfMemory` nothing has changed.
    #[inline(always)]
    pub fn add(&mut self, target: u64, start: u64, words: &[u64]) -> Result<(), OutOfMemory>
        ensures ok { OnOk result (self.new ≡ record self.old {
          last = self.old.last ++ record { target = target; start = start; words = words.now } ∷ [];
        }) }
        ensures err { OnErr result (self.new ≡ self.old) }
    {
        self.add_block(PutHead { target, start }, &[], words)
    }
}

impl OpenBlocks<Send> {
    /// Adds a message on its way to the open row. After `OutOfMemory` nothing has changed.
    #[inline(always)]
    pub fn add(&mut self, target: u64, tag: &[u64], words: &[u64]) -> Result<(), OutOfMemory>
        ensures ok { OnOk result (self.new ≡ record self.old {
          last = self.old.last ++ record { target = target; tag = tag.now; words = words.now } ∷ [];
        }) }
        ensures err { OnErr result (self.new ≡ self.old) }
    {
        let tag_len = tag.len();
        self.add_block(SendHead { target, tag_len }, tag, words)
    }
}

impl OpenBlocks<Message> {
    /// Adds a message of a queue to the open row. After `OutOfMemory` nothing has changed.
    #[inline(always)]
    pub fn add(&mut self, tag: &[u64], words: &[u64]) -> Result<(), OutOfMemory>
        ensures ok { OnOk result (self.new ≡ record self.old {
          last = self.old.last ++ record { tag = tag.now; words = words.now } ∷ [];
        }) }
        ensures err { OnErr result (self.new ≡ self.old) }
    {
        self.add_block(tag.len(), tag, words)
    }
}

impl OpenBlocks<Words> {
    /// Adds a line to the open row. After `OutOfMemory` nothing has changed.
    pub fn add(&mut self, words: &[u64]) -> Result<(), OutOfMemory>
        ensures ok { OnOk result (self.new ≡ record self.old { last = self.old.last ++ words.now ∷ [] }) }
        ensures err { OnErr result (self.new ≡ self.old) }
    {
        self.add_block((), &[], words)
    }
}
