//! The memories of several processes.

ghost use Rattle.std.specs.Prelude.{◌≡◌, ◌<◌, ◌≤◌, ◌+◌, ◌++◌, ◌∷◌, [], All, IfOk, OnErr, OnOk, length, nat_le, slice_index_or, slice_range, slice_set};
ghost use Rattle.bsp_model.specs.Columns.{row_at};
ghost use Rattle.bsp_model.specs.Memory.{memory_written};

use crate::lasts::Lasts;
use crate::page::{Page, WORDS_OF_A_PAGE};
use crate::paging::{copied_pages, cut_write, is_within, write_row};
use crate::{
    ByProcess, Memory, MemoryRef, OutOfMemory, Share, SharedColumn, SharedSeq, TryCopy,
    WORDS_WORTH_A_LOOK,
};
use std::alloc::{AllocError, Global};
use std::marker::Model;
use std::mem;

/// The memories of several processes, by process. Copies share the pages that are full. A memory that lies in one piece has none.
pub struct Memories {
    /// The full pages of each memory. Where `lasts` has no row, they belong to no memory.
    pages: SharedColumn<Page>,
    /// The words behind them: of each memory fewer than a page has, or all where it lies in one piece.
    lasts: Lasts,
}

impl Drop for Memories {
    fn drop(self) {
        let Self { pages, lasts } = self;
    }
}

impl Model for Memories {
    ghost use Rattle.std.specs.Prelude.{List, ℕ};
    ghost use Rattle.bsp_model.specs.Inside.Memories.{memories_of, ArePaged};

    ghost Value = { List (List ℕ) };

    ghost view = { λ m. memories_of m.pages m.lasts };

    ghost invariant = { λ m. ArePaged m.pages m.lasts };
}

/// Takes the full pages of a memory, of which there may be none.
#[inline(always)]
fn take_full(pages: &mut Vec<Page>) -> Result<SharedSeq<Page>, OutOfMemory>
    ensures full { IfOk result (λ full. full ≡ pages.old.items) }
    ensures none { pages.new.items ≡ [] }
{
    if pages.is_empty() {
        return Ok(SharedSeq::new());
    }
    let none = Vec::new(*pages.allocator());
    SharedSeq::try_from_vec(mem::replace(pages, none))
}

/// Copies of the full pages of a memory, of which there may be none.
#[inline(always)]
fn shared_copies(alloc: Global, pages: &[Page]) -> Result<SharedSeq<Page>, OutOfMemory>
    ensures { IfOk result (λ full. full ≡ pages.now) }
{
    if pages.is_empty() {
        return Ok(SharedSeq::new());
    }
    SharedSeq::try_from_vec(copied_pages(alloc, pages)?)
}

impl Memories {
    /// No memories, which take no memory.
    pub fn new(alloc: Global) -> Memories
        ensures { result ≡ [] }
    {
        Memories {
            pages: SharedColumn::new(alloc),
            lasts: Lasts::new(alloc),
        }
    }

    /// From now on a memory in one piece keeps a list of its own, unless it is short. Such lists are handed on and not copied.
    pub fn keep_lists(&mut self)
        ensures { self.new ≡ self.old }
    {
        self.lasts.keep_lists(WORDS_WORTH_A_LOOK);
    }

    /// Takes all memories away. Their room stays.
    pub fn clear(&mut self)
        ensures { self.new ≡ [] }
    {
        self.pages.clear();
        self.lasts.clear();
    }

    /// Makes room for so many memories more beside their full pages.
    pub fn reserve(&mut self, count: usize) -> Result<(), OutOfMemory>
        ensures { self.new ≡ self.old }
    {
        self.lasts.reserve(count)
    }

    /// Makes room for a share of other memories beside their full pages.
    pub fn reserve_like(&mut self, like: &Memories, share: Share) -> Result<(), OutOfMemory>
        ensures { self.new ≡ self.old }
    {
        let pages = self.pages.reserve_like(&like.pages, share);
        pages.and(self.lasts.reserve_like(&like.lasts, share))
    }

    /// Makes these memories copies of others. Full pages are shared. After `OutOfMemory` there are none.
    pub fn copy_from(&mut self, source: &Memories) -> Result<(), OutOfMemory>
        ensures { OnOk result (self.new ≡ source.now) }
    {
        self.clear();
        self.reserve_like(source, Share::whole())?;
        self.append_range(source, 0, source.len())
    }

    /// The number of memories.
    #[inline(always)]
    pub fn len(&self) -> usize
        ensures { result ≡ length self.now }
    {
        self.lasts.len()
    }

    /// The memory of a process.
    #[inline(always)]
    pub fn get(&self, pid: usize) -> MemoryRef<'_>
        requires { pid < length self.now }
        ensures { result ≡ slice_index_or self.now pid [] }
    {
        let pages = self.pages.row(pid);
        let last = self.lasts.row(pid);
        MemoryRef {
            alloc: self.pages.allocator(),
            pages,
            last,
            len: WORDS_OF_A_PAGE * pages.len() + last.len(),
        }
    }

    /// Takes the words out of `memory`, which may then have any words, but no more than before.
    #[inline(always)]
    pub fn push_from(&mut self, memory: &mut Memory) -> Result<(), OutOfMemory>
        ensures ok { OnOk result (self.new ≡ self.old ++ memory.old ∷ []) }
        ensures err { OnErr result (self.new ≡ self.old) }
        ensures few { length memory.new ≤ length memory.old }
    {
        memory.len = memory.last.len();
        let full = take_full(&mut memory.pages)?;
        self.pages.put(self.lasts.len(), full)?;
        self.lasts.push_from(&mut memory.last)?;
        memory.len = memory.last.len();
        Ok(())
    }

    /// Adds a copy of a memory, which shares the pages that are full. After `OutOfMemory` nothing has changed.
    #[inline]
    pub fn push_copy(&mut self, memory: &MemoryRef<'_>) -> Result<(), OutOfMemory>
        ensures ok { OnOk result (self.new ≡ self.old ++ memory.now ∷ []) }
        ensures err { OnErr result (self.new ≡ self.old) }
    {
        let full = shared_copies(self.pages.allocator(), memory.pages)?;
        self.pages.put(self.lasts.len(), full)?;
        self.lasts.push(memory.last)
    }

    /// Adds the memories of `more`, and leaves none there: pages and lists of words are handed on. After `OutOfMemory` there are none here either.
    pub fn append(&mut self, more: &mut Memories) -> Result<(), OutOfMemory>
        ensures ok { OnOk result (self.new ≡ self.old ++ more.old) }
        ensures err { OnErr result (self.new ≡ []) }
        ensures rest { more.new ≡ [] }
    {
        let (place, count) = (self.lasts.len(), more.lasts.len());
        let pages = self.pages.append(place, &mut more.pages, count);
        let lasts = self.lasts.append(&mut more.lasts);
        more.pages.clear();
        more.lasts.clear();
        if let (Ok(()), Ok(())) = (pages, lasts) {
            return Ok(());
        }
        self.pages.clear();
        self.lasts.clear();
        Err(AllocError)
    }

    /// Makes `words` the words of a process's memory from `start` on. False where they pass the end; then, and after `OutOfMemory`, nothing has changed.
    #[inline]
    pub fn write(&mut self, pid: usize, start: u64, words: &[u64]) -> Result<bool, OutOfMemory>
        requires { pid < length self.old }
        ensures within { IfOk result (λ found. found ≡ nat_le (start + length words.now) (length
            (slice_index_or self.old pid []))) }
        ensures written { IfOk result (λ found. self.new ≡ slice_set self.old pid (memory_written
            (slice_index_or self.old pid []) start words.now)) }
        ensures err { OnErr result (self.new ≡ self.old) }
    {
        if !self.pages.row(pid).is_empty() {
            return self.write_paged(pid, start, words);
        }
        if !is_within(self.lasts.row(pid).len(), start, words.len()) {
            return Ok(false);
        }
        self.lasts.replace(pid, start as usize, words);
        Ok(true)
    }

    #[inline(never)]
    fn write_paged(&mut self, pid: usize, start: u64, words: &[u64]) -> Result<bool, OutOfMemory>
        requires { pid < length self.old }
        ensures within { IfOk result (λ found. found ≡ nat_le (start + length words.now) (length
            (row_at self.old pid))) }
        ensures written { let new = memory_written (row_at self.old pid) start words.now in
            IfOk result (λ found. self.new ≡ slice_set self.old pid new) }
        ensures err { OnErr result (self.new ≡ self.old) }
    {
        let full = WORDS_OF_A_PAGE * self.pages.row(pid).len();
        let len = full + self.lasts.row(pid).len();
        let Some(cut) = cut_write(full, len, start, words) else {
            return Ok(false);
        };
        write_row(&mut self.pages, pid, cut.start, cut.front)?;
        self.lasts.replace(pid, cut.place, cut.behind);
        Ok(true)
    }
}

impl ByProcess for Memories {
    ghost use Rattle.std.specs.Prelude.{List, ℕ, refl};
    ghost use Rattle.bsp_model.specs.Replaced.{replaced};

    ghost Item = { List ℕ };

    ghost items = { λ m. m };

    ghost lay = { replaced };

    ghost lays = { λ _ _ _. refl };

    fn count(&self) -> usize {
        self.len()
    }

    fn room_like(&self, alloc: Global) -> Result<Memories, OutOfMemory> {
        let mut room = Memories::new(alloc);
        let reserved = room.reserve_like(self, Share::whole());
        reserved.and(Ok(room))
    }

    fn capacity(&self) -> usize {
        self.lasts.capacity()
    }

    fn into_room(mut self) -> Memories {
        self.clear();
        self
    }

    fn append_range(&mut self, more: &Memories, from: usize, to: usize) -> Result<(), OutOfMemory> {
        if from == to {
            return Ok(());
        }
        self.pages
            .take_range(self.lasts.len(), &more.pages, from, to)?;
        self.lasts.append_range(&more.lasts, from, to)
    }
}

impl TryCopy for Memories {
    fn copy(&self) -> Result<Memories, OutOfMemory> {
        let mut copy = Memories::new(self.pages.allocator());
        copy.copy_from(self)?;
        Ok(copy)
    }
}
