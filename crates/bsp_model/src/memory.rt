//! The memory of a process.

ghost use Rattle.std.specs.Prelude.{◌≡◌, ◌≤◌, ◌<◌, ◌↔◌, ◌+◌, ◌-◌, ◌*◌, ◌++◌, [], true, false, length, IfOk, nat_lt, nat_le, slice_set, slice_get, take, drop, OnErr, OnOk};
ghost use Rattle.std.specs.Bool.{OnTrue, OnFalse};
ghost use Rattle.bsp_model.specs.Memory.{memory_written};

use crate::change::change_in_place;
use crate::page::{Page, WORDS_OF_A_PAGE};
use crate::paging::{copied_pages, cut_write, is_within, write_pages};
use crate::seq::{append_items, replace_items};
use crate::{Change, MemoryRef, OutOfMemory, Same, TryCopy};
use std::alloc::Global;
use std::marker::Model;
use std::{mem, slice};

/// The memory of a process: a list of 64-bit words at the addresses 0, 1, .. Its copies share the pages that are full.
pub struct Memory {
    /// The pages that are full.
    pub(crate) pages: Vec<Page>,
    /// The words behind them: fewer than a page has, or all of a memory that lies in one piece. They are this memory's alone.
    pub(crate) last: Vec<u64>,
    pub(crate) len: usize,
}

impl Drop for Memory {
    fn drop(self) {
        let Self { pages, last, len } = self;
    }
}

impl Model for Memory {
    ghost use Rattle.std.specs.Prelude.{List, ℕ};
    ghost use Rattle.bsp_model.specs.Inside.Pages.{words_of, HasPages};

    ghost Value = { List ℕ };

    ghost view = { λ m. words_of m.pages.items m.last.items m.len };

    ghost invariant = { λ m. HasPages m.pages.items m.last.items m.len };
}

/// How many words are copied at once. The C library copies more by a string instruction, which takes longer to begin.
const WORDS_AT_ONCE: usize = 128;

#[inline(always)]
fn append_words(words: &mut Vec<u64>, more: &[u64]) -> Result<(), OutOfMemory>
    ensures { OnOk result (words.new.items ≡ words.old.items ++ more.now) }
{
    if more.len() <= WORDS_AT_ONCE {
        return append_items(words, more);
    }
    append_in_parts(words, more)
}

#[inline(never)]
fn append_in_parts(words: &mut Vec<u64>, more: &[u64]) -> Result<(), OutOfMemory>
    ensures { OnOk result (words.new.items ≡ words.old.items ++ more.now) }
{
    words.reserve(more.len())?;
    let mut rest = more;
    while rest.len() > WORDS_AT_ONCE {
        let (part, behind) = rest.split_at(WORDS_AT_ONCE);
        words.extend_from_slice(part)?;
        rest = behind;
    }
    words.extend_from_slice(rest)
}

impl Memory {
    /// No words, which take no memory.
    #[inline(always)]
    pub fn new(alloc: Global) -> Memory
        ensures { result ≡ [] }
    {
        Memory {
            pages: Vec::new(alloc),
            last: Vec::new(alloc),
            len: 0,
        }
    }

    /// A memory of these words, or `OutOfMemory`.
    pub fn from_words(alloc: Global, words: &[u64]) -> Result<Memory, OutOfMemory>
        ensures { IfOk result (λ m. m ≡ words.now) }
    {
        let (full, last) = words.as_chunks::<WORDS_OF_A_PAGE>();
        let mut pages = Vec::with_capacity(alloc, full.len())?;
        for part in full {
            pages.push_reserved(Page::new(alloc, *part)?);
        }
        Ok(Memory {
            pages,
            last: last.to_vec(alloc)?,
            len: words.len(),
        })
    }

    /// Takes over the words of `source`: full pages are shared, the words behind them copied. After `OutOfMemory` it may have any words.
    #[inline(always)]
    pub fn load_from(&mut self, source: &MemoryRef<'_>) -> Result<(), OutOfMemory>
        ensures { OnOk result (self.new ≡ source.now) }
    {
        if self.pages.is_empty() && source.pages.is_empty() {
            self.last.clear();
            if let Err(error) = append_words(&mut self.last, source.last) {
                self.last.clear();
                self.len = 0;
                return Err(error);
            }
            self.len = source.len;
            return Ok(());
        }
        self.load_paged(source)
    }

    #[inline(never)]
    fn load_paged(&mut self, source: &MemoryRef<'_>) -> Result<(), OutOfMemory>
        ensures { OnOk result (self.new ≡ source.now) }
    {
        self.last.clear();
        self.len = 0;
        self.pages.clear();
        self.pages = copied_pages(source.alloc, source.pages)?;
        self.len = WORDS_OF_A_PAGE * source.pages.len();
        if let Err(error) = append_words(&mut self.last, source.last) {
            self.last.clear();
            return Err(error);
        }
        self.len = source.len;
        Ok(())
    }

    /// Makes these words the memory, which lies in their list then. The list of words behind the full pages is handed out.
    #[inline(always)]
    pub(crate) fn take_words(&mut self, words: &mut Vec<u64>)
        ensures { self.new ≡ words.old.items }
    {
        self.pages.clear();
        self.len = words.len();
        mem::swap(&mut self.last, words);
    }

    /// This memory, to be read where it lies.
    #[inline]
    pub fn as_ref(&self) -> MemoryRef<'_>
        ensures { result ≡ self.now }
    {
        MemoryRef {
            alloc: *self.pages.allocator(),
            pages: self.pages.as_slice(),
            last: self.last.as_slice(),
            len: self.len,
        }
    }

    /// The number of words.
    #[inline]
    pub fn len(&self) -> usize
        ensures { result ≡ length self.now }
    {
        self.as_ref().len()
    }

    /// The number of pages that stand, of 64 words each (this profile). The words behind them count as one more, also where the whole memory lies in one
    /// piece. So it tells how the words lie, which no contract of a list of words can.
    pub fn count_of_pages(&self) -> usize
        ensures most { result * WORDS_OF_A_PAGE < length self.now + WORDS_OF_A_PAGE }
        ensures none { result ≡ 0 ↔ length self.now ≡ 0 }
    {
        let full = self.pages.len();
        if self.last.is_empty() { full } else { full + 1 }
    }

    /// The word at `address`, if there is one.
    #[inline]
    pub fn load(&self, address: u64) -> Option<u64>
        ensures { result ≡ slice_get self.now address }
    {
        self.as_ref().load(address)
    }

    /// Copies the words from `start` on to `words`. False, and nothing is copied, where they pass the end.
    pub fn read(&self, start: u64, words: &mut [u64]) -> bool
        ensures within { result ≡ nat_le (start + length words.old) (length self.now) }
        ensures read { OnTrue result (words.new ≡ take (length words.old) (drop start self.now)) }
        ensures past { OnFalse result (words.new ≡ words.old) }
    {
        self.as_ref().read(start, words)
    }

    /// Makes `value` the word at `address`. False, and nothing changes, where there is no such word; after `OutOfMemory` nothing has changed.
    pub fn store(&mut self, address: u64, value: u64) -> Result<bool, OutOfMemory>
        ensures within { IfOk result (λ found. found ≡ nat_lt address (length self.old)) }
        ensures stored { IfOk result (λ found. self.new ≡ slice_set self.old address value) }
        ensures err { OnErr result (self.new ≡ self.old) }
    {
        self.write(address, slice::from_ref(&value))
    }

    /// Makes the change in words of one page, or in as few of those behind the full pages. False where they are more; then, and after `OutOfMemory`,
    /// nothing has changed.
    #[inline]
    pub(crate) fn change<C: Change>(
        &mut self,
        start: usize,
        len: usize,
        change: &C,
    ) -> Result<bool, OutOfMemory>
        requires { start + len ≤ length self.old }
        ensures made { let changed = C.makes change.now (take len (drop start self.old)) in
            IfOk result (λ made. made ≡ true → self.new ≡ memory_written self.old start changed) }
        ensures count { IfOk result (λ made. made ≡ true → length (C.makes change.now (take len
            (drop start self.old))) ≡ len) }
        ensures left { IfOk result (λ made. made ≡ false → self.new ≡ self.old) }
        ensures err { OnErr result (self.new ≡ self.old) }
    {
        let full = self.len - self.last.len();
        if start >= full {
            if len > WORDS_OF_A_PAGE {
                return Ok(false);
            }
            change_in_place(self.last.as_mut_slice(), start - full, len, change);
            return Ok(true);
        }
        let place = start % WORDS_OF_A_PAGE;
        if len > WORDS_OF_A_PAGE - place {
            return Ok(false);
        }
        let alloc = *self.pages.allocator();
        let page = &mut self.pages[start / WORDS_OF_A_PAGE];
        page.change(alloc, place, len, change)?;
        Ok(true)
    }

    /// Makes `words` the words from `start` on. False, and nothing changes, where they pass the end; after `OutOfMemory` nothing has changed.
    #[inline]
    pub fn write(&mut self, start: u64, words: &[u64]) -> Result<bool, OutOfMemory>
        ensures within { IfOk result (λ found. found ≡ nat_le (start + length words.now) (length self.old)) }
        ensures written { IfOk result (λ found. self.new ≡ memory_written self.old start words.now) }
        ensures err { OnErr result (self.new ≡ self.old) }
    {
        if !self.pages.is_empty() {
            return self.write_paged(start, words);
        }
        if !is_within(self.len, start, words.len()) {
            return Ok(false);
        }
        replace_items(self.last.as_mut_slice(), start as usize, words);
        Ok(true)
    }

    #[inline(never)]
    fn write_paged(&mut self, start: u64, words: &[u64]) -> Result<bool, OutOfMemory>
        ensures within { IfOk result (λ found. found ≡ nat_le (start + length words.now) (length self.old)) }
        ensures written { IfOk result (λ found. self.new ≡ memory_written self.old start words.now) }
        ensures err { OnErr result (self.new ≡ self.old) }
    {
        let full = self.len - self.last.len();
        let Some(cut) = cut_write(full, self.len, start, words) else {
            return Ok(false);
        };
        let alloc = *self.pages.allocator();
        write_pages(alloc, self.pages.as_mut_slice(), cut.start, cut.front)?;
        replace_items(self.last.as_mut_slice(), cut.place, cut.behind);
        Ok(true)
    }
}

impl TryCopy for Memory {
    fn copy(&self) -> Result<Memory, OutOfMemory> {
        self.as_ref().to_memory()
    }
}

impl Same for Memory {
    fn same(&self, other: &Memory) -> bool {
        self.as_ref().same(&other.as_ref())
    }
}
