//! A memory that is read where it lies.

ghost use Rattle.std.specs.Prelude.{◌≡◌, ◌+◌, ◌-◌, ◌^◌, ◌<◌, ◌≤◌, ◌↔◌, length, IfOk, IfSome, IsTrue, nat_le, slice_get, take, drop};
ghost use Rattle.std.specs.Bool.{OnTrue, OnFalse};
ghost use Rattle.bsp_model.specs.Memory.{rest_of_page};

use crate::page::{Page, WORDS_OF_A_PAGE};
use crate::paging::{are_same_pages, is_within};
use crate::seq::replace_items;
use crate::{Memory, OutOfMemory, Same, are_same_words};
use std::alloc::Global;
use std::marker::Model;

/// The words of a memory, wherever they lie.
#[derive(Drop)]
pub struct MemoryRef<'a> {
    pub(crate) alloc: Global,
    pub(crate) pages: &'a [Page],
    pub(crate) last: &'a [u64],
    pub(crate) len: usize,
}

impl<'a> Model for MemoryRef<'a> {
    ghost use Rattle.std.specs.Prelude.{List, ℕ};
    ghost use Rattle.bsp_model.specs.Inside.Pages.{words_of, HasPages};

    ghost Value = { List ℕ };

    ghost view = { λ m. words_of m.pages.now m.last.now m.len };

    ghost invariant = { λ m. HasPages m.pages.now m.last.now m.len };
}

impl<'a> MemoryRef<'a> {
    #[inline(always)]
    pub(crate) fn over_words(&self, words: &'a [u64]) -> MemoryRef<'a>
        ensures words { result ≡ words.now }
        ensures fits { length result < 2 ^ 64 }
    {
        MemoryRef {
            alloc: self.alloc,
            pages: &[],
            last: words,
            len: words.len(),
        }
    }

    #[inline(always)]
    pub(crate) fn reborrow(&self) -> MemoryRef<'a>
        ensures same { result ≡ self.now }
        ensures fits { length self.now < 2 ^ 64 }
    {
        MemoryRef {
            alloc: self.alloc,
            pages: self.pages,
            last: self.last,
            len: self.len,
        }
    }

    /// The number of words.
    #[inline]
    pub fn len(&self) -> usize
        ensures { result ≡ length self.now }
    {
        self.len
    }

    /// The word at `address`, if there is one.
    #[inline]
    pub fn load(&self, address: u64) -> Option<u64>
        ensures { result ≡ slice_get self.now address }
    {
        let number = address as usize / WORDS_OF_A_PAGE;
        let place = address as usize % WORDS_OF_A_PAGE;
        if number < self.pages.len() {
            let page = &self.pages[number];
            return Some(page.load(place));
        }
        if address >= self.len as u64 {
            return None;
        }
        Some(self.last[address as usize - (self.len - self.last.len())])
    }

    #[inline(always)]
    fn piece_from(&self, address: u64) -> &'a [u64]
        ensures there { result.now ≡ take (length result.now) (drop address self.now) }
        ensures rest { length (rest_of_page self.now address) ≤ length result.now }
    {
        let number = address as usize / WORDS_OF_A_PAGE;
        if number < self.pages.len() {
            let page = &self.pages[number];
            return page.words_from(address as usize % WORDS_OF_A_PAGE);
        }
        if address >= self.len as u64 {
            return &[];
        }
        let last = self.last;
        &last[address as usize - (self.len - last.len())..]
    }

    /// The words from `address` on, to the end of the page that they are in: at least one, but none past the end of the memory.
    #[inline(always)]
    pub fn words_from(&self, address: u64) -> &'a [u64]
        ensures { result.now ≡ rest_of_page self.now address }
    {
        let words = self.piece_from(address);
        &words[..words
            .len()
            .min(WORDS_OF_A_PAGE - address as usize % WORDS_OF_A_PAGE)]
    }

    #[inline(always)]
    pub(crate) fn piece(&self, address: u64, most: usize) -> &'a [u64]
        ensures there { result.now ≡ take (length result.now) (drop address self.now) }
        ensures few { length result.now ≤ most }
        ensures some { address < length self.now → 0 < most → 0 < length result.now }
    {
        let words = self.piece_from(address);
        &words[..words.len().min(most)]
    }

    /// All words, where none lies in a page. It is for speed: `None` is right for all memories.
    #[inline(always)]
    pub fn in_one_piece(&self) -> Option<&'a [u64]>
        ensures { IfSome result (λ words. words.now ≡ self.now) }
    {
        if self.pages.is_empty() {
            return Some(self.last);
        }
        None
    }

    /// How many words from `address` on lie in one piece: at least those up to the end of the page. Memories of the same words may differ in it.
    pub fn piece_len(&self, address: u64) -> usize
        ensures some { address < length self.now → 0 < result }
        ensures inside { result ≤ length self.now - address }
    {
        self.piece(address, self.len()).len()
    }

    /// Copies the words from `start` on to `words`. False, and nothing is copied, where they pass the end.
    pub fn read(&self, start: u64, words: &mut [u64]) -> bool
        ensures within { result ≡ nat_le (start + length words.old) (length self.now) }
        ensures read { OnTrue result (words.new ≡ take (length words.old) (drop start self.now)) }
        ensures past { OnFalse result (words.new ≡ words.old) }
    {
        if !is_within(self.len(), start, words.len()) {
            return false;
        }
        let mut copied = 0;
        while copied < words.len() {
            let piece = self.piece(start + copied as u64, words.len() - copied);
            replace_items(words, copied, piece);
            copied += piece.len();
        }
        true
    }

    /// Whether the `len` words from `start` on are those that another memory has from `other_start` on, though they lie in other pieces.
    #[inline(never)]
    pub fn has_same_words(
        &self,
        start: u64,
        other: &MemoryRef<'_>,
        other_start: u64,
        len: usize,
    ) -> bool
        requires inside { start + len ≤ length self.now }
        requires inside_other { other_start + len ≤ length other.now }
        requires fits { length self.now < 2 ^ 64 }
        requires fits_other { length other.now < 2 ^ 64 }
        ensures { IsTrue result ↔ (take len (drop start self.now) ≡ take len (drop other_start other.now)) }
    {
        let mut done = 0;
        while done < len {
            let right = other.piece(other_start + done as u64, len - done);
            let left = self.piece(start + done as u64, right.len());
            if !are_same_words(left, &right[..left.len()]) {
                return false;
            }
            done += left.len();
        }
        true
    }

    /// A memory of these words, which shares the pages that are full, or `OutOfMemory`.
    pub fn to_memory(&self) -> Result<Memory, OutOfMemory>
        ensures { IfOk result (λ m. m ≡ self.now) }
    {
        let mut memory = Memory::new(self.alloc);
        memory.load_from(self)?;
        Ok(memory)
    }

    /// A memory of these words in one piece, which shares none of them, or `OutOfMemory`. It serves where each superstep writes most of the words.
    pub fn to_one_piece(&self) -> Result<Memory, OutOfMemory>
        ensures { IfOk result (λ m. m ≡ self.now) }
    {
        let mut words = vec![in self.alloc; 0; self.len]?;
        self.read(0, words.as_mut_slice());
        Ok(Memory {
            pages: Vec::new(self.alloc),
            last: words,
            len: self.len,
        })
    }
}

impl<'a> Same for MemoryRef<'a> {
    fn same(&self, other: &MemoryRef<'a>) -> bool {
        if self.len != other.len {
            return false;
        }
        if self.pages.len() != other.pages.len() {
            return self.has_same_words(0, other, 0, self.len);
        }
        if !are_same_pages(self.pages, other.pages) {
            return false;
        }
        are_same_words(self.last, other.last)
    }
}
