//! A page of a memory, which several memories may share.

ghost use Rattle.std.specs.Prelude.{◌≡◌, ◌+◌, ◌≤◌, ◌<◌, ◌++◌, ◌↔◌, IsTrue, IfOk, OnOk, OnErr, length, take, drop, slice_index, slice_set};

use crate::change::change_part;
use crate::seq::replace_items;
use crate::{Change, OutOfMemory, TryCopy, are_same_words};
use std::alloc::{AllocError, Global};
use std::marker::Model;
use std::sync::Arc;

pub const WORDS_OF_A_PAGE: usize = 64;

/// A page of 64 words. Its copies share them.
#[derive(Drop)]
pub struct Page {
    words: Arc<[u64; WORDS_OF_A_PAGE], Global>,
}

/// It is not inlined, since few pages have one owner, and its copy of a page takes time at entry.
#[inline(never)]
fn change_owned<C: Change>(words: &mut [u64; WORDS_OF_A_PAGE], start: usize, len: usize, change: &C)
    requires { start + len ≤ WORDS_OF_A_PAGE }
    ensures made { let changed = C.makes change.now (take len (drop start words.old)) in
        words.new ≡ take start words.old ++ changed ++ drop (start + len) words.old }
    ensures count { length (C.makes change.now (take len (drop start words.old))) ≡ len }
{
    let before: [u64; WORDS_OF_A_PAGE] = *words;
    change_part(&before[start..start + len], words, start, change);
}

impl Model for Page {
    ghost use Rattle.std.specs.Prelude.{◌≡◌, List, ℕ, length};
    ghost use Rattle.std.specs.Arc.{arc_value};

    ghost Value = { List ℕ };

    ghost view = { λ p. arc_value p.words };

    ghost invariant = { λ p. length (arc_value p.words) ≡ 64 };
}

impl Page {
    pub fn new(alloc: Global, words: [u64; WORDS_OF_A_PAGE]) -> Result<Page, OutOfMemory>
        ensures { IfOk result (λ p. p ≡ words) }
    {
        Ok(Page {
            words: Arc::new(alloc, words)?,
        })
    }

    #[inline(always)]
    fn as_slice(&self) -> &[u64]
        ensures words { result.now ≡ self.now }
        ensures len { length self.now ≡ WORDS_OF_A_PAGE }
    {
        let words: &[u64; WORDS_OF_A_PAGE] = &self.words;
        words.as_slice()
    }

    pub fn is_same(&self, other: &Page) -> bool
        ensures same { IsTrue result ↔ (self.now ≡ other.now) }
        ensures len { length self.now ≡ WORDS_OF_A_PAGE }
        ensures other_len { length other.now ≡ WORDS_OF_A_PAGE }
    {
        are_same_words(self.as_slice(), other.as_slice())
    }

    pub fn load(&self, place: usize) -> u64
        requires { place < WORDS_OF_A_PAGE }
        ensures { result ≡ slice_index self.now place }
    {
        let words: &[u64; WORDS_OF_A_PAGE] = &self.words;
        words[place]
    }

    #[inline(always)]
    pub fn words_from(&self, place: usize) -> &[u64]
        requires { place < WORDS_OF_A_PAGE }
        ensures words { result.now ≡ drop place self.now }
        ensures len { length self.now ≡ WORDS_OF_A_PAGE }
    {
        &self.as_slice()[place..]
    }

    /// Makes the change in `len` words from `start` on: in place where nobody shares the page, else in a new one.
    pub fn change<C: Change>(
        &mut self,
        alloc: Global,
        start: usize,
        len: usize,
        change: &C,
    ) -> Result<(), OutOfMemory>
        requires { start + len ≤ WORDS_OF_A_PAGE }
        ensures ok { let changed = C.makes change.now (take len (drop start self.old)) in
            OnOk result (self.new ≡ take start self.old ++ changed ++ drop (start + len) self.old) }
        ensures count { OnOk result (length (C.makes change.now (take len (drop start self.old))) ≡ len) }
        ensures err { OnErr result (self.new ≡ self.old) }
        ensures len { length self.old ≡ WORDS_OF_A_PAGE }
    {
        if let Some(all) = Arc::get_mut(&mut self.words) {
            change_owned(all, start, len, change);
            return Ok(());
        }
        let mut new = Arc::new(alloc, *self.words)?;
        // A new page has one owner.
        let Some(all) = Arc::get_mut(&mut new) else {
            return Err(AllocError);
        };
        change_part(&self.as_slice()[start..start + len], all, start, change);
        self.words = new;
        Ok(())
    }

    /// Makes `words` the words from `start` on: in place where nobody shares the page, else in a new one.
    pub fn write(&mut self, alloc: Global, start: usize, words: &[u64]) -> Result<(), OutOfMemory>
        requires { start + length words.now ≤ WORDS_OF_A_PAGE }
        ensures ok { OnOk result (self.new ≡ take start self.old ++ words.now
            ++ drop (start + length words.now) self.old) }
        ensures err { OnErr result (self.new ≡ self.old) }
        ensures len { length self.old ≡ WORDS_OF_A_PAGE }
    {
        if let Some(all) = Arc::get_mut(&mut self.words) {
            replace_items(all, start, words);
            return Ok(());
        }
        let mut new = Arc::new(alloc, *self.words)?;
        // A new page has one owner.
        let Some(all) = Arc::get_mut(&mut new) else {
            return Err(AllocError);
        };
        replace_items(all, start, words);
        self.words = new;
        Ok(())
    }
}

impl TryCopy for Page {
    fn copy(&self) -> Result<Page, OutOfMemory> {
        Ok(Page {
            words: Arc::try_clone(&self.words)?,
        })
    }
}
