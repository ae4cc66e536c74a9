//! The words of memories behind their full pages.

ghost use Rattle.std.specs.Prelude.{◌≡◌, ◌<◌, ◌≤◌, ◌+◌, ◌++◌, ◌∷◌, [], drop, length, slice_index_or, slice_range, slice_set, take, OnErr, OnOk};

use crate::page::WORDS_OF_A_PAGE;
use crate::seq::replace_items;
use crate::{OutOfMemory, Rows, Seq, Share, Words};
use std::alloc::Global;
use std::marker::Model;
use std::mem;

/// For each process the words of its memory behind its full pages. Most lie one behind the other in one list. Those of memories in one piece may lie
/// in lists of their own, which are handed on and not copied.
#[derive(Drop)]
pub(crate) struct Lasts {
    /// Lists of the first processes, and behind them lists that serve again.
    own: Vec<Words>,
    /// How many processes have lists of their own.
    count: usize,
    /// How many words are enough for a list of their own.
    least: usize,
    /// The words of the processes behind those.
    rows: Rows<u64>,
}

impl Model for Lasts {
    ghost use Rattle.std.specs.Prelude.{List, ℕ, ◌≤◌, ◌++◌, length, take};

    ghost Value = { List (List ℕ) };

    ghost view = { λ l. take l.count l.own.items ++ l.rows };

    ghost invariant = { λ l. l.count ≤ length l.own.items };
}

/// Puts a list of words itself at a place among lists, and hands out the one that stood there, with no more words.
fn put_list(lists: &mut Vec<Words>, place: usize, words: &mut Vec<u64>) -> Result<(), OutOfMemory>
    requires { place ≤ length lists.old.items }
    ensures ok { OnOk result (take (place + 1) lists.new.items ≡ take place lists.old.items ++ words.old.items ∷ []) }
    ensures count { OnOk result (place + 1 ≤ length lists.new.items) }
    ensures rest { OnOk result (length words.new.items ≤ length words.old.items) }
    ensures err { OnErr result (lists.new.items ≡ lists.old.items) }
    ensures err_words { OnErr result (words.new.items ≡ words.old.items) }
{
    if place == lists.len() {
        lists.reserve(1)?;
        let none = Vec::new(*words.allocator());
        lists.push_reserved(Seq::from_vec(mem::replace(words, none)));
        return Ok(());
    }
    let list = &mut lists[place];
    mem::swap(&mut list.items, words);
    words.truncate(list.items.len());
    Ok(())
}

impl Lasts {
    pub fn new(alloc: Global) -> Lasts
        ensures { result ≡ [] }
    {
        Lasts {
            own: Vec::new(alloc),
            count: 0,
            least: WORDS_OF_A_PAGE,
            rows: Rows::new(alloc),
        }
    }

    /// From now on so many words are enough for a list of their own.
    pub fn keep_lists(&mut self, least: usize)
        ensures { self.new ≡ self.old }
    {
        self.least = least;
    }

    pub fn clear(&mut self)
        ensures { self.new ≡ [] }
    {
        self.count = 0;
        self.rows.clear();
    }

    pub fn reserve(&mut self, count: usize) -> Result<(), OutOfMemory>
        ensures { self.new ≡ self.old }
    {
        self.rows.reserve(count)
    }

    /// For how many processes there is room.
    pub fn capacity(&self) -> usize {
        self.own.capacity().max(self.rows.capacity())
    }

    pub fn reserve_like(&mut self, like: &Lasts, share: Share) -> Result<(), OutOfMemory>
        ensures { self.new ≡ self.old }
    {
        self.rows.reserve_like(&like.rows, share)
    }

    #[inline(always)]
    pub fn len(&self) -> usize
        ensures { result ≡ length self.now }
    {
        self.count + self.rows.len()
    }

    #[inline(always)]
    pub fn row(&self, number: usize) -> &[u64]
        requires { number < length self.now }
        ensures { result.now ≡ slice_index_or self.now number [] }
    {
        if number < self.count {
            let words = &self.own[number];
            return words.as_slice();
        }
        self.rows.known_row(number - self.count)
    }

    #[inline(always)]
    pub fn push(&mut self, words: &[u64]) -> Result<(), OutOfMemory>
        ensures ok { OnOk result (self.new ≡ self.old ++ words.now ∷ []) }
        ensures err { OnErr result (self.new ≡ self.old) }
    {
        self.rows.push(words)
    }

    /// Takes the list itself where its words are enough for a list of their own. `words` then has any words, but no more.
    #[inline(always)]
    pub fn push_from(&mut self, words: &mut Vec<u64>) -> Result<(), OutOfMemory>
        ensures ok { OnOk result (self.new ≡ self.old ++ words.old.items ∷ []) }
        ensures rest { OnOk result (length words.new.items ≤ length words.old.items) }
        ensures err { OnErr result (self.new ≡ self.old) }
        ensures err_words { OnErr result (words.new.items ≡ words.old.items) }
    {
        if words.len() < self.least || !self.rows.is_empty() {
            return self.rows.push(words.as_slice());
        }
        put_list(&mut self.own, self.count, words)?;
        self.count += 1;
        Ok(())
    }

    /// Hands on lists of their own: `more` may then have any words.
    pub fn append(&mut self, more: &mut Lasts) -> Result<(), OutOfMemory>
        ensures { OnOk result (self.new ≡ self.old ++ more.old) }
    {
        for number in 0..more.count {
            let list = &mut more.own[number];
            self.push_from(&mut list.items)?;
        }
        self.rows.append_range(&more.rows, 0, more.rows.len())
    }

    #[inline(always)]
    pub fn replace(&mut self, number: usize, place: usize, items: &[u64])
        requires known { number < length self.old }
        requires inside { place + length items.now ≤ length (slice_index_or self.old number []) }
        ensures { let row = slice_index_or self.old number [] in
            self.new ≡ slice_set self.old number (take place row ++ items.now ++ drop (place + length items.now) row) }
    {
        if number < self.count {
            let words = &mut self.own[number];
            replace_items(words.items.as_mut_slice(), place, items);
            return;
        }
        self.rows.replace(number - self.count, place, items);
    }

    pub fn append_range(&mut self, more: &Lasts, from: usize, to: usize) -> Result<(), OutOfMemory>
        requires order { from ≤ to }
        requires inside { to ≤ length more.now }
        ensures ok { OnOk result (self.new ≡ self.old ++ slice_range more.now from to) }
        ensures err { OnErr result (self.new ≡ self.old) }
    {
        if more.count == 0 {
            return self.rows.append_range(&more.rows, from, to);
        }
        let before = self.rows.len();
        for number in from..to {
            if let Err(error) = self.rows.push(more.row(number)) {
                self.rows.truncate(before);
                return Err(error);
            }
        }
        Ok(())
    }
}
