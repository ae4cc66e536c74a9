//! The full pages of a memory.

ghost use Rattle.std.specs.Prelude.{◌≡◌, ◌≢◌, ℕ, [], ◌+◌, ◌*◌, ◌<◌, ◌≤◌, ◌↔◌, IsTrue, length, IfOk, MatchOption, OnOk, OnErr, nat_le};
ghost use Rattle.bsp_model.specs.Columns.{row_at};
ghost use Rattle.bsp_model.specs.Inside.Cut.{IsCut};
ghost use Rattle.bsp_model.specs.Inside.Pages.{paged_word, word_after, AreWritten};

use crate::page::{Page, WORDS_OF_A_PAGE};
use crate::seq::append_copies;
use crate::{OutOfMemory, SharedColumn, SharedSeq, TryCopy};
use std::alloc::Global;
use std::sync::Arc;

fn new_pages(
    alloc: Global,
    pages: &[Page],
    first: usize,
    count: usize,
    start: usize,
    words: &[u64],
) -> Result<Vec<Page>, OutOfMemory>
    requires start { start < WORDS_OF_A_PAGE }
    requires pages { first + count ≤ length pages.now }
    requires inside { start + length words.now ≤ WORDS_OF_A_PAGE * count }
    requires each { WORDS_OF_A_PAGE * count < start + length words.now + WORDS_OF_A_PAGE }
    ensures count { IfOk result (λ new. length new.items ≡ count) }
    ensures words { IfOk result (λ new. (i : ℕ) → i < WORDS_OF_A_PAGE * count → paged_word new.items i
        ≡ word_after (λ j. paged_word pages.now (WORDS_OF_A_PAGE * first + j)) start words.now i) }
{
    let mut new = Vec::with_capacity(alloc, count)?;
    for k in 0..count {
        let before = (WORDS_OF_A_PAGE * k).saturating_sub(start);
        let place = start.saturating_sub(WORDS_OF_A_PAGE * k);
        let here = (words.len() - before).min(WORDS_OF_A_PAGE - place);
        let part = &words[before..before + here];
        let mut page = pages[first + k].copy()?;
        page.write(alloc, place, part)?;
        new.push_reserved(page);
    }
    Ok(new)
}

/// Writes in place where the words lie in one page that nobody shares; else in new pages, which are all made before the first is put in its place.
pub fn write_pages(
    alloc: Global,
    pages: &mut [Page],
    start: usize,
    words: &[u64],
) -> Result<(), OutOfMemory>
    requires { start + length words.now ≤ WORDS_OF_A_PAGE * length pages.old }
    ensures count { length pages.new ≡ length pages.old }
    ensures ok { OnOk result (AreWritten pages.old start words.now pages.new) }
    ensures err { OnErr result (pages.new ≡ pages.old) }
{
    if words.is_empty() {
        return Ok(());
    }
    let first = start / WORDS_OF_A_PAGE;
    let place = start % WORDS_OF_A_PAGE;
    if words.len() <= WORDS_OF_A_PAGE - place {
        let page = &mut pages[first];
        return page.write(alloc, place, words);
    }
    let count = (place + words.len() - 1) / WORDS_OF_A_PAGE + 1;
    let mut new = new_pages(alloc, pages, first, count, place, words)?;
    pages[first..first + count].swap_with_slice(new.as_mut_slice());
    Ok(())
}

/// Copies that share their words. For no page they take no memory.
pub fn copied_pages(alloc: Global, pages: &[Page]) -> Result<Vec<Page>, OutOfMemory>
    ensures { IfOk result (λ new. new.items ≡ pages.now) }
{
    let mut new = Vec::with_capacity(alloc, pages.len())?;
    append_copies(&mut new, pages)?;
    Ok(new)
}

/// What `write_pages` does, in the full pages of one process. Where copies share their list, they get a list of their own.
pub fn write_row(
    column: &mut SharedColumn<Page>,
    place: usize,
    start: usize,
    words: &[u64],
) -> Result<(), OutOfMemory>
    requires { start + length words.now ≤ WORDS_OF_A_PAGE * length (row_at column.old place) }
    ensures others { (k : ℕ) → k ≢ place → row_at column.new k ≡ row_at column.old k }
    ensures count { length (row_at column.new place) ≡ length (row_at column.old place) }
    ensures ok { OnOk result (AreWritten (row_at column.old place) start words.now (row_at column.new place)) }
    ensures err { OnErr result (column.new ≡ column.old) }
{
    if place >= column.rows.len() || words.is_empty() {
        return Ok(());
    }
    let alloc = column.allocator();
    let pages = &mut column.rows[place];
    if let Some(shared) = &mut pages.items {
        if let Some(own) = Arc::get_mut(shared) {
            return write_pages(alloc, own.as_mut_slice(), start, words);
        }
    }
    let mut own = copied_pages(alloc, pages.as_slice())?;
    write_pages(alloc, own.as_mut_slice(), start, words)?;
    *pages = SharedSeq::try_from_vec(own)?;
    Ok(())
}

#[inline(always)]
pub fn is_within(len: usize, start: u64, count: usize) -> bool
    ensures { result ≡ nat_le (start + count) len }
{
    start <= len as u64 && count <= len - start as usize
}

/// A write of words, cut where the full pages of a memory end: `front` from `start` on in the pages, `behind` from `place` on behind them.
#[derive(Drop)]
pub struct Cut<'a> {
    pub start: usize,
    pub front: &'a [u64],
    pub place: usize,
    pub behind: &'a [u64],
}

pub fn cut_write(full: usize, len: usize, start: u64, words: &[u64]) -> Option<Cut<'_>>
    requires { full ≤ len }
    ensures { MatchOption result (len < start + length words.now) (IsCut full len start words.now) }
{
    if !is_within(len, start, words.len()) {
        return None;
    }
    let start = start as usize;
    let count = words.len().min(full.saturating_sub(start));
    Some(Cut {
        start: start.min(full),
        front: &words[..count],
        place: (start + count).saturating_sub(full),
        behind: &words[count..],
    })
}

pub fn are_same_pages(pages: &[Page], others: &[Page]) -> bool
    requires { length pages.now ≡ length others.now }
    ensures { IsTrue result ↔ ((i : ℕ) → i < WORDS_OF_A_PAGE * length pages.now → paged_word pages.now i
        ≡ paged_word others.now i) }
{
    for k in 0..pages.len() {
        let page = &pages[k];
        let other = &others[k];
        if !page.is_same(other) {
            return false;
        }
    }
    true
}
