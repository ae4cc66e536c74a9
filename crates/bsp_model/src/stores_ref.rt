//! Stores that are read where they lie.

ghost use Rattle.std.specs.Prelude.{◌≡◌, ◌+◌, ◌^◌, ◌<◌, ◌≤◌, ◌∷◌, ◌↔◌, [], ℕ, List, length, take, drop, IfOk, IsTrue, MatchOption, OnOk};
ghost use Rattle.bsp_model.specs.StoredRanges.{ranges_stored};
ghost use Rattle.bsp_model.specs.Stores.{records, made_again, words_stored};
ghost use Rattle.bsp_model.specs.Inside.Beside.{stores_in, words_beside, HaveWords};
ghost use Rattle.bsp_model.specs.Inside.Ranges.{stores_of, AreRanges};

use crate::paging::is_within;
use crate::range::Range;
use crate::seq::are_same;
use crate::{Memory, MemoryRef, OutOfMemory, Same};
use std::alloc::Global;
use std::marker::Model;
use std::slice;

/// Stores in the order in which they were made, read where they lie.
#[derive(Drop)]
pub struct StoresRef<'a> {
    pub(crate) ranges: &'a [Range],
    /// The words that were stored, in order. One range may go without: its words then are those that the memory has there.
    pub(crate) values: &'a [u64],
    /// The memory in which the words of one range without any stand.
    pub(crate) memory: MemoryRef<'a>,
}

impl<'a> Model for StoresRef<'a> {
    ghost use Rattle.std.specs.Prelude.{List, ◌<◌, ◌^◌, length};
    ghost use Rattle.bsp_model.specs.declared.request.Store.{Store};
    ghost use Rattle.bsp_model.specs.Inside.Beside.{words_beside};
    ghost use Rattle.bsp_model.specs.Inside.Ranges.{stores_of, AreRanges};

    ghost Value = { List Store };

    ghost view = { λ s. stores_of s.ranges.now (words_beside s.ranges.now s.values.now s.memory) };

    ghost invariant = { λ s.
        (length s.memory < 2 ^ 64) × AreRanges s.ranges.now (words_beside s.ranges.now s.values.now s.memory) };
}

/// The range whose words stand in a memory: there is one, and none of its words are kept.
#[inline(always)]
pub(crate) fn range_beside(ranges: &[Range], values: &[u64]) -> Option<Range>
    ensures { MatchOption result
        ((memory : List ℕ) → words_beside ranges.now values.now memory ≡ values.now)
        (λ r. (ranges.now ≡ r ∷ []) × (values.now ≡ [])) }
{
    if ranges.len() != 1 || !values.is_empty() {
        return None;
    }
    Some(ranges[0])
}

fn write_inside(memory: &mut Memory, start: u64, words: &[u64]) -> Result<(), OutOfMemory>
    ensures { OnOk result (memory.new ≡ made_again memory.old (records start words.now)) }
{
    let room = (memory.len() as u64).saturating_sub(start);
    let inside = words.len().min(room as usize);
    let _ = memory.write(start, &words[..inside])?;
    Ok(())
}

fn write_range(memory: &mut Memory, source: &MemoryRef<'_>, range: Range) -> Result<(), OutOfMemory>
    requires inside { range.start + range.len ≤ length source.now }
    requires fits { length source.now < 2 ^ 64 }
    ensures { OnOk result
        (memory.new ≡ made_again memory.old (records range.start (take range.len (drop range.start source.now)))) }
{
    let mut done = 0;
    while done < range.len {
        let start = range.start + done as u64;
        let words = source.piece(start, range.len - done);
        write_inside(memory, start, words)?;
        done += words.len();
    }
    Ok(())
}

fn write_ranges(memory: &mut Memory, ranges: &[Range], values: &[u64]) -> Result<(), OutOfMemory>
    requires { AreRanges ranges.now values.now }
    ensures { OnOk result (memory.new ≡ made_again memory.old (stores_of ranges.now values.now)) }
{
    let mut values = values;
    for range in ranges {
        let (words, later) = values.split_at(range.len);
        write_inside(memory, range.start, words)?;
        values = later;
    }
    Ok(())
}

impl<'a> StoresRef<'a> {
    /// Stores of one range, whose words stand in a memory.
    #[inline(always)]
    pub fn of_range(range: &'a Range, memory: &MemoryRef<'a>) -> StoresRef<'a>
        requires { HaveWords (range.now ∷ [], []) memory.now }
        ensures { result ≡ stores_in (range.now ∷ [], []) memory.now }
    {
        StoresRef {
            ranges: slice::from_ref(range),
            values: &[],
            memory: memory.reborrow(),
        }
    }

    /// How many they are.
    #[inline(always)]
    pub fn len(&self) -> usize
        ensures { result ≡ length self.now }
    {
        match range_beside(self.ranges, self.values) {
            Some(range) => range.len,
            None => self.values.len(),
        }
    }

    /// The ranges of words that were stored one behind the other, in order.
    pub fn ranges(&self) -> &'a [Range]
        ensures { result.now ≡ ranges_stored self.now }
    {
        self.ranges
    }

    /// A memory that has the stored words, one behind the other, and where they begin there.
    #[inline(always)]
    fn source(&self) -> (MemoryRef<'a>, u64)
        ensures inside { result.1 + length self.now ≤ length result.0 }
        ensures there { words_stored self.now ≡ take (length self.now) (drop result.1 result.0) }
        ensures fits { length result.0 < 2 ^ 64 }
    {
        match range_beside(self.ranges, self.values) {
            Some(range) => (self.memory.reborrow(), range.start),
            None => (self.memory.over_words(self.values), 0),
        }
    }

    pub(crate) fn stand_in(&self, range: Range, memory: &MemoryRef<'_>) -> bool
        ensures { IsTrue result → words_stored self.now ≡ take range.len (drop range.start memory.now) }
    {
        if self.len() != range.len || !is_within(memory.len(), range.start, range.len) {
            return false;
        }
        let (mine, start) = self.source();
        mine.has_same_words(start, memory, range.start, range.len)
    }

    /// The words that were stored, in order, or `OutOfMemory`.
    pub fn to_words(&self, alloc: Global) -> Result<Vec<u64>, OutOfMemory>
        ensures { IfOk result (λ words. words.items ≡ words_stored self.now) }
    {
        let (source, start) = self.source();
        let mut words = vec![in alloc; 0; self.len()]?;
        source.read(start, words.as_mut_slice());
        Ok(words)
    }

    /// Makes the stores again in another memory, range by range. What lies past its end is left out. After `OutOfMemory` some of them are made.
    pub fn replay_on(&self, memory: &mut Memory) -> Result<(), OutOfMemory>
        ensures { OnOk result (memory.new ≡ made_again memory.old self.now) }
    {
        match range_beside(self.ranges, self.values) {
            Some(range) => write_range(memory, &self.memory, range),
            None => write_ranges(memory, self.ranges, self.values),
        }
    }
}

impl<'a> Same for StoresRef<'a> {
    fn same(&self, other: &StoresRef<'a>) -> bool {
        if self.len() != other.len() {
            return false;
        }
        if !are_same(self.ranges, other.ranges) {
            return false;
        }
        let (mine, start) = self.source();
        let (others, other_start) = other.source();
        mine.has_same_words(start, &others, other_start, self.len())
    }
}
