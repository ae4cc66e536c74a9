//! The memory of a process while it computes.

ghost use Rattle.std.specs.Prelude.{◌≡◌, ◌+◌, ◌-◌, ◌^◌, ◌<◌, ◌≤◌, ◌++◌, ◌∷◌, [], true, false, ℕ, List, length, take, drop, IfOk, IfSome, OnOk, OnErr};
ghost use Rattle.std.specs.Bool.{OnTrue};
ghost use Rattle.bsp_model.specs.Memory.{memory_written};
ghost use Rattle.bsp_model.specs.Stores.{records};
ghost use Rattle.bsp_model.specs.Inside.Beside.{stores_in, words_beside, HaveWords};
ghost use Rattle.bsp_model.specs.Inside.Ranges.{longer, AreRanges, GoOn};

use crate::range::{Range, add_words};
use crate::stores_ref::range_beside;
use crate::{Change, Memories, Memory, MemoryRef, OutOfMemory, StoresRef, TryCopy};
use std::alloc::Global;
use std::marker::Model;

/// The memory of a process while it computes, and its stores, in order, as ranges. The words of one range alone stand in the memory.
pub struct LocalMemory {
    memory: Memory,
    /// The ranges, in order. None of them goes on where the one before it ended.
    pub(crate) ranges: Vec<Range>,
    /// The words that were stored, in order: those of the first range, then those of the second, and so on. One range may go without.
    pub(crate) values: Vec<u64>,
}

impl Drop for LocalMemory {
    fn drop(self) {
        let Self {
            memory,
            ranges,
            values,
        } = self;
    }
}

impl Model for LocalMemory {
    ghost use Rattle.bsp_model.specs.LocalParts.{LocalParts};
    ghost use Rattle.bsp_model.specs.Inside.Beside.{words_beside};
    ghost use Rattle.bsp_model.specs.Inside.Ranges.{stores_of, AreRanges};

    ghost Value = { LocalParts };

    ghost view = { λ l. record {
      memory = l.memory;
      stores = stores_of l.ranges.items (words_beside l.ranges.items l.values.items l.memory);
    } };

    ghost invariant = { λ l. AreRanges l.ranges.items (words_beside l.ranges.items l.values.items l.memory) };
}

#[inline(always)]
fn go_on(ranges: &[Range], values: &[u64], start: u64) -> bool
    ensures { OnTrue result (GoOn ranges.now values.now start) }
{
    if !values.is_empty() {
        return false;
    }
    match ranges {
        [] => true,
        [range] => start >= range.start && start - range.start == range.len as u64,
        _ => false,
    }
}

/// Adds the values of a range that has none yet, if there is one: the words that the memory has there.
fn keep_words(ranges: &[Range], values: &mut Vec<u64>, memory: &Memory) -> Result<(), OutOfMemory>
    requires { AreRanges ranges.now (words_beside ranges.now values.old.items memory.now) }
    ensures kept { OnOk result (values.new.items ≡ words_beside ranges.now values.old.items memory.now) }
    ensures any { OnOk result ((other : List ℕ) → words_beside ranges.now values.new.items other ≡ values.new.items) }
    ensures err { OnErr result (values.new.items ≡ values.old.items) }
{
    let Some(range) = range_beside(ranges, values.as_slice()) else {
        return Ok(());
    };
    values.resize(range.len, 0)?;
    memory.read(range.start, values.as_mut_slice());
    Ok(())
}

#[inline(never)]
fn store_apart(
    ranges: &mut Vec<Range>,
    values: &mut Vec<u64>,
    memory: &mut Memory,
    start: u64,
    words: &[u64],
) -> Result<(), OutOfMemory>
    requires ranges { AreRanges ranges.old.items (words_beside ranges.old.items values.old.items memory.old) }
    requires some { 0 < length words.now }
    requires inside { length words.now ≤ length memory.old - start }
    ensures ranges { OnOk result (ranges.new.items ≡ longer ranges.old.items start (length words.now)) }
    ensures values { OnOk result
        (values.new.items ≡ words_beside ranges.old.items values.old.items memory.old ++ words.now) }
    ensures memory { OnOk result (memory.new ≡ memory_written memory.old start words.now) }
    ensures err_ranges { OnErr result (ranges.new.items ≡ ranges.old.items) }
    ensures err_values { OnErr result (words_beside ranges.old.items values.new.items memory.old
        ≡ words_beside ranges.old.items values.old.items memory.old) }
    ensures err_memory { OnErr result (memory.new ≡ memory.old) }
{
    keep_words(ranges.as_slice(), values, memory)?;
    ranges.reserve(1)?;
    let before = values.len();
    values.extend_from_slice(words)?;
    if let Err(error) = memory.write(start, words) {
        values.truncate(before);
        return Err(error);
    }
    add_words(ranges, start, words.len());
    Ok(())
}

/// The words that the change makes of `len` words from `start` on.
fn changed_words<C: Change>(
    memory: &Memory,
    start: u64,
    len: usize,
    change: &C,
) -> Result<Vec<u64>, OutOfMemory>
    requires { start + len ≤ length memory.now }
    ensures words { IfOk result (λ words. words.items ≡ C.makes change.now (take len (drop start memory.now))) }
    ensures len { IfOk result (λ words. length words.items ≡ len) }
{
    let alloc = *memory.pages.allocator();
    let mut before = vec![in alloc; 0; len]?;
    memory.read(start, before.as_mut_slice());
    let mut words = vec![in alloc; 0; len]?;
    change.change(before.as_slice(), words.as_mut_slice());
    Ok(words)
}

impl LocalMemory {
    /// No words and no stores, which take no memory.
    pub fn new(alloc: Global) -> LocalMemory
        ensures { result ≡ record { memory = []; stores = [] } }
    {
        LocalMemory {
            memory: Memory::new(alloc),
            ranges: Vec::new(alloc),
            values: Vec::new(alloc),
        }
    }

    /// Makes these words the memory, in which no store was made. After `OutOfMemory` it may have any words.
    #[inline(always)]
    pub fn begin(&mut self, memory: &MemoryRef<'_>) -> Result<(), OutOfMemory>
        ensures { OnOk result (self.new ≡ record { memory = memory.now; stores = [] }) }
    {
        self.ranges.clear();
        self.values.clear();
        self.memory.load_from(memory)
    }

    /// Makes these words the memory, in which no store was made. The list of words behind the pages is handed out.
    #[inline(always)]
    pub(crate) fn take_words(&mut self, words: &mut Vec<u64>)
        ensures { self.new ≡ record { memory = words.old.items; stores = [] } }
    {
        self.ranges.clear();
        self.values.clear();
        self.memory.take_words(words);
    }

    /// Makes these words the memory, of which `len` from `start` on were stored. After `OutOfMemory` the words are still there.
    #[inline(always)]
    pub(crate) fn take_stored(
        &mut self,
        words: &mut Vec<u64>,
        start: usize,
        len: usize,
    ) -> Result<(), OutOfMemory>
        requires some { 0 < len }
        requires inside { start + len ≤ length words.old.items }
        ensures ok { OnOk result (self.new ≡ record {
          memory = words.old.items;
          stores = records start (take len (drop start words.old.items));
        }) }
        ensures err { OnErr result (words.new.items ≡ words.old.items) }
    {
        self.ranges.clear();
        self.values.clear();
        self.ranges.push(Range {
            start: start as u64,
            len,
        })?;
        self.memory.take_words(words);
        Ok(())
    }

    /// The words of the memory.
    #[inline(always)]
    pub fn memory(&self) -> MemoryRef<'_>
        ensures { result ≡ self.now.memory }
    {
        self.memory.as_ref()
    }

    #[inline(always)]
    pub fn stores(&self) -> StoresRef<'_>
        ensures { result ≡ self.now.stores }
    {
        let memory = self.memory.as_ref();
        StoresRef {
            ranges: self.ranges.as_slice(),
            values: self.values.as_slice(),
            memory: memory.reborrow(),
        }
    }

    /// The stores, where they are one range, whose words stand in the memory. It is for speed: `None` is right for all stores.
    #[inline(always)]
    pub fn one_range(&self) -> Option<Range>
        ensures { IfSome result (λ r. HaveWords (r ∷ [], []) self.now.memory
            × (stores_in (r ∷ [], []) self.now.memory ≡ self.now.stores)) }
    {
        range_beside(self.ranges.as_slice(), self.values.as_slice())
    }

    /// Makes `words` the words from `start` on, or no words, and keeps these stores. After `OutOfMemory` nothing has changed.
    #[inline(always)]
    pub fn store(&mut self, start: u64, words: &[u64]) -> Result<(), OutOfMemory>
        requires inside { length words.now ≤ length self.old.memory - start }
        requires short { length self.old.memory < 2 ^ 64 }
        ensures ok { OnOk result (self.new ≡ record {
          memory = memory_written self.old.memory start words.now;
          stores = self.old.stores ++ records start words.now;
        }) }
        ensures err { OnErr result (self.new ≡ self.old) }
    {
        if words.is_empty() {
            return Ok(());
        }
        if !go_on(self.ranges.as_slice(), self.values.as_slice(), start) {
            store_apart(
                &mut self.ranges,
                &mut self.values,
                &mut self.memory,
                start,
                words,
            )?;
            return Ok(());
        }
        self.ranges.reserve(1)?;
        self.memory.write(start, words)?;
        add_words(&mut self.ranges, start, words.len());
        Ok(())
    }

    /// Makes the change in the `len` words from `start` on, and keeps the words that it makes as stores. After `OutOfMemory` nothing has changed.
    #[inline]
    pub fn change<C: Change>(
        &mut self,
        start: u64,
        len: usize,
        change: &C,
    ) -> Result<(), OutOfMemory>
        requires inside { start + len ≤ length self.old.memory }
        requires short { length self.old.memory < 2 ^ 64 }
        ensures ok { let words = C.makes change.now (take len (drop start self.old.memory)) in
            OnOk result (self.new ≡ record {
              memory = memory_written self.old.memory start words;
              stores = self.old.stores ++ records start words;
            }) }
        ensures count { let words = C.makes change.now (take len (drop start self.old.memory)) in
            OnOk result (length words ≡ len) }
        ensures err { OnErr result (self.new ≡ self.old) }
    {
        if len > 0 && go_on(self.ranges.as_slice(), self.values.as_slice(), start) {
            self.ranges.reserve(1)?;
            if self.memory.change(start as usize, len, change)? {
                add_words(&mut self.ranges, start, len);
                return Ok(());
            }
        }
        let words = changed_words(&self.memory, start, len, change)?;
        self.store(start, words.as_slice())
    }

    /// Hands the memory on, and takes the stores away. After `OutOfMemory` it may have any words, but no more than before.
    #[inline(always)]
    pub fn move_to(&mut self, memories: &mut Memories) -> Result<(), OutOfMemory>
        ensures ok { OnOk result (memories.new ≡ memories.old ++ self.old.memory ∷ []) }
        ensures err { OnErr result (memories.new ≡ memories.old) }
        ensures few { length self.new.memory ≤ length self.old.memory }
        ensures none { self.new.stores ≡ [] }
    {
        self.ranges.clear();
        self.values.clear();
        memories.push_from(&mut self.memory)
    }
}

impl TryCopy for LocalMemory {
    fn copy(&self) -> Result<LocalMemory, OutOfMemory> {
        let alloc = *self.values.allocator();
        Ok(LocalMemory {
            memory: self.memory.copy()?,
            ranges: self.ranges.as_slice().to_vec(alloc)?,
            values: self.values.as_slice().to_vec(alloc)?,
        })
    }
}
