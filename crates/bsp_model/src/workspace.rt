//! Where a turn computes.

ghost use Rattle.std.specs.Prelude.{◌≡◌, ◌+◌, ◌-◌, ◌^◌, ◌<◌, ◌≤◌, ◌++◌, [], true, false, length, slice_get, take, drop, IfOk, OnOk, OnErr};
ghost use Rattle.bsp_model.specs.Memory.{memory_written};
ghost use Rattle.bsp_model.specs.Stores.{records};
ghost use Rattle.bsp_model.specs.Workspace.{own_memory};

use crate::change::copy_changed;
use crate::{Change, LocalMemory, MemoryRef, OutOfMemory};
use std::alloc::Global;

/// A memory of fewer words is copied as the turn begins. That takes less time than to ask at each call where the words are.
pub const WORDS_WORTH_A_LOOK: usize = 16;

/// The memory of a process in its turn, and the stores that were made in it. A memory in one piece is read where it lay before the turn, until words
/// are stored. A change of many words then goes over them once: it reads them there, and writes those that it makes where they stay.
pub struct Workspace {
    /// The memory and the stores, once it is loaded.
    pub local: LocalMemory,
    /// Whether the words of the memory are in the workspace. Until then there is room for them.
    pub is_loaded: bool,
    /// Words to be written over by those of the memory.
    pub room: Vec<u64>,
}

impl Drop for Workspace {
    fn drop(self) {
        let Self {
            local,
            is_loaded,
            room,
        } = self;
    }
}

/// It is not inlined, so that no call for a word asks of each part of a memory where it lies.
#[inline(never)]
fn word_in_pages(before: &MemoryRef<'_>, address: u64) -> Option<u64>
    ensures { result ≡ slice_get before.now address }
{
    before.load(address)
}

#[inline(always)]
fn word_before(before: &MemoryRef<'_>, address: u64) -> Option<u64>
    ensures { result ≡ slice_get before.now address }
{
    match before.in_one_piece() {
        Some(words) => words.get(address as usize).copied(),
        None => word_in_pages(before, address),
    }
}

impl Workspace {
    /// A workspace with this memory and these stores. It takes no memory itself.
    pub fn of(alloc: Global, local: LocalMemory) -> Workspace
        ensures local { result.local ≡ local }
        ensures loaded { result.is_loaded ≡ true }
    {
        Workspace {
            local,
            is_loaded: true,
            room: Vec::new(alloc),
        }
    }

    /// Begins a turn with this memory, in which no store was made. What stood here is gone. Or `OutOfMemory`.
    #[inline(always)]
    pub fn begin(&mut self, before: &MemoryRef<'_>) -> Result<(), OutOfMemory>
        ensures { OnOk result (own_memory self.new before.now ≡ record { memory = before.now; stores = [] }) }
    {
        self.is_loaded = before.in_one_piece().is_none() || before.len() < WORDS_WORTH_A_LOOK;
        if self.is_loaded {
            return self.local.begin(before);
        }
        if self.room.len() < before.len() {
            self.room.resize(before.len(), 0)?;
        }
        Ok(())
    }

    /// The words of the memory.
    #[inline(always)]
    pub fn memory<'a>(&'a self, before: &MemoryRef<'a>) -> MemoryRef<'a>
        requires { length (own_memory self.now before.now).memory ≡ length before.now }
        ensures { result ≡ (own_memory self.now before.now).memory }
    {
        if !self.is_loaded {
            return before.reborrow();
        }
        self.local.memory()
    }

    /// The word at `address`, if there is one.
    #[inline(always)]
    pub fn word_at(&self, before: &MemoryRef<'_>, address: u64) -> Option<u64>
        requires { length (own_memory self.now before.now).memory ≡ length before.now }
        ensures { result ≡ slice_get (own_memory self.now before.now).memory address }
    {
        if self.is_loaded {
            return self.local.memory().load(address);
        }
        word_before(before, address)
    }

    #[inline(never)]
    fn copy_words(&mut self, before: &MemoryRef<'_>)
        requires { length before.now ≤ length self.old.room.items }
        ensures local { self.new.local ≡ record { memory = before.now; stores = [] } }
        ensures loaded { self.new.is_loaded ≡ true }
    {
        self.room.truncate(before.len());
        before.read(0, self.room.as_mut_slice());
        self.local.take_words(&mut self.room);
        self.is_loaded = true;
    }

    /// Copies the words of the memory here, unless they are here.
    #[inline(always)]
    pub fn load(&mut self, before: &MemoryRef<'_>)
        requires { length (own_memory self.old before.now).memory ≡ length before.now }
        ensures local { self.new.local ≡ own_memory self.old before.now }
        ensures loaded { self.new.is_loaded ≡ true }
    {
        if !self.is_loaded {
            self.copy_words(before);
        }
    }

    /// Makes `words` the words from `start` on, or no words, and keeps these stores. After `OutOfMemory` nothing has changed.
    #[inline(always)]
    pub fn store(
        &mut self,
        before: &MemoryRef<'_>,
        start: u64,
        words: &[u64],
    ) -> Result<(), OutOfMemory>
        requires room { length (own_memory self.old before.now).memory ≡ length before.now }
        requires inside { length words.now ≤ length before.now - start }
        requires short { length before.now < 2 ^ 64 }
        ensures ok { let own = own_memory self.old before.now in
            OnOk result (own_memory self.new before.now ≡ record {
              memory = memory_written own.memory start words.now;
              stores = own.stores ++ records start words.now;
            }) }
        ensures err { OnErr result (own_memory self.new before.now ≡ own_memory self.old before.now) }
    {
        self.load(before);
        self.local.store(start, words)
    }

    /// Copies the words here, with the change made in them. False where they are here or lie in several pieces; then, and after `OutOfMemory`,
    /// nothing has changed.
    #[inline(always)]
    fn load_changed<C: Change>(
        &mut self,
        before: &MemoryRef<'_>,
        start: usize,
        len: usize,
        change: &C,
    ) -> Result<bool, OutOfMemory>
        requires room { length (own_memory self.old before.now).memory ≡ length before.now }
        requires some { 0 < len }
        requires inside { start + len ≤ length before.now }
        ensures made { let own = own_memory self.old before.now in
            let words = C.makes change.now (take len (drop start own.memory)) in
            IfOk result (λ made. made ≡ true → own_memory self.new before.now ≡ record {
              memory = memory_written own.memory start words;
              stores = own.stores ++ records start words;
            }) }
        ensures count { let own = own_memory self.old before.now in
            let words = C.makes change.now (take len (drop start own.memory)) in
            IfOk result (λ made. made ≡ true → length words ≡ len) }
        ensures left { IfOk result (λ made. made ≡ false
            → own_memory self.new before.now ≡ own_memory self.old before.now) }
        ensures err { OnErr result (own_memory self.new before.now ≡ own_memory self.old before.now) }
    {
        let words = before.piece(0, before.len());
        if self.is_loaded || words.len() < before.len() {
            return Ok(false);
        }
        self.room.truncate(words.len());
        copy_changed(words, self.room.as_mut_slice(), start, len, change);
        self.local.take_stored(&mut self.room, start, len)?;
        self.is_loaded = true;
        Ok(true)
    }

    /// Makes the change in the `len` words from `start` on, and keeps the words that it makes as stores. After `OutOfMemory` nothing has changed.
    #[inline(always)]
    pub fn change<C: Change>(
        &mut self,
        before: &MemoryRef<'_>,
        start: u64,
        len: usize,
        change: &C,
    ) -> Result<(), OutOfMemory>
        requires room { length (own_memory self.old before.now).memory ≡ length before.now }
        requires inside { start + len ≤ length before.now }
        requires short { length before.now < 2 ^ 64 }
        ensures ok { let own = own_memory self.old before.now in
            let words = C.makes change.now (take len (drop start own.memory)) in
            OnOk result (own_memory self.new before.now ≡ record {
              memory = memory_written own.memory start words;
              stores = own.stores ++ records start words;
            }) }
        ensures count { let own = own_memory self.old before.now in
            let words = C.makes change.now (take len (drop start own.memory)) in
            OnOk result (length words ≡ len) }
        ensures err { OnErr result (own_memory self.new before.now ≡ own_memory self.old before.now) }
    {
        if len > 0 && self.load_changed(before, start as usize, len, change)? {
            return Ok(());
        }
        self.load(before);
        self.local.change(start, len, change)
    }
}
