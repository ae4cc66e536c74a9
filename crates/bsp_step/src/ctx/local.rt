//! The acts on what is the process's own, also for blocks of words, each of which is the acts that it stands for.

ghost use Rattle.std.specs.Prelude.{◌≡◌, ◌≤◌, ◌+◌, ◌↔◌, length, take, drop, ◌<◌, IsOk, None, IsSome, IfNone, IfOk, IfSome, OnOk, option_map};
ghost use Rattle.bsp_step.specs.Act as act;
ghost use Rattle.bsp_step.specs.Blocks.{words_at, stores, with_stored};
ghost use Rattle.bsp_step.specs.Calls.{Performs, PerformsAll, PerformsAlways, PutsWords};

use crate::{Ctx, Stop};
use bsp_model::limits::{MOST_LINE_WORDS, MOST_LINES, MOST_MEMORY_WORDS, MOST_WORK};
use bsp_model::{Change, Fault, OutOfMemory, Words, Workspace};
use std::slice;

impl<'v> Ctx<'v> {
    /// Makes `value` the word at `address` of the own memory. Faults: F5 `BadLocal` where there is no such word.
    pub fn store(&mut self, address: u64, value: u64) -> Result<(), Stop>
        ensures { Performs self.old (act.store address value) self.new result }
    {
        if let Some(fault) = self.fault {
            return Err(Stop::Fault(fault));
        }
        if address >= self.memory_len() {
            return self.refuse(Fault::BadLocal);
        }
        let view = self.view;
        let workspace: &mut Workspace = &mut self.workspace;
        workspace.store(&view.memory, address, slice::from_ref(&value))?;
        Ok(())
    }

    /// Adds to the work of this superstep, in operations on local words. It takes no memory. Faults: F9 `WorkLimit`.
    pub fn charge(&mut self, amount: u64) -> Result<(), Stop>
        ensures { PerformsAlways self.old (act.charge amount) self.new result }
    {
        if let Some(fault) = self.fault {
            return Err(Stop::Fault(fault));
        }
        if amount > MOST_WORK - self.work {
            return self.refuse(Fault::WorkLimit);
        }
        self.work += amount;
        Ok(())
    }

    /// Prints a line of words. Faults, in order: F10 `LineLimit`; F11 `TooLong` for more than `MOST_LINE_WORDS` words.
    pub fn print(&mut self, words: &[u64]) -> Result<(), Stop>
        ensures { Performs self.old (act.print words.now) self.new result }
    {
        if let Some(fault) = self.fault {
            return Err(Stop::Fault(fault));
        }
        if self.rows.lines().len() >= MOST_LINES {
            return self.refuse(Fault::LineLimit);
        }
        if words.len() > MOST_LINE_WORDS {
            return self.refuse(Fault::TooLong);
        }
        self.rows.add_line(words)?;
        Ok(())
    }

    /// Copies the words of the own memory from `address` on to `words`; `None`, and nothing is copied, where they pass its end. It takes no memory.
    pub fn load_words(&self, address: u64, words: &mut [u64]) -> Option<()>
        ensures found { option_map (λ _. words.new) result ≡ words_at self.now.memory address (length words.old) }
        ensures none { IfNone result (words.new ≡ words.old) }
        ensures within { IsSome result ↔ (address + length words.old ≤ length self.now.memory) }
        ensures short { length self.now.memory ≤ MOST_MEMORY_WORDS }
    {
        self.memory().read(address, words).then_some(())
    }

    /// The `len` words of the own memory from `address` on, as they are now, or `None` where they pass its end: `load_words` into a new list.
    pub fn words_at(&self, address: u64, len: u64) -> Result<Option<Words>, OutOfMemory>
        ensures found { IfOk result (λ found. found ≡ words_at self.now.memory address len) }
        ensures len { IfOk result (λ found. IfSome found (λ words. length words ≡ len)) }
    {
        let own = self.memory_len();
        if address > own || len > own - address {
            return Ok(None);
        }
        let mut words = vec![in self.alloc; 0; len as usize]?;
        self.memory().read(address, words.as_mut_slice());
        Ok(Some(Words::from_vec(words)))
    }

    /// One `store` of each of `words`, from `address` on. After `OutOfMemory` none is made. Faults: F5 `BadLocal` at the first past the end; those before it
    /// stand.
    pub fn store_words(&mut self, address: u64, words: &[u64]) -> Result<(), Stop>
        ensures acted { PerformsAll self.old (stores address words.now) self.new result }
        ensures stored { OnOk result (self.new ≡ with_stored self.old address words.now) }
    {
        if let Some(fault) = self.fault {
            return Err(Stop::Fault(fault));
        }
        let room = self.memory_len().saturating_sub(address);
        let (inside, past) = words.split_at(words.len().min(room as usize));
        let view = self.view;
        let workspace: &mut Workspace = &mut self.workspace;
        workspace.store(&view.memory, address, inside)?;
        if !past.is_empty() {
            return self.refuse(Fault::BadLocal);
        }
        Ok(())
    }

    /// Puts `len` words of the own memory from `from` on, as `put` does. `Ok(None)`, and nothing is done, where they pass its end. Faults: those of `put`.
    pub fn put_words(
        &mut self,
        pid: u64,
        from: u64,
        len: u64,
        area: u64,
        offset: u64,
    ) -> Result<Option<()>, Stop>
        ensures { PutsWords self.old (words_at self.old.memory from len)
            (λ words. act.put pid words area offset) self.new result }
    {
        let own = self.memory_len();
        if from > own || len > own - from {
            return Ok(None);
        }
        let start = self.resolve(pid, area, offset, len)?;
        let mut words = vec![in self.alloc; 0; len as usize]?;
        self.memory().read(from, words.as_mut_slice());
        self.rows.add_put(pid, start, words.as_slice())?;
        Ok(Some(()))
    }

    /// Stores what the change makes of the `len` words from `address` on. `Ok(None)`, and nothing is done, where they pass the end of the memory.
    /// After `OutOfMemory` nothing is changed. A first change in words that lie in one piece (`piece_len`) copies none of them.
    pub fn change_words<C: Change>(
        &mut self,
        address: u64,
        len: u64,
        change: &C,
    ) -> Result<Option<()>, Stop>
        ensures acted { let words = C.makes change.now (take len (drop address self.old.memory)) in
            address + len ≤ length self.old.memory → PerformsAll self.old (stores address words) self.new result }
        ensures stored { let words = C.makes change.now (take len (drop address self.old.memory)) in
            IfOk result (λ found. IfSome found (λ _. self.new ≡ with_stored self.old address words)) }
        ensures none { IfOk result (λ found. IfNone found (self.new ≡ self.old)) }
        ensures within { IfOk result (λ found. IsSome found ↔ (address + len ≤ length self.old.memory)) }
        ensures past { length self.old.memory < address + len → IsOk result }
    {
        let own = self.memory_len();
        if address > own || len > own - address {
            return Ok(None);
        }
        if let Some(fault) = self.fault {
            return Err(Stop::Fault(fault));
        }
        let view = self.view;
        let workspace: &mut Workspace = &mut self.workspace;
        workspace.change(&view.memory, address, len as usize, change)?;
        Ok(Some(()))
    }
}
