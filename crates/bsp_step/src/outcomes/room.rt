//! Room for the outcomes and the memories of another superstep, and copies of what all turns left.

ghost use Rattle.std.specs.Prelude.{◌≡◌, ◌<◌, ◌++◌, ℕ, [], All, IfNone, IfOk, IfSome, OnOk, length, map};
ghost use Rattle.bsp_model.specs.Columns.{row_at};
ghost use Rattle.bsp_model.specs.Replaced.{IsAscending};
ghost use Rattle.bsp_step.specs.OutcomeParts.{outcome_of};

use crate::{OutcomeRows, Outcomes, PutRows};
use bsp_model::{LineColumn, Memories, OutOfMemory, Share, add_replaced, is_worth_room};
use std::alloc::Global;

impl Outcomes {
    /// No outcomes, in the lists of these, which are needed no more. None where copies share the lists, and where their room does not fit so many.
    fn fitting_room(self, count: usize) -> Option<OutcomeRows>
        ensures { IfSome result (λ o. o ≡ []) }
    {
        let Outcomes { rows } = self;
        rows?.into_room(count)
    }

    /// Lists for so many outcomes: those of `discarded`, which are needed no more, where their room fits. Else new lists, with room for the share that so
    /// many of these outcomes have; of very few outcomes only the memories get it. Where there is no outcome, the lists that most turns fill get room.
    pub fn room_for(
        &self,
        alloc: Global,
        count: usize,
        discarded: Outcomes,
    ) -> Result<OutcomeRows, OutOfMemory>
        ensures { IfOk result (λ o. o ≡ []) }
    {
        if let Some(room) = discarded.fitting_room(count) {
            return Ok(room);
        }
        let Some(rows) = &self.rows else {
            return OutcomeRows::with_room(alloc, count);
        };
        let (base, share) = (rows.layers().0, Share::of(count, rows.len()));
        if is_worth_room(count, rows.len()) {
            return base.room_of(alloc, share);
        }
        base.room_of_memories(alloc, share)
    }

    /// No outcomes, in the lists of these, which are no longer needed, unless copies share the lists. Or `OutOfMemory`.
    pub fn into_room(self, alloc: Global, count: usize) -> Result<OutcomeRows, OutOfMemory>
        ensures { IfOk result (λ o. o ≡ []) }
    {
        let Outcomes { rows } = self;
        let Some(rows) = rows else {
            return OutcomeRows::with_room(alloc, count);
        };
        match rows.into_room(count) {
            Some(room) => Ok(room),
            None => OutcomeRows::with_capacity(alloc, count),
        }
    }

    /// Hands out all memories and puts, where no copy shares these outcomes and none lies apart: none is left then. Else nothing has changed.
    pub fn take_memories(&mut self) -> Option<(Memories, PutRows)>
        ensures memories { IfSome result (λ r. r.0 ≡ map (λ o. o.memory) self.old) }
        ensures puts { IfSome result (λ r. r.1 ≡ map (λ o. o.puts) self.old) }
        ensures none_left { IfSome result (λ _. self.new ≡ []) }
        ensures unchanged { IfNone result (self.new ≡ self.old) }
    {
        match self.rows.take()?.try_unwrap() {
            Ok(rows) => Some(rows.into_memories()),
            Err(shared) => {
                self.rows.insert(shared);
                None
            }
        }
    }

    /// Takes all memories away, and makes room for so many: for the share that so many of these have.
    pub fn make_room_for_memories(
        &self,
        count: usize,
        memories: &mut Memories,
    ) -> Result<(), OutOfMemory>
        ensures { memories.new ≡ [] }
    {
        memories.clear();
        match &self.rows {
            Some(rows) => {
                memories.reserve_like(rows.layers().0.memories(), Share::of(count, rows.len()))
            }
            None => Ok(()),
        }
    }

    /// Makes `memories` copies of the memories of all processes: in one piece, or in few where some outcomes lie apart. Or `OutOfMemory`.
    pub fn copy_memories(&self, memories: &mut Memories) -> Result<(), OutOfMemory>
        ensures { OnOk result (memories.new ≡ map (λ o. o.memory) self.now) }
    {
        let Some(rows) = &self.rows else {
            memories.clear();
            return Ok(());
        };
        let (base, apart) = rows.layers();
        let Some(apart) = apart else {
            return memories.copy_from(base.memories());
        };
        memories.clear();
        memories.reserve_like(base.memories(), Share::whole())?;
        let processes = apart.processes.as_slice();
        add_replaced(memories, base.memories(), processes, apart.items.memories())
    }

    /// Makes `memories` copies of the memories of some processes, which are in ascending order. Or `OutOfMemory`.
    pub fn copy_memories_of(
        &self,
        processes: &[usize],
        memories: &mut Memories,
    ) -> Result<(), OutOfMemory>
        requires known { All (λ p. p < length self.now) processes.now }
        requires ascending { IsAscending processes.now }
        ensures { OnOk result (memories.new ≡ map (λ p. (outcome_of self.now p).memory) processes.now) }
    {
        if processes.len() == self.len() {
            return self.copy_memories(memories);
        }
        self.make_room_for_memories(processes.len(), memories)?;
        for process in processes {
            memories.push_copy(&self.memory(*process))?;
        }
        Ok(())
    }

    /// Copies of the lines of all processes; where none lies apart, they are copied in one piece. Or `OutOfMemory`.
    pub fn all_lines(&self, alloc: Global) -> Result<LineColumn, OutOfMemory>
        ensures { IfOk result (λ lines. (p : ℕ) → row_at lines p ≡ (outcome_of self.now p).lines) }
    {
        let mut lines = LineColumn::new(alloc);
        if let Some(rows) = &self.rows
            && let (base, None) = rows.layers()
        {
            base.copy_lines(&mut lines)?;
            return Ok(lines);
        }
        for pid in 0..self.len() {
            lines.put(pid, &self.lines(pid))?;
        }
        Ok(lines)
    }
}
