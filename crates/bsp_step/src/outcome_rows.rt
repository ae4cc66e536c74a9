//! What the turns of several processes leave, as it is gathered.

ghost use Rattle.std.specs.Prelude.{◌≡◌, ◌≤◌, ◌<◌, ℕ, ◌++◌, ◌∷◌, [], All, length, map, IfOk, OnErr, OnOk, slice_range};
ghost use Rattle.std.specs.Bool.{OnTrue};
ghost use Rattle.bsp_model.specs.Columns.{row_at};
ghost use Rattle.bsp_model.specs.Inside.Beside.{stores_in, HaveWords};
ghost use Rattle.bsp_model.specs.Inside.Columns.{pair_at};
ghost use Rattle.bsp_model.specs.PutsTo.{AreToNone};
ghost use Rattle.bsp_model.specs.Replaced.{replaced, IsAscending};
ghost use Rattle.bsp_step.specs.OutcomeParts.{outcome_of};
ghost use Rattle.bsp_step.specs.ListKind.{IsWithout};
ghost use Rattle.bsp_step.specs.Inside.Outcomes.{kept_beside};

mod open_rows;
mod put_rows;

use crate::lists::{Lists, TurnEnd, first};
use crate::{ListKind, OutcomeRef};
use bsp_model::{
    ByProcess, LineColumn, Memories, Memory, MemoryRef, OutOfMemory, ProcessSet, Share, StoresRef,
};
pub(crate) use open_rows::OpenRows;
pub use put_rows::PutRows;
use std::alloc::{AllocError, Global};
use std::marker::Model;

/// What the turns of several processes leave, by process, as it is gathered. All lists of a kind lie in one list, and so do all memories.
pub struct OutcomeRows {
    pub(crate) ends: Vec<TurnEnd>,
    memories: Memories,
    lists: Box<Lists>,
}

// docs/DECISIONS.md says why it has a drop of its own.
impl Drop for OutcomeRows {
    fn drop(self) {
        let Self {
            ends,
            memories,
            lists,
        } = self;
    }
}

impl Model for OutcomeRows {
    ghost use Rattle.std.specs.Prelude.{List};
    ghost use Rattle.bsp_step.specs.OutcomeParts.{OutcomeParts};
    ghost use Rattle.bsp_step.specs.Inside.Outcomes.{outcomes_of, AreOutcomes};

    ghost Value = { List OutcomeParts };

    ghost view = { λ r. outcomes_of r.ends.items r.memories r.lists.value };

    ghost invariant = { λ r. AreOutcomes r.ends.items r.memories r.lists.value };
}

/// The stores of a process: those beside how its turn ended, or else its rows of the column.
#[inline(always)]
fn stores<'a>(
    end: &'a TurnEnd,
    lists: &'a Lists,
    pid: usize,
    memory: &MemoryRef<'a>,
) -> StoresRef<'a>
    requires { HaveWords (kept_beside end.now.stored (pair_at lists.now.stores pid)) memory.now }
    ensures { result ≡ stores_in (kept_beside end.now.stored (pair_at lists.now.stores pid)) memory.now }
{
    match &end.stored {
        Some(range) => StoresRef::of_range(range, memory),
        None => lists.stores.get(pid, memory),
    }
}

impl OutcomeRows {
    /// No outcomes, or `OutOfMemory`.
    pub fn new(alloc: Global) -> Result<OutcomeRows, OutOfMemory>
        ensures { IfOk result (λ o. o ≡ []) }
    {
        let lists = Box::new(alloc, Lists::new(alloc))?;
        Ok(OutcomeRows {
            ends: Vec::new(alloc),
            memories: Memories::new(alloc),
            lists,
        })
    }

    /// No outcomes, with room for so many, or `OutOfMemory`.
    pub fn with_capacity(alloc: Global, count: usize) -> Result<OutcomeRows, OutOfMemory>
        ensures { IfOk result (λ o. o ≡ []) }
    {
        let mut rows = OutcomeRows::new(alloc)?;
        let ends = rows.ends.reserve(count);
        let reserved = ends.and(rows.memories.reserve(count));
        reserved.and(Ok(rows))
    }

    /// No outcomes, with room for so many, and for the lists that most turns fill. Or `OutOfMemory`.
    pub(crate) fn with_room(alloc: Global, count: usize) -> Result<OutcomeRows, OutOfMemory>
        ensures { IfOk result (λ o. o ≡ []) }
    {
        let mut rows = OutcomeRows::with_capacity(alloc, count)?;
        let reserved = rows.lists.reserve(count);
        reserved.and(Ok(rows))
    }

    pub(crate) fn reserve_like(
        &mut self,
        like: &OutcomeRows,
        share: Share,
    ) -> Result<(), OutOfMemory>
        ensures { self.new ≡ self.old }
    {
        let ends = self.ends.reserve(share.part(like.ends.len()));
        let memories = self.memories.reserve_like(&like.memories, share);
        let lists = self.lists.reserve_like(&like.lists, share);
        ends.and(memories).and(lists)
    }

    /// Lists with room for a share of these outcomes, and none of them.
    pub(crate) fn room_of(&self, alloc: Global, share: Share) -> Result<OutcomeRows, OutOfMemory>
        ensures { IfOk result (λ o. o ≡ []) }
    {
        let mut room = OutcomeRows::new(alloc)?;
        let reserved = room.reserve_like(self, share);
        reserved.and(Ok(room))
    }

    /// Lists with room for the ends and the memories of a share of these outcomes, and none of them. For very few outcomes it is cheaper that the lists
    /// grow which are used.
    pub(crate) fn room_of_memories(
        &self,
        alloc: Global,
        share: Share,
    ) -> Result<OutcomeRows, OutOfMemory>
        ensures { IfOk result (λ o. o ≡ []) }
    {
        let mut room = OutcomeRows::new(alloc)?;
        let ends = room.ends.reserve(share.part(self.ends.len()));
        let memories = room.memories.reserve_like(&self.memories, share);
        ends.and(memories).and(Ok(room))
    }

    /// From now on a memory in one piece keeps a list of its own, unless it is short.
    pub fn keep_lists(&mut self)
        ensures { self.new ≡ self.old }
    {
        self.memories.keep_lists();
    }

    pub(crate) fn clear(&mut self)
        ensures { self.new ≡ [] }
    {
        self.ends.clear();
        self.memories.clear();
        self.lists.clear();
    }

    pub(crate) fn memories(&self) -> &Memories
        ensures { result.now ≡ map (λ o. o.memory) self.now }
    {
        &self.memories
    }

    pub(crate) fn copy_lines(&self, lines: &mut LineColumn) -> Result<(), OutOfMemory>
        ensures { OnOk result ((p : ℕ) → row_at lines.new p ≡ (outcome_of self.now p).lines) }
    {
        let lists: &Lists = &self.lists;
        lines.take_range(0, &lists.lines, 0, self.len())
    }

    #[inline(always)]
    pub(crate) fn len(&self) -> usize
        ensures { result ≡ length self.now }
    {
        self.ends.len()
    }

    #[inline(always)]
    pub(crate) fn get(&self, pid: usize) -> OutcomeRef<'_>
        requires { pid < length self.now }
        ensures { result ≡ outcome_of self.now pid }
    {
        let end = &self.ends[pid];
        let lists: &Lists = &self.lists;
        let memory = self.memories.get(pid);
        OutcomeRef {
            fault: first(&lists.faults, pid),
            ended: end.ended,
            stores: stores(end, lists, pid, &memory),
            memory,
            puts: lists.puts.get(pid),
            gets: lists.gets.row(pid),
            sends: lists.sends.get(pid),
            pops: lists.pops.row(pid),
            pushes: lists.pushes.row(pid),
            tag: first(&lists.tags, pid),
            lines: lists.lines.get(pid),
            work: u64::from(end.work),
        }
    }

    #[inline(always)]
    pub(crate) fn is_without(&self, kind: ListKind) -> bool
        ensures { OnTrue result (All (IsWithout kind) self.now) }
    {
        let lists: &Lists = &self.lists;
        lists.is_without(kind)
    }

    pub(crate) fn next_putting_to(&self, targets: &ProcessSet, from: usize) -> usize
        requires { from ≤ length self.now }
        ensures later { from ≤ result }
        ensures before { (p : ℕ) → from ≤ p → p < result → AreToNone targets.now (outcome_of self.now p).puts }
    {
        let lists: &Lists = &self.lists;
        match lists.puts.next_to(targets, from) {
            Some(next) => next,
            None => self.len(),
        }
    }

    /// Adds an outcome with another memory of as many words, which are taken out of `memory`. After `OutOfMemory` these outcomes have not changed.
    pub fn push_over(
        &mut self,
        outcome: &OutcomeRef<'_>,
        memory: &mut Memory,
    ) -> Result<(), OutOfMemory>
        requires { length memory.old ≡ length outcome.now.memory }
        ensures ok { OnOk result (self.new ≡ self.old ++ record outcome.now { memory = memory.old } ∷ []) }
        ensures err { OnErr result (self.new ≡ self.old) }
    {
        let end = TurnEnd {
            ended: outcome.ended,
            work: outcome.work as u32,
            stored: None,
        };
        let put = self.lists.put(self.ends.len(), outcome, &memory.as_ref());
        put.and(self.ends.reserve(1))?;
        self.memories.push_from(memory)?;
        self.ends.push_reserved(end);
        Ok(())
    }

    /// Adds the outcomes of `more`, and leaves none there: pages and lists of words are handed on. After `OutOfMemory` there are none here either.
    pub fn append(&mut self, more: &mut OutcomeRows) -> Result<(), OutOfMemory>
        ensures ok { OnOk result (self.new ≡ self.old ++ more.old) }
        ensures rest { more.new ≡ [] }
    {
        let (place, count) = (self.ends.len(), more.ends.len());
        let lists = self.lists.take_range(place, &more.lists, 0, count);
        let ends = self.ends.extend_from_slice(more.ends.as_slice());
        let memories = self.memories.append(&mut more.memories);
        more.ends.clear();
        more.lists.clear();
        if let (Ok(()), Ok(()), Ok(())) = (lists, ends, memories) {
            return Ok(());
        }
        self.ends.clear();
        self.memories.clear();
        self.lists.clear();
        Err(AllocError)
    }
}

impl ByProcess for OutcomeRows {
    ghost use Rattle.std.specs.Prelude.{refl};
    ghost use Rattle.bsp_model.specs.Replaced.{replaced};
    ghost use Rattle.bsp_step.specs.OutcomeParts.{OutcomeParts};

    ghost Item = { OutcomeParts };

    ghost items = { λ o. o };

    ghost lay = { replaced };

    ghost lays = { λ _ _ _. refl };

    fn count(&self) -> usize {
        self.len()
    }

    fn room_like(&self, alloc: Global) -> Result<OutcomeRows, OutOfMemory> {
        self.room_of(alloc, Share::whole())
    }

    fn capacity(&self) -> usize {
        self.ends.capacity()
    }

    fn into_room(mut self) -> OutcomeRows {
        self.clear();
        self
    }

    fn append_range(
        &mut self,
        more: &OutcomeRows,
        from: usize,
        to: usize,
    ) -> Result<(), OutOfMemory> {
        let taken = self
            .lists
            .take_range(self.ends.len(), &more.lists, from, to);
        taken.and(self.ends.reserve(to - from))?;
        self.memories.append_range(&more.memories, from, to)?;
        self.ends.extend_from_slice(&more.ends[from..to]).unwrap();
        Ok(())
    }
}
