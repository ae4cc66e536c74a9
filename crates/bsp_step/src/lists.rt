//! The lists that several outcomes have, in columns.

ghost use Rattle.std.specs.Prelude.{◌≡◌, ◌≤◌, ◌<◌, ◌+◌, ◌-◌, ℕ, None, OnOk};
ghost use Rattle.std.specs.Bool.{OnTrue};
ghost use Rattle.bsp_step.specs.Inside.Outcomes.{IsWithoutColumn, first_at, AreSameLists, HasLists, HasRareLists};

use crate::{Ended, ListKind, OutcomeRef};
use bsp_model::{
    BlockColumn, Column, Fault, Get, LineColumn, MemoryRef, OutOfMemory, Put, Range, Send, Share,
    StoreColumn,
};
use bsp_table::Area;
use std::alloc::Global;

/// How a turn ended, and the work that it charged, which is at most `MOST_WORK`, of 32 bits.
#[derive(Clone, Copy)]
pub(crate) struct TurnEnd {
    pub(crate) ended: Ended,
    pub(crate) work: u32,
    /// The stores of most turns: one range, whose words stand in the memory. Other stores are rows of a column.
    pub(crate) stored: Option<Range>,
}

/// The lists of several outcomes, each kind in a column of its own. A fault and a choice of a tag size are rows of at most one item.
pub(crate) struct Lists {
    pub(crate) faults: Column<Fault>,
    pub(crate) stores: StoreColumn,
    pub(crate) puts: BlockColumn<Put>,
    pub(crate) gets: Column<Get>,
    pub(crate) sends: BlockColumn<Send>,
    pub(crate) pops: Column<usize>,
    pub(crate) pushes: Column<Area>,
    pub(crate) tags: Column<u64>,
    pub(crate) lines: LineColumn,
}

impl Drop for Lists {
    fn drop(self) {
        let Self {
            faults,
            stores,
            puts,
            gets,
            sends,
            pops,
            pushes,
            tags,
            lines,
        } = self;
    }
}

#[inline(always)]
pub(crate) fn first<T: Copy>(column: &Column<T>, place: usize) -> Option<T>
    ensures { result ≡ first_at column.now place }
{
    column.row(place).first().copied()
}

impl Lists {
    pub(crate) fn new(alloc: Global) -> Lists {
        Lists {
            faults: Column::new(alloc),
            stores: StoreColumn::new(alloc),
            puts: BlockColumn::new(alloc),
            gets: Column::new(alloc),
            sends: BlockColumn::new(alloc),
            pops: Column::new(alloc),
            pushes: Column::new(alloc),
            tags: Column::new(alloc),
            lines: LineColumn::new(alloc),
        }
    }

    /// Makes room for one put of each of so many turns. Few turns leave anything in the other lists.
    pub(crate) fn reserve(&mut self, turns: usize) -> Result<(), OutOfMemory>
        ensures { self.new ≡ self.old }
    {
        self.puts.reserve(turns)
    }

    pub(crate) fn reserve_like(&mut self, like: &Lists, share: Share) -> Result<(), OutOfMemory>
        ensures { self.new ≡ self.old }
    {
        let done = self.faults.reserve_like(&like.faults, share);
        let done = done.and(self.stores.reserve_like(&like.stores, share));
        let done = done.and(self.puts.reserve_like(&like.puts, share));
        let done = done.and(self.gets.reserve_like(&like.gets, share));
        let done = done.and(self.sends.reserve_like(&like.sends, share));
        let done = done.and(self.pops.reserve_like(&like.pops, share));
        let done = done.and(self.pushes.reserve_like(&like.pushes, share));
        let done = done.and(self.tags.reserve_like(&like.tags, share));
        done.and(self.lines.reserve_like(&like.lines, share))
    }

    pub(crate) fn clear(&mut self) {
        self.faults.clear();
        self.stores.clear();
        self.puts.clear();
        self.gets.clear();
        self.sends.clear();
        self.pops.clear();
        self.pushes.clear();
        self.tags.clear();
        self.lines.clear();
    }

    /// Puts copies of the lists that few turns fill.
    #[inline(always)]
    fn put_rare(&mut self, place: usize, outcome: &OutcomeRef<'_>) -> Result<(), OutOfMemory>
        ensures stores { self.new.stores ≡ self.old.stores }
        ensures puts { self.new.puts ≡ self.old.puts }
        ensures before { (k : ℕ) → k < place → AreSameLists self.old k self.new k }
        ensures there { OnOk result (HasRareLists self.new place outcome.now) }
    {
        let done = self.faults.put(place, outcome.fault.as_slice());
        let done = done.and(self.gets.put(place, outcome.gets));
        let done = done.and(self.sends.put(place, &outcome.sends));
        let done = done.and(self.pops.put(place, outcome.pops));
        let done = done.and(self.pushes.put(place, outcome.pushes));
        let done = done.and(self.tags.put(place, outcome.tag.as_slice()));
        done.and(self.lines.put(place, &outcome.lines))
    }

    /// Puts copies of an outcome's lists. The stores are kept beside the memory that is kept of the process.
    #[inline(always)]
    pub(crate) fn put(
        &mut self,
        place: usize,
        outcome: &OutcomeRef<'_>,
        memory: &MemoryRef<'_>,
    ) -> Result<(), OutOfMemory>
        ensures before { (k : ℕ) → k < place → AreSameLists self.old k self.new k }
        ensures there { OnOk result (HasLists None self.new place memory.now outcome.now) }
    {
        let done = self.stores.put(place, &outcome.stores, memory);
        let done = done.and(self.puts.put(place, &outcome.puts));
        done.and(self.put_rare(place, outcome))
    }

    #[inline(always)]
    pub(crate) fn is_without(&self, kind: ListKind) -> bool
        ensures { OnTrue result (IsWithoutColumn kind self.now) }
    {
        match kind {
            ListKind::Faults => self.faults.is_empty(),
            ListKind::Gets => self.gets.is_empty(),
            ListKind::Sends => self.sends.is_empty(),
            ListKind::Pops => self.pops.is_empty(),
            ListKind::Pushes => self.pushes.is_empty(),
            ListKind::Tags => self.tags.is_empty(),
            ListKind::Lines => self.lines.is_empty(),
        }
    }

    pub(crate) fn take_range(
        &mut self,
        place: usize,
        more: &Lists,
        from: usize,
        to: usize,
    ) -> Result<(), OutOfMemory>
        ensures before { (k : ℕ) → k < place → AreSameLists self.old k self.new k }
        ensures taken { OnOk result
            ((k : ℕ) → place ≤ k → k < place + (to - from) → AreSameLists more.now (from + (k - place)) self.new k) }
    {
        let done = self.faults.take_range(place, &more.faults, from, to);
        let done = done.and(self.stores.take_range(place, &more.stores, from, to));
        let done = done.and(self.puts.take_range(place, &more.puts, from, to));
        let done = done.and(self.gets.take_range(place, &more.gets, from, to));
        let done = done.and(self.sends.take_range(place, &more.sends, from, to));
        let done = done.and(self.pops.take_range(place, &more.pops, from, to));
        let done = done.and(self.pushes.take_range(place, &more.pushes, from, to));
        let done = done.and(self.tags.take_range(place, &more.tags, from, to));
        done.and(self.lines.take_range(place, &more.lines, from, to))
    }
}
