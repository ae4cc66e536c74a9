//! The lists that several outcomes have, in columns, and behind them those of the turn under way.

ghost use Rattle.std.specs.Prelude.{◌≡◌, ◌<◌, ◌≤◌, ℕ, [], IfOk, OnOk};
ghost use Rattle.std.specs.Bool.{OnTrue};
ghost use Rattle.bsp_model.specs.Inside.Beside.{stores_in, HaveWords};
ghost use Rattle.bsp_model.specs.Inside.Columns.{pair_at};
ghost use Rattle.bsp_step.specs.Inside.Outcomes.{kept_beside, AreSameLists};
ghost use Rattle.bsp_step.specs.Inside.Gathered.{count_of_issued, gathered_in, rows_in, no_lists, only_issued, AreBefore, HasNothing, HasOnlyPuts, IsEnded, IsStored};

use crate::lists::Lists;
use bsp_model::{
    Column, Fault, Get, LocalMemory, OpenBlocks, OpenRow, OutOfMemory, Put, Range, Send,
    StoreColumn, Words,
};
use bsp_table::Area;
use std::alloc::Global;

/// The lists of several outcomes, each kind in a column of its own. Behind the rows of the outcomes stands what the turn under way has issued. Its fault,
/// its stores and its choice of a tag size are put at its end alone.
pub(crate) struct OpenLists {
    faults: Column<Fault>,
    stores: StoreColumn,
    tags: Column<u64>,
    pub(crate) puts: OpenBlocks<Put>,
    pub(crate) gets: OpenRow<Get>,
    pub(crate) sends: OpenBlocks<Send>,
    pub(crate) pops: OpenRow<usize>,
    pub(crate) pushes: OpenRow<Area>,
    pub(crate) lines: OpenBlocks<Words>,
}

impl Drop for OpenLists {
    fn drop(self) {
        let Self {
            faults,
            stores,
            tags,
            puts,
            gets,
            sends,
            pops,
            pushes,
            lines,
        } = self;
    }
}

/// Puts the stores of a turn, unless they are kept beside how it ended.
#[inline(always)]
fn put_stores(
    stores: &mut StoreColumn,
    place: usize,
    stored: Option<Range>,
    local: &LocalMemory,
) -> Result<(), OutOfMemory>
    requires stored { IsStored stored local.now }
    requires none { (k : ℕ) → place ≤ k → pair_at stores.old k ≡ ([], []) }
    ensures before { (k : ℕ) → k < place → pair_at stores.new k ≡ pair_at stores.old k }
    ensures behind { (k : ℕ) → place < k → pair_at stores.new k ≡ ([], []) }
    ensures beside { OnOk result (HaveWords (kept_beside stored (pair_at stores.new place)) local.now.memory) }
    ensures there { OnOk result
        (stores_in (kept_beside stored (pair_at stores.new place)) local.now.memory ≡ local.now.stores) }
{
    match stored {
        Some(_range) => Ok(()),
        None => stores.put_local(place, local),
    }
}

impl OpenLists {
    pub(crate) fn new(alloc: Global) -> OpenLists
        ensures { result ≡ no_lists }
    {
        OpenLists {
            faults: Column::new(alloc),
            stores: StoreColumn::new(alloc),
            tags: Column::new(alloc),
            puts: OpenBlocks::new(alloc),
            gets: OpenRow::new(alloc),
            sends: OpenBlocks::new(alloc),
            pops: OpenRow::new(alloc),
            pushes: OpenRow::new(alloc),
            lines: OpenBlocks::new(alloc),
        }
    }

    /// A copy of what the turn under way has issued, behind no rows.
    pub(crate) fn copy_turn(&self, alloc: Global) -> Result<OpenLists, OutOfMemory>
        ensures { IfOk result (λ lists. lists ≡ only_issued self.now) }
    {
        Ok(OpenLists {
            faults: Column::new(alloc),
            stores: StoreColumn::new(alloc),
            tags: Column::new(alloc),
            puts: self.puts.copy_last()?,
            gets: self.gets.copy_last()?,
            sends: self.sends.copy_last()?,
            pops: self.pops.copy_last()?,
            pushes: self.pushes.copy_last()?,
            lines: self.lines.copy_last()?,
        })
    }

    /// Exchanges the rows with others, of which those of the processes before a place are taken. What the turn under way has issued is gone.
    pub(crate) fn swap(&mut self, lists: &mut Lists, place: usize)
        ensures given { lists.new ≡ rows_in self.old }
        ensures taken { (k : ℕ) → k < place → AreSameLists lists.old k (rows_in self.new) k }
        ensures before { AreBefore (rows_in self.new) place }
        ensures nothing { HasNothing self.new }
    {
        self.faults.swap(&mut lists.faults);
        self.stores.swap(&mut lists.stores);
        self.tags.swap(&mut lists.tags);
        self.faults.cut(place);
        self.stores.cut(place);
        self.tags.cut(place);
        self.puts.swap(&mut lists.puts, place);
        self.gets.swap(&mut lists.gets, place);
        self.sends.swap(&mut lists.sends, place);
        self.pops.swap(&mut lists.pops, place);
        self.pushes.swap(&mut lists.pushes, place);
        self.lines.swap(&mut lists.lines, place);
    }

    /// Leaves out the rows of the processes from a place on, and what the turn under way has issued.
    pub(crate) fn cut(&mut self, place: usize)
        ensures same { (k : ℕ) → k < place → AreSameLists (rows_in self.old) k (rows_in self.new) k }
        ensures before { AreBefore (rows_in self.new) place }
        ensures nothing { HasNothing self.new }
    {
        self.faults.cut(place);
        self.stores.cut(place);
        self.tags.cut(place);
        self.puts.cut_rows(place);
        self.gets.cut_rows(place);
        self.sends.cut_rows(place);
        self.pops.cut_rows(place);
        self.pushes.cut_rows(place);
        self.lines.cut_rows(place);
    }

    /// Whether the turn under way has issued puts alone, has no fault and chose no tag size. Of most turns that is so.
    #[inline(always)]
    fn has_only_puts(&self, requests: usize, fault: Option<Fault>, tag: Option<u64>) -> bool
        requires { requests ≡ count_of_issued (gathered_in [] [] self.now) }
        ensures { OnTrue result (HasOnlyPuts self.now fault tag) }
    {
        self.puts.len() == requests && self.lines.len() == 0 && fault.is_none() && tag.is_none()
    }

    /// Makes what the turn under way has issued the rows of a process, and puts there what is known of a turn at its end alone.
    #[inline(always)]
    pub(crate) fn end_turn(
        &mut self,
        place: usize,
        requests: usize,
        stored: Option<Range>,
        fault: Option<Fault>,
        tag: Option<u64>,
        local: &LocalMemory,
    ) -> Result<(), OutOfMemory>
        requires before { AreBefore (rows_in self.old) place }
        requires stored { IsStored stored local.now }
        requires count { requests ≡ count_of_issued (gathered_in [] [] self.old) }
        ensures ended { OnOk result (IsEnded self.old place stored fault tag local.now self.new) }
        ensures same { (k : ℕ) → k < place → AreSameLists (rows_in self.old) k (rows_in self.new) k }
    {
        let only_puts = self.has_only_puts(requests, fault, tag);
        put_stores(&mut self.stores, place, stored, local)?;
        self.puts.end_row(place)?;
        if only_puts {
            return Ok(());
        }
        self.gets.end_row(place)?;
        self.sends.end_row(place)?;
        self.pops.end_row(place)?;
        self.pushes.end_row(place)?;
        self.lines.end_row(place)?;
        self.faults.put(place, fault.as_slice())?;
        self.tags.put(place, tag.as_slice())
    }
}
