//! A list of rows, of which the last still gets items.

ghost use Rattle.std.specs.Prelude.{◌≡◌, ◌≤◌, ◌<◌, ◌+◌, ◌++◌, ◌∷◌, [], ℕ, length, take, IfOk, OnErr, OnOk};
ghost use Rattle.bsp_model.specs.Columns.{row_at, IsPut};

use crate::rows::start_of;
use crate::seq::append_items;
use crate::{Column, OutOfMemory};
use std::alloc::Global;
use std::marker::Model;
use std::mem;

/// A list of rows, and behind them the items of one row more, the open row. Where the open row ends is noted once it has all its items.
pub struct OpenRow<T> {
    /// The items of the rows, and behind them those of the open row.
    items: Vec<T>,
    ends: Vec<usize>,
    /// Where the open row starts.
    start: usize,
}

impl<T: Drop> Drop for OpenRow<T> {
    fn drop(self) {
        let Self { items, ends, start } = self;
    }
}

impl<T> Model for OpenRow<T> {
    ghost use Rattle.bsp_model.specs.Opened.{Opened};
    ghost use Rattle.bsp_model.specs.Inside.OpenRow.{opened_in, IsOpen};

    ghost Value = { Opened T };

    ghost view = { λ r. opened_in r.items.items r.ends.items r.start };

    ghost invariant = { λ r. IsOpen r.items.items r.ends.items r.start };
}

impl<T> OpenRow<T> {
    /// No rows, and an open row without items. They take no memory.
    pub fn new(alloc: Global) -> OpenRow<T>
        ensures { result ≡ record { rows = []; last = [] } }
    {
        OpenRow {
            items: Vec::new(alloc),
            ends: Vec::new(alloc),
            start: 0,
        }
    }

    /// The number of items of the open row.
    #[inline(always)]
    pub fn len(&self) -> usize
        ensures { result ≡ length self.now.last }
    {
        self.items.len() - self.start
    }

    /// The items of the open row.
    #[inline(always)]
    pub fn as_slice(&self) -> &[T]
        ensures { result.now ≡ self.now.last }
    {
        &self.items[self.start..]
    }
}

impl<T: Copy> OpenRow<T> {
    /// Makes room for so many rows more, of one item each.
    pub fn reserve(&mut self, rows: usize) -> Result<(), OutOfMemory>
        ensures { self.new ≡ self.old }
    {
        let items = self.items.reserve(rows);
        items.and(self.ends.reserve(rows))
    }

    /// Adds an item to the open row. After `OutOfMemory` nothing has changed.
    #[inline(always)]
    pub fn push(&mut self, item: T) -> Result<(), OutOfMemory>
        ensures ok { OnOk result (self.new ≡ record self.old { last = self.old.last ++ item ∷ [] }) }
        ensures err { OnErr result (self.new ≡ self.old) }
    {
        self.items.push(item)?;
        Ok(())
    }

    /// Adds items to the open row. After `OutOfMemory` nothing has changed.
    #[inline(always)]
    pub fn extend(&mut self, items: &[T]) -> Result<(), OutOfMemory>
        ensures ok { OnOk result (self.new ≡ record self.old { last = self.old.last ++ items.now }) }
        ensures err { OnErr result (self.new ≡ self.old) }
    {
        append_items(&mut self.items, items)
    }

    /// Leaves out the items of the open row from a number on.
    pub fn cut(&mut self, count: usize)
        ensures { self.new ≡ record self.old { last = take count self.old.last } }
    {
        self.items.truncate(self.start.saturating_add(count));
    }

    /// Makes the open row the row at a place, where it has an item, and opens the next. After `OutOfMemory` the rows before are as they were.
    #[inline(always)]
    pub fn end_row(&mut self, place: usize) -> Result<(), OutOfMemory>
        requires { length self.old.rows ≤ place }
        ensures ok { OnOk result (IsPut [] (row_at self.old.rows) place self.old.last (row_at self.new.rows)) }
        ensures none { OnOk result (self.new.last ≡ []) }
        ensures few { length self.new.rows ≤ place + 1 }
        ensures before { (k : ℕ) → k < place → row_at self.new.rows k ≡ row_at self.old.rows k }
    {
        if self.items.len() == self.start {
            return Ok(());
        }
        while self.ends.len() < place {
            self.ends.push(self.start)?;
        }
        self.ends.reserve(1)?;
        self.ends.push_reserved(self.items.len());
        self.start = self.items.len();
        Ok(())
    }

    /// A copy of the open row, behind no rows.
    pub fn copy_last(&self) -> Result<OpenRow<T>, OutOfMemory>
        ensures { IfOk result (λ r. r ≡ record { rows = []; last = self.now.last }) }
    {
        let alloc = *self.items.allocator();
        let mut items = Vec::new(alloc);
        items.extend_from_slice(self.as_slice())?;
        Ok(OpenRow {
            items,
            ends: Vec::new(alloc),
            start: 0,
        })
    }

    /// Leaves out the rows from a place on, and the items of the open row.
    pub fn cut_rows(&mut self, place: usize)
        ensures { self.new ≡ record { rows = take place self.old.rows; last = [] } }
    {
        let place = place.min(self.ends.len());
        let start = start_of(self.ends.as_slice(), place);
        self.items.truncate(start);
        self.ends.truncate(place);
        self.start = start;
    }

    /// Exchanges the rows with others, of which those before a place are taken. The items of the open row are gone.
    pub fn swap(&mut self, rows: &mut Column<T>, place: usize)
        ensures taken { self.new ≡ record { rows = take place rows.old; last = [] } }
        ensures given { rows.new ≡ self.old.rows }
    {
        self.items.truncate(self.start);
        // Most columns have no row, and stay where they are, unless there is room to be had.
        let has_room = self.items.capacity() >= rows.items.capacity();
        if has_room && self.ends.is_empty() && rows.is_empty() {
            return;
        }
        rows.truncate(place);
        mem::swap(&mut self.items, &mut rows.items);
        mem::swap(&mut self.ends, &mut rows.ends);
        self.start = self.items.len();
    }
}
