//! For each process a list that its copies share.

ghost use Rattle.std.specs.Prelude.{◌≡◌, ◌<◌, ◌≤◌, ◌++◌, ℕ, [], length, OnErr, OnOk};
ghost use Rattle.bsp_model.specs.Columns.{row_at, AreCut, AreTaken, IsPut};

use crate::seq::append_copies;
use crate::{OutOfMemory, Share, SharedSeq};
use std::alloc::Global;
use std::marker::Model;

/// For each process, by its number, a list that copies share. The last ones, where empty, need not stand.
#[derive(Drop)]
pub struct SharedColumn<T> {
    pub(crate) rows: Vec<SharedSeq<T>>,
}

impl<T> Model for SharedColumn<T> {
    ghost use Rattle.std.specs.Prelude.{List};

    ghost Value = { List (List T) };

    ghost view = { λ c. c.rows.items };
}

fn fill<T: Drop>(rows: &mut Vec<SharedSeq<T>>, count: usize) -> Result<(), OutOfMemory>
    requires { length rows.old.items ≤ count }
    ensures same { (k : ℕ) → row_at rows.new.items k ≡ row_at rows.old.items k }
    ensures count { OnOk result (length rows.new.items ≡ count) }
{
    while rows.len() < count {
        rows.push(SharedSeq::new())?;
    }
    Ok(())
}

impl<T> SharedColumn<T> {
    pub fn new(alloc: Global) -> SharedColumn<T>
        ensures { result ≡ [] }
    {
        SharedColumn {
            rows: Vec::new(alloc),
        }
    }

    #[inline(always)]
    pub(crate) fn allocator(&self) -> Global {
        *self.rows.allocator()
    }

    #[inline(always)]
    pub fn row(&self, place: usize) -> &[T]
        ensures { result.now ≡ row_at self.now place }
    {
        if place < self.rows.len() {
            self.rows[place].as_slice()
        } else {
            &[]
        }
    }
}

impl<T: Drop> SharedColumn<T> {
    pub fn clear(&mut self)
        ensures { self.new ≡ [] }
    {
        self.rows.clear();
    }

    pub(crate) fn reserve_like(
        &mut self,
        like: &SharedColumn<T>,
        share: Share,
    ) -> Result<(), OutOfMemory>
        ensures { self.new ≡ self.old }
    {
        self.rows.reserve(share.part(like.rows.len()))
    }

    #[inline(always)]
    pub fn put(&mut self, place: usize, row: SharedSeq<T>) -> Result<(), OutOfMemory>
        ensures ok { OnOk result (IsPut [] (row_at self.old) place row (row_at self.new)) }
        ensures err { OnErr result (AreCut [] (row_at self.old) place (row_at self.new)) }
    {
        if place < self.rows.len() {
            self.rows.truncate(place);
        }
        if row.is_empty() {
            return Ok(());
        }
        fill(&mut self.rows, place)?;
        self.rows.push(row)?;
        Ok(())
    }

    /// Moves so many rows of `more` to `place` and the places behind it. After `OutOfMemory` both columns may have any rows.
    pub fn append(
        &mut self,
        place: usize,
        more: &mut SharedColumn<T>,
        count: usize,
    ) -> Result<(), OutOfMemory>
        ensures ok { OnOk result (AreTaken [] (row_at self.old) place (row_at more.old) 0 count (row_at self.new)) }
    {
        self.rows.truncate(place);
        more.rows.truncate(count);
        if more.rows.is_empty() {
            return Ok(());
        }
        fill(&mut self.rows, place)?;
        self.rows.append(&mut more.rows)
    }

    /// Copies share their items. After `OutOfMemory` some of the copies stand.
    pub fn take_range(
        &mut self,
        place: usize,
        more: &SharedColumn<T>,
        from: usize,
        to: usize,
    ) -> Result<(), OutOfMemory>
        ensures ok { OnOk result (AreTaken [] (row_at self.old) place (row_at more.now) from to (row_at self.new)) }
        ensures before { (k : ℕ) → k < place → row_at self.new k ≡ row_at self.old k }
    {
        self.rows.truncate(place);
        let to = to.min(more.rows.len());
        if to <= from {
            return Ok(());
        }
        fill(&mut self.rows, place)?;
        append_copies(&mut self.rows, &more.rows[from..to])
    }
}
