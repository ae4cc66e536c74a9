//! A list of rows, kept in two lists.

ghost use Rattle.std.specs.Prelude.{◌≡◌, ◌<◌, ◌≤◌, ◌+◌, ◌^◌, ◌++◌, ◌∷◌, [], ℕ, drop, length, map, nat_eq, ◌-◌, slice_index, slice_index_or, slice_range, slice_set, take, EachIndex, IfOk, OnErr, OnOk, vec_capacity, vec_len};
ghost use Rattle.bsp_model.specs.Columns.{row_at, AreCut, AreTaken, IsPut};
ghost use Rattle.bsp_model.specs.Inside.Rows.{AreEnds};

use crate::seq::{append_items, replace_items};
use crate::{OutOfMemory, Share};
use std::alloc::Global;
use std::marker::Model;
use std::mem;

/// For each process, by its number, a row of items. A process that nothing was put at has the empty row.
pub type Column<T> = Rows<T>;

/// A list of rows, whose items lie one behind the other in one list. A place at which no row stands counts as an empty row.
pub struct Rows<T> {
    pub(crate) items: Vec<T>,
    pub(crate) ends: Vec<usize>,
}

impl<T: Drop> Drop for Rows<T> {
    fn drop(self) {
        let Self { items, ends } = self;
    }
}

impl<T> Model for Rows<T> {
    ghost use Rattle.std.specs.Prelude.{List, length};
    ghost use Rattle.bsp_model.specs.Inside.Rows.{rows_of, AreEnds};

    ghost Value = { List (List T) };

    ghost view = { λ r. rows_of 0 r.items.items r.ends.items };

    ghost invariant = { λ r. AreEnds 0 r.ends.items (length r.items.items) };
}

#[inline(always)]
pub(crate) fn start_of(ends: &[usize], number: usize) -> usize
    requires { number ≤ length ends.now }
    ensures { result ≡ slice_index_or (0 ∷ ends.now) number 0 }
{
    if number == 0 { 0 } else { ends[number - 1] }
}

#[inline(always)]
fn bounds_of(ends: &[usize], count: usize, from: usize, to: usize) -> (usize, usize)
    requires ends { AreEnds 0 ends.now count }
    requires order { from ≤ to }
    requires rows { to ≤ length ends.now }
    ensures start { result.0 ≡ slice_index_or (0 ∷ ends.now) from 0 }
    ensures end { result.1 ≡ slice_index_or (0 ∷ ends.now) to 0 }
    ensures order { result.0 ≤ result.1 }
    ensures inside { result.1 ≤ count }
{
    (start_of(ends, from), start_of(ends, to))
}

pub(crate) fn row_behind(ends: &[usize], from: usize, place: usize) -> usize
    requires { from ≤ length ends.now }
    ensures later { from ≤ result }
    ensures within { result ≤ length ends.now }
    ensures before { (k : ℕ) → from ≤ k → k < result → slice_index_or ends.now k 0 ≤ place }
    ensures there { result < length ends.now → place < slice_index_or ends.now result 0 }
{
    for number in from..ends.len() {
        if ends[number] > place {
            return number;
        }
    }
    ends.len()
}

fn add_ends(ends: &mut Vec<usize>, before: usize, start: usize, more: &[usize])
    requires room { vec_len ends.old + length more.now ≤ vec_capacity ends.old }
    requires behind { EachIndex more.now (λ k. start ≤ slice_index more.now k) }
    requires fits { EachIndex more.now (λ k. before + (slice_index more.now k - start) < 2 ^ 64) }
    ensures { ends.new.items ≡ ends.old.items ++ map (λ end. before + (end - start)) more.now }
{
    if before == start {
        ends.extend_from_slice(more).unwrap();
        return;
    }
    for end in more {
        ends.push_reserved(before + (*end - start));
    }
}

impl<T> Rows<T> {
    /// No rows, which take no memory.
    pub fn new(alloc: Global) -> Rows<T>
        ensures { result ≡ [] }
    {
        Rows {
            items: Vec::new(alloc),
            ends: Vec::new(alloc),
        }
    }

    #[inline(always)]
    pub(crate) fn len(&self) -> usize
        ensures len { result ≡ length self.now }
        ensures small { result < 2 ^ 63 }
    {
        self.ends.len()
    }

    /// Whether there is no row.
    #[inline(always)]
    pub fn is_empty(&self) -> bool
        ensures { result ≡ nat_eq (length self.now) 0 }
    {
        self.ends.is_empty()
    }

    /// The row at a place; empty where there is none.
    #[inline(always)]
    pub fn row(&self, place: usize) -> &[T]
        ensures { result.now ≡ row_at self.now place }
    {
        if place < self.ends.len() {
            self.known_row(place)
        } else {
            &[]
        }
    }

    #[inline(always)]
    pub(crate) fn known_row(&self, place: usize) -> &[T]
        requires { place < length self.now }
        ensures { result.now ≡ slice_index_or self.now place [] }
    {
        let ends = self.ends.as_slice();
        let (start, end) = bounds_of(ends, self.items.len(), place, place + 1);
        &self.items[start..end]
    }
}

impl<T: Copy> Rows<T> {
    /// Takes all rows away. Their room stays.
    pub fn clear(&mut self)
        ensures { self.new ≡ [] }
    {
        self.items.clear();
        self.ends.clear();
    }

    /// Makes room for so many rows more, of one item each.
    pub(crate) fn reserve(&mut self, rows: usize) -> Result<(), OutOfMemory>
        ensures { self.new ≡ self.old }
    {
        let items = self.items.reserve(rows);
        items.and(self.ends.reserve(rows))
    }

    /// For how many rows there is room.
    pub fn capacity(&self) -> usize {
        self.ends.capacity()
    }

    /// Makes room for a share of the rows that others have, and of their items.
    pub fn reserve_like(&mut self, like: &Rows<T>, share: Share) -> Result<(), OutOfMemory>
        ensures { self.new ≡ self.old }
    {
        let items = self.items.reserve(share.part(like.items.len()));
        items.and(self.ends.reserve(share.part(like.ends.len())))
    }

    #[inline(always)]
    pub(crate) fn push(&mut self, row: &[T]) -> Result<(), OutOfMemory>
        ensures ok { OnOk result (self.new ≡ self.old ++ row.now ∷ []) }
        ensures err { OnErr result (self.new ≡ self.old) }
    {
        self.ends.reserve(1)?;
        append_items(&mut self.items, row)?;
        self.ends.push_reserved(self.items.len());
        Ok(())
    }

    #[inline(always)]
    pub(crate) fn truncate(&mut self, count: usize)
        ensures { self.new ≡ take count self.old }
    {
        if count < self.ends.len() {
            self.items.truncate(start_of(self.ends.as_slice(), count));
            self.ends.truncate(count);
        }
    }

    /// Exchanges all rows with others. Lists without a row stay where they are.
    #[inline(always)]
    pub fn swap(&mut self, other: &mut Rows<T>)
        ensures taken { self.new ≡ other.old }
        ensures given { other.new ≡ self.old }
    {
        if self.ends.is_empty() && other.ends.is_empty() {
            return;
        }
        mem::swap(self, other);
    }

    /// Leaves out the rows from a place on.
    #[inline(always)]
    pub fn cut(&mut self, place: usize)
        ensures { AreCut [] (row_at self.old) place (row_at self.new) }
    {
        self.truncate(place);
    }

    #[inline(always)]
    pub(crate) fn fill(&mut self, count: usize) -> Result<(), OutOfMemory>
        requires { length self.old ≤ count }
        ensures same { (k : ℕ) → row_at self.new k ≡ row_at self.old k }
        ensures few { length self.new ≤ count }
        ensures count { OnOk result (length self.new ≡ count) }
    {
        while self.ends.len() < count {
            self.ends.push(self.items.len())?;
        }
        Ok(())
    }

    #[inline(always)]
    pub(crate) fn replace(&mut self, number: usize, place: usize, items: &[T])
        requires known { number < length self.old }
        requires inside { place + length items.now ≤ length (slice_index_or self.old number []) }
        ensures { let row = slice_index_or self.old number [] in
            self.new ≡ slice_set self.old number (take place row ++ items.now ++ drop (place + length items.now) row) }
    {
        let start = start_of(self.ends.as_slice(), number) + place;
        replace_items(self.items.as_mut_slice(), start, items);
    }

    pub(crate) fn append_range(
        &mut self,
        more: &Rows<T>,
        from: usize,
        to: usize,
    ) -> Result<(), OutOfMemory>
        requires order { from ≤ to }
        requires inside { to ≤ length more.now }
        ensures ok { OnOk result (self.new ≡ self.old ++ slice_range more.now from to) }
        ensures err { OnErr result (self.new ≡ self.old) }
    {
        if from == to {
            return Ok(());
        }
        let ends = more.ends.as_slice();
        let (start, end) = bounds_of(ends, more.items.len(), from, to);
        self.ends.reserve(to - from)?;
        let before = self.items.len();
        self.items.extend_from_slice(&more.items[start..end])?;
        add_ends(&mut self.ends, before, start, &ends[from..to]);
        Ok(())
    }

    /// Makes `row` the row of a process, and leaves those behind it out. After `OutOfMemory` its own is left out too.
    #[inline(always)]
    pub fn put(&mut self, place: usize, row: &[T]) -> Result<(), OutOfMemory>
        ensures ok { OnOk result (IsPut [] (row_at self.old) place row.now (row_at self.new)) }
        ensures err { OnErr result (AreCut [] (row_at self.old) place (row_at self.new)) }
    {
        self.truncate(place);
        if row.is_empty() {
            return Ok(());
        }
        self.fill(place)?;
        self.push(row)
    }

    /// Copies the rows `from` to `to` of `more`, the last excluded, to `place` and the places behind it. After `OutOfMemory` no row stands from `place` on.
    pub fn take_range(
        &mut self,
        place: usize,
        more: &Rows<T>,
        from: usize,
        to: usize,
    ) -> Result<(), OutOfMemory>
        ensures ok { OnOk result (AreTaken [] (row_at self.old) place (row_at more.now) from to (row_at self.new)) }
        ensures err { OnErr result (AreCut [] (row_at self.old) place (row_at self.new)) }
    {
        self.truncate(place);
        let to = to.min(more.len());
        if to <= from {
            return Ok(());
        }
        self.fill(place)?;
        self.append_range(more, from, to)
    }
}
