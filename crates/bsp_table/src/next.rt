//! The table after the end of a superstep.

ghost use Rattle.std.specs.Prelude.{◌≡◌, ◌≤◌, ◌<◌, ◌==◌, ◌++◌, ◌∷◌, [], List, ℕ, length, None, IfOk, IfErr, OnOk, All, nat_eq};
ghost use Rattle.std.specs.List.{range_with_len};
ghost use lib.Pointwise.{pointwise};
ghost use Rattle.bsp_table.specs.declared.next.TableFault.TheVariants.{OutOfMemory};
ghost use Rattle.bsp_table.specs.NextTable.{next_table, table_fault, kept_slots, pushed_slot, is_popped, are_alike, no_area, AreSlots, AreFull, AreSlotsInside, ArePushesInside, AreSlotsWithin, AreWithin};
ghost use Rattle.bsp_table.specs.TableFault.{sync_fault_of};

use crate::table::Slot;
use crate::{Area, Table};
use bsp_model::limits::{MOST_PROCESSES, MOST_SLOTS};
use bsp_model::{OutOfMemory, Seq, SyncFault, TryCopy};
use std::alloc::{AllocError, Global};
use thiserror::Error;

/// What the processes ask of the registration table in a superstep, by process.
pub trait Registers {
    ghost use Rattle.std.specs.Prelude.{◌≡◌, ◌<◌, All, List, [], ℕ, length, slice_index_or};
    ghost use Rattle.std.specs.Bool.{OnTrue};
    ghost use Rattle.bsp_table.specs.declared.area.Area.{Area};

    ghost pops: { Self → List (List ℕ) };

    ghost pushes: { Self → List (List Area) };

    /// The number of processes.
    fn count(&self) -> usize
        ensures pops { result ≡ length (pops self.now) }
        ensures pushes { result ≡ length (pushes self.now) };

    /// The slots of the table that stood during the superstep which a process popped, in issue order.
    fn pops(&self, pid: usize) -> &[usize]
        requires { pid < length (pops self.now) }
        ensures { result.now ≡ slice_index_or (pops self.now) pid [] };

    /// The areas that a process pushed, in issue order.
    fn pushes(&self, pid: usize) -> &[Area]
        requires { pid < length (pushes self.now) }
        ensures { result.now ≡ slice_index_or (pushes self.now) pid [] };

    /// Whether it is plain, without going over the processes, that none popped a slot.
    fn has_no_pops(&self) -> bool
        ensures { OnTrue result (All (λ popped. popped ≡ []) (pops self.now)) };

    /// Whether it is plain, without going over the processes, that none pushed an area.
    fn has_no_pushes(&self) -> bool
        ensures { OnTrue result (All (λ pushed. pushed ≡ []) (pushes self.now)) };
}

/// Why there is no next table.
#[derive(Clone, Copy, Debug, PartialEq, Eq, Error)]
pub enum TableFault {
    /// S3, S4 or S5: the first of `PopMismatch`, `PushMismatch` and `TooManySlots` that holds.
    #[error("there is no next registration table: {0}")]
    Sync(SyncFault),
    #[error("memory was refused")]
    OutOfMemory,
}

impl From<AllocError> for TableFault {
    ghost from_gives = { λ _ e. e ≡ OutOfMemory };

    fn from(_error: AllocError) -> TableFault {
        TableFault::OutOfMemory
    }
}

fn is_same_pops<R: Registers>(all: &R, nprocs: usize) -> bool
    requires some { 1 ≤ nprocs }
    requires count { nprocs ≡ length (R.pops all.now) }
    ensures { result ≡ are_alike (pointwise nat_eq) (R.pops all.now) }
{
    if all.has_no_pops() {
        return true;
    }
    let first = all.pops(0);
    for pid in 1..nprocs {
        if first != all.pops(pid) {
            return false;
        }
    }
    true
}

fn is_same_count<R: Registers>(all: &R, nprocs: usize) -> bool
    requires some { 1 ≤ nprocs }
    requires count { nprocs ≡ length (R.pushes all.now) }
    ensures { result ≡ are_alike (λ p q. length p == length q) (R.pushes all.now) }
{
    if all.has_no_pushes() {
        return true;
    }
    let first = all.pushes(0).len();
    for pid in 1..nprocs {
        if first != all.pushes(pid).len() {
            return false;
        }
    }
    true
}

fn pushed<R: Registers>(
    alloc: Global,
    all: &R,
    nprocs: usize,
    k: usize,
) -> Result<Slot, OutOfMemory>
    requires count { nprocs ≡ length (R.pushes all.now) }
    requires each { All (λ pushed. k < length pushed) (R.pushes all.now) }
    ensures { IfOk result (λ areas. areas ≡ pushed_slot (R.pushes all.now) k) }
{
    let mut areas = Seq::new(alloc);
    for pid in 0..nprocs {
        areas.push(all.pushes(pid)[k])?;
    }
    areas.share()
}

impl Table {
    /// The first of S3 `PopMismatch`, S4 `PushMismatch` and S5 `TooManySlots` that holds. It takes no memory.
    pub fn fault<R: Registers>(&self, all: &R) -> Option<SyncFault>
        requires some { 1 ≤ length (R.pops all.now) }
        requires slots { All (AreSlots self.now) (R.pops all.now) }
        ensures { result ≡ table_fault self.now (R.pops all.now) (R.pushes all.now) }
    {
        let nprocs = all.count();
        if !is_same_pops(all, nprocs) {
            return Some(SyncFault::PopMismatch);
        }
        if !is_same_count(all, nprocs) {
            return Some(SyncFault::PushMismatch);
        }
        let kept = self.len() - all.pops(0).len();
        if kept.saturating_add(all.pushes(0).len()) > MOST_SLOTS {
            return Some(SyncFault::TooManySlots);
        }
        None
    }

    fn kept(&self, popped: &[usize]) -> Result<Seq<Slot>, OutOfMemory>
        ensures { IfOk result (λ slots. slots ≡ kept_slots self.now (popped.now ∷ [])) }
    {
        let slots = self.slots.as_slice();
        let mut kept = Seq::new(self.alloc);
        for slot in 0..slots.len() {
            if !popped.contains(&slot) {
                kept.push(slots[slot].copy()?)?;
            }
        }
        Ok(kept)
    }

    /// The table after a superstep whose end has no fault: the slots that are not popped, and one for the `k`-th pushes of all processes, for each `k`
    /// (Hill et al. 1998). Pops are resolved against this table, so a pop never removes a push of its own superstep (this profile). Or `OutOfMemory`.
    pub fn next<R: Registers>(&self, all: &R) -> Result<Table, OutOfMemory>
        requires some { 1 ≤ length (R.pops all.now) }
        requires faultless { table_fault self.now (R.pops all.now) (R.pushes all.now) ≡ None }
        ensures { IfOk result (λ t. t ≡ next_table self.now (R.pops all.now) (R.pushes all.now)) }
    {
        if all.has_no_pops() && all.has_no_pushes() {
            return self.copy();
        }
        let nprocs = all.count();
        let mut slots = self.kept(all.pops(0))?;
        for k in 0..all.pushes(0).len() {
            slots.push(pushed(self.alloc, all, nprocs, k)?)?;
        }
        Ok(Table {
            alloc: self.alloc,
            slots: slots.share()?,
        })
    }

    /// The table after a superstep whose end may have a fault: `fault` and `next` in one call.
    ///
    /// # Errors
    /// The first of S3 `PopMismatch`, S4 `PushMismatch` and S5 `TooManySlots` that holds, before any memory is taken; then `OutOfMemory`.
    pub fn synced<R: Registers>(&self, all: &R) -> Result<Table, TableFault>
        requires some { 1 ≤ length (R.pops all.now) }
        requires few { length (R.pops all.now) ≤ MOST_PROCESSES }
        requires full { AreFull (length (R.pops all.now)) self.now }
        requires slots { All (AreSlots self.now) (R.pops all.now) }
        ensures next { IfOk result (λ t. t ≡ next_table self.now (R.pops all.now) (R.pushes all.now)) }
        ensures ok { OnOk result (table_fault self.now (R.pops all.now) (R.pushes all.now) ≡ None) }
        ensures fault { IfErr result (λ e. table_fault self.now (R.pops all.now) (R.pushes all.now) ≡ sync_fault_of e) }

        // What callers keep of their tables.
        ensures full_after { IfOk result (AreFull (length (R.pops all.now))) }
        ensures few_after { IfOk result (λ t. length t ≤ MOST_SLOTS) }
        ensures inside { (sizes : List ℕ) → AreSlotsInside sizes self.now → ArePushesInside sizes (R.pushes all.now)
            → IfOk result (AreSlotsInside sizes) }
        ensures within { (bound : ℕ) → AreSlotsWithin bound self.now → All (AreWithin bound) (R.pushes all.now)
            → IfOk result (AreSlotsWithin bound) }
    {
        if let Some(fault) = self.fault(all) {
            return Err(TableFault::Sync(fault));
        }
        // That pops and pushes are of as many processes is known where these are counted.
        let _nprocs = all.count();
        Ok(self.next(all)?)
    }
}
