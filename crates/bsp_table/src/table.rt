//! The registration table, and what it says of a local address.

ghost use Rattle.std.specs.Prelude.{◌≡◌, ◌≤◌, ◌<◌, Some, [], length, slice_get, IsSome, IfOk};
ghost use Rattle.bsp_table.specs.Table.{newest, newest_under, area_at, is_slot_named};

use crate::Area;
use bsp_model::limits::MOST_PROCESSES;
use bsp_model::{OutOfMemory, Same, SharedSeq, TryCopy};
use std::alloc::Global;
use std::marker::Model;

/// A registration that all processes made together: one area for each process.
pub type Slot = SharedSeq<Area>;

/// The registration table: slots, oldest first (Hill et al. 1998). A run keeps at most `MOST_SLOTS` of them. Its copies share them.
#[derive(Drop)]
pub struct Table {
    pub(crate) alloc: Global,
    pub(crate) slots: SharedSeq<Slot>,
}

impl Model for Table {
    ghost use Rattle.std.specs.Prelude.{List};
    ghost use Rattle.bsp_table.specs.declared.area.Area.{Area};

    ghost Value = { List (List Area) };

    ghost view = { λ t. t.slots };
}

impl Table {
    /// The table without slots, for 1 to `MOST_PROCESSES` processes.
    pub fn new(alloc: Global, _nprocs: usize) -> Result<Table, OutOfMemory>
        requires some { 1 ≤ _nprocs }
        requires few { _nprocs ≤ MOST_PROCESSES }
        ensures { IfOk result (λ t. t ≡ []) }
    {
        Ok(Table {
            alloc,
            slots: SharedSeq::new(),
        })
    }

    /// The number of slots.
    pub fn len(&self) -> usize
        ensures { result ≡ length self.now }
    {
        self.slots.len()
    }

    /// The newest slot whose area for process `pid` starts at `start`. It takes no memory.
    pub fn find(&self, pid: u64, start: u64) -> Option<usize>
        ensures { result ≡ newest self.now pid start }
    {
        self.find_under(pid, start, &[])
    }

    /// The newest slot whose area for process `pid` starts at `start`, where the slots in `popped` do not count. It takes no memory.
    pub fn find_under(&self, pid: u64, start: u64, popped: &[usize]) -> Option<usize>
        ensures { result ≡ newest_under self.now pid start popped.now }
    {
        for slot in (0..self.len()).rev() {
            if self.is_named(slot, pid, start, popped) {
                return Some(slot);
            }
        }
        None
    }

    fn is_named(&self, slot: usize, pid: u64, start: u64, popped: &[usize]) -> bool
        ensures { result ≡ is_slot_named self.now slot pid start popped.now }
    {
        let starts = match self.slots.as_slice().get(slot) {
            Some(areas) => match areas.as_slice().get(pid as usize) {
                Some(area) => area.start == start,
                None => false,
            },
            None => false,
        };
        starts && !popped.contains(&slot)
    }

    /// The area of process `pid` in a slot, where both exist. It takes no memory.
    pub fn area(&self, slot: usize, pid: u64) -> Area
        requires { IsSome (area_at self.now (Some slot) pid) }
        ensures { area_at self.now (Some slot) pid ≡ Some result }
    {
        let areas = &self.slots.as_slice()[slot];
        areas.as_slice()[pid as usize]
    }
}

impl TryCopy for Table {
    fn copy(&self) -> Result<Table, OutOfMemory> {
        Ok(Table {
            alloc: self.alloc,
            slots: self.slots.copy()?,
        })
    }
}

impl Same for Table {
    fn same(&self, other: &Table) -> bool {
        self.slots.same(&other.slots)
    }
}
