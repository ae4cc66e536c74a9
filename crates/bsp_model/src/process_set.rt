//! Sets of processes.

ghost use Rattle.std.specs.Prelude.{◌≡◌, ◌<◌, ◌≤◌, ◌^◌, ◌-◌, ◌↔◌, [], IsTrue, IfOk, IfSome, true, false, length, replicate, slice_get, slice_index_or, slice_set};
ghost use Rattle.std.specs.Iterator.{YieldsFirst, item_count};
ghost use Rattle.bsp_model.specs.ProcessSet.{processes_from, processes_in, union};

use crate::limits::MOST_PROCESSES;
use crate::{OutOfMemory, Same, numbers};
use std::alloc::Global;
use std::marker::Model;

/// A set of processes, of so many. There are at most `MOST_PROCESSES`, so a bit for each of them fits a word.
#[derive(Clone, Copy)]
pub struct ProcessSet {
    count: usize,
    bits: u64,
}

impl Model for ProcessSet {
    ghost use Rattle.std.specs.Prelude.{List, Bool, length};
    ghost use Rattle.bsp_model.specs.Inside.Bits.{set_of, word_of, AreBitsOf};
    ghost use Rattle.bsp_model.specs.Inside.WordsOfSets.{set_again};

    ghost Value = { List Bool };

    ghost view = { λ s. set_of s.count s.bits };

    ghost invariant = { λ s. AreBitsOf s.count s.bits };

    ghost inverse = { λ s. record { count = length s; bits = word_of s } };

    ghost inverse_ok = { λ s are. set_again (λ n w. record { count = n; bits = w }) s.count s.bits are };
}

fn ones(count: usize) -> u64
    requires { count ≤ MOST_PROCESSES }
    ensures { result ≡ 2 ^ count - 1 }
{
    if count < 64 {
        (1 << count) - 1
    } else {
        u64::MAX
    }
}

impl ProcessSet {
    /// The empty set of so many processes.
    pub fn none(count: usize) -> ProcessSet
        requires { count ≤ MOST_PROCESSES }
        ensures { result ≡ replicate count false }
    {
        ProcessSet { count, bits: 0 }
    }

    /// The set of all of so many processes.
    pub fn all(count: usize) -> ProcessSet
        requires { count ≤ MOST_PROCESSES }
        ensures { result ≡ replicate count true }
    {
        ProcessSet {
            count,
            bits: ones(count),
        }
    }

    /// Of how many processes it is a set.
    #[inline(always)]
    pub fn count(&self) -> usize
        ensures count { result ≡ length self.now }
        ensures few { result ≤ MOST_PROCESSES }
    {
        self.count
    }

    /// Whether a process is in the set.
    #[inline(always)]
    pub fn contains(&self, process: usize) -> bool
        ensures { result ≡ slice_index_or self.now process false }
    {
        if process >= self.count {
            return false;
        }
        (self.bits >> process) & 1 == 1
    }

    /// Puts a process into the set.
    #[inline(always)]
    pub fn insert(&mut self, process: usize)
        requires { process < length self.old }
        ensures { self.new ≡ slice_set self.old process true }
    {
        let bits = self.bits;
        self.bits = bits | (1 << process);
    }

    /// The processes that are in this set or in another one.
    pub fn union(&self, other: &ProcessSet) -> ProcessSet
        requires { length other.now ≡ length self.now }
        ensures { result ≡ union self.now other.now }
    {
        ProcessSet {
            count: self.count,
            bits: self.bits | other.bits,
        }
    }

    /// Whether no process is in the set.
    pub fn is_empty(&self) -> bool
        ensures { IsTrue result ↔ (processes_in self.now ≡ []) }
    {
        self.next(0).is_none()
    }

    #[inline(always)]
    fn next(&self, from: usize) -> Option<usize>
        ensures first { result ≡ slice_get (processes_from self.now from) 0 }
        ensures known { IfSome result (λ process. process < MOST_PROCESSES) }
    {
        if from >= self.count {
            return None;
        }
        let left = self.bits >> from;
        if left == 0 {
            return None;
        }
        Some(from + left.trailing_zeros() as usize)
    }

    /// The processes in the set, in ascending order.
    #[inline(always)]
    pub fn iter(&self) -> Members
        ensures { result ≡ processes_in self.now }
    {
        Members {
            set: *self,
            from: 0,
        }
    }

    /// The same as a list, or `OutOfMemory`.
    pub fn members(&self, alloc: Global) -> Result<Vec<usize>, OutOfMemory>
        ensures { IfOk result (λ members. members.items ≡ processes_in self.now) }
    {
        let mut members = Vec::with_capacity(alloc, self.bits.count_ones() as usize)?;
        if self.bits == ones(self.count) {
            members.extend_from_slice(numbers(self.count))?;
            return Ok(members);
        }
        for process in self.iter() {
            members.push(process)?;
        }
        Ok(members)
    }
}

impl Same for ProcessSet {
    fn same(&self, other: &ProcessSet) -> bool {
        self.count == other.count && self.bits == other.bits
    }
}

/// Goes over the processes in a set, in ascending order.
#[derive(Drop)]
pub struct Members {
    set: ProcessSet,
    from: usize,
}

impl Model for Members {
    ghost use Rattle.std.specs.Prelude.{List, ℕ};
    ghost use Rattle.bsp_model.specs.ProcessSet.{processes_from};

    ghost Value = { List ℕ };

    ghost view = { λ p. processes_from p.set p.from };
}

impl Iterator for Members {
    type Item = usize;

    ghost next_gives = { YieldsFirst (λ left. left) };

    ghost remaining = { item_count (λ left. left) };

    #[inline(always)]
    fn next(&mut self) -> Option<usize> {
        let process = self.set.next(self.from)?;
        self.from = process + 1;
        Some(process)
    }
}
