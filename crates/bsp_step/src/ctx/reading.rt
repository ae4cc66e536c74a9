//! The reading calls of a context. They take no memory and never fault. What they promise holds in the whole turn, since no act changes the
//! view or the length of the memory.

ghost use Rattle.std.specs.Prelude.{◌≡◌, ◌≤◌, ◌<◌, ◌-◌, ◌↔◌, length, slice_get, IsSome};

use crate::Ctx;
use bsp_model::Workspace;
use bsp_model::limits::{
    MOST_ARGUMENTS, MOST_MEMORY_WORDS, MOST_PROCESSES, MOST_SUPERSTEPS, MOST_TAG_WORDS,
};

impl<'v> Ctx<'v> {
    /// The number of processes, 1 to `MOST_PROCESSES` (`bsp_nprocs`).
    pub fn nprocs(&self) -> u64
        ensures count { result ≡ self.now.view.nprocs }
        ensures some { 1 ≤ result }
        ensures few { result ≤ MOST_PROCESSES }
    {
        let view = self.view;
        view.nprocs
    }

    /// The own number, below the number of processes (`bsp_pid`).
    pub fn pid(&self) -> u64
        ensures number { result ≡ self.now.view.pid }
        ensures below { result < self.now.view.nprocs }
        ensures few { self.now.view.nprocs ≤ MOST_PROCESSES }
    {
        let view = self.view;
        view.pid
    }

    /// The number of the superstep, from 0, at most `MOST_SUPERSTEPS`.
    pub fn step(&self) -> u64
        ensures number { result ≡ self.now.view.step }
        ensures few { result ≤ MOST_SUPERSTEPS }
    {
        let view = self.view;
        view.step
    }

    /// The own argument with this index, if there is one. There are at most `MOST_ARGUMENTS`.
    pub fn arg(&self, index: u64) -> Option<u64>
        ensures value { result ≡ slice_get self.now.view.args index }
        ensures within { IsSome result ↔ (index < length self.now.view.args) }
        ensures few { length self.now.view.args ≤ MOST_ARGUMENTS }
    {
        let view = self.view;
        view.args.get(index as usize).copied()
    }

    /// The number of 64-bit words of the own memory: at most `MOST_MEMORY_WORDS`, and the same in each superstep.
    pub fn memory_len(&self) -> u64
        ensures len { result ≡ length self.now.memory }
        ensures same { result ≡ length self.now.view.memory }
        ensures short { result ≤ MOST_MEMORY_WORDS }
    {
        let view = self.view;
        view.memory.len() as u64
    }

    /// The word at `address` of the own memory as it is now, if there is one: exactly below `memory_len`.
    pub fn load(&self, address: u64) -> Option<u64>
        ensures value { result ≡ slice_get self.now.memory address }
        ensures within { IsSome result ↔ (address < length self.now.memory) }
        ensures short { length self.now.memory ≤ MOST_MEMORY_WORDS }
    {
        let view = self.view;
        let workspace: &Workspace = &self.workspace;
        workspace.word_at(&view.memory, address)
    }

    /// How many words of the own memory from `address` on lie in one piece, at least one where there is any. It is for speed: no act should depend on it.
    pub fn piece_len(&self, address: u64) -> u64
        ensures some { address < length self.now.memory → 0 < result }
        ensures inside { result ≤ length self.now.memory - address }
    {
        self.memory().piece_len(address) as u64
    }

    /// The tag size in force in this superstep: at most `MOST_TAG_WORDS` words.
    pub fn tag_size(&self) -> u64
        ensures size { result ≡ self.now.view.tag_size }
        ensures small { result ≤ MOST_TAG_WORDS }
    {
        let view = self.view;
        view.tag_size
    }
}
