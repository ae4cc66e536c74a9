//! The acts on other processes' memories and on the registration table.

ghost use Rattle.std.specs.Prelude.{◌≡◌, ◌<◌, ◌≤◌, ◌+◌, IfOk, IfSome};
ghost use Rattle.bsp_step.specs.Act as act;
ghost use Rattle.bsp_step.specs.Perform.{start_of, target_area};
ghost use Rattle.bsp_step.specs.Inside.Checks.{place_fault, Passes};
ghost use Rattle.bsp_step.specs.Calls.{Performs};

use crate::{Ctx, Stop};
use bsp_model::limits::MOST_MEMORY_WORDS;
use bsp_model::{Fault, Get};
use bsp_table::Area;

impl<'v> Ctx<'v> {
    fn target_area(&self, pid: u64, area: u64) -> Option<Area>
        requires { pid < self.now.view.nprocs }
        ensures found { result ≡ target_area self.now.view pid area }
        ensures inside { IfSome result (λ found. found.start + found.len ≤ MOST_MEMORY_WORDS) }
    {
        let view = self.view;
        let slot = view.table.find(view.pid, area)?;
        Some(view.table.area(slot, pid))
    }

    /// Where a request to `len` words of process `pid` starts, from `offset` of that area on: the checks of a put, and of a get but its last.
    #[inline(always)]
    pub(super) fn resolve(
        &mut self,
        pid: u64,
        area: u64,
        offset: u64,
        len: u64,
    ) -> Result<u64, Stop>
        ensures passes { Passes self.old (place_fault self.old pid area (offset + len)) self.new result }
        ensures start { IfOk result (λ start. start ≡ start_of (target_area self.old.view pid area) + offset) }
    {
        self.begin_request()?;
        if pid >= self.nprocs() {
            return self.refuse(Fault::BadPid(pid));
        }
        let Some(found) = self.target_area(pid, area) else {
            return self.refuse(Fault::NotRegistered(area));
        };
        if offset > found.len || len > found.len - offset {
            return self.refuse(Fault::OutOfArea);
        }
        Ok(found.start + offset)
    }

    /// Asks that the words be written to process `pid`, at `offset` of its area in the newest slot whose own area starts at `area` (`bsp_put`).
    /// They are copied now, and arrive at the end of the superstep.
    /// Faults, in order: F8 `TooManyRequests`; F2 `BadPid`; F3 `NotRegistered`; F4 `OutOfArea`.
    pub fn put(&mut self, pid: u64, words: &[u64], area: u64, offset: u64) -> Result<(), Stop>
        ensures { Performs self.old (act.put pid words.now area offset) self.new result }
    {
        let start = self.resolve(pid, area, offset, words.len() as u64)?;
        self.rows.add_put(pid, start, words)?;
        Ok(())
    }

    /// Asks for `len` words of process `pid`, from `offset` of its area in the newest slot whose own area starts at `area`, to be written
    /// to the own memory from `into` on (`bsp_get`). They are read after all computing and written at the end of the superstep.
    /// Faults, in order: those of `put`; F5 `BadLocal` where `into` plus `len` exceeds the own memory.
    pub fn get(&mut self, pid: u64, area: u64, offset: u64, into: u64, len: u64) -> Result<(), Stop>
        ensures { Performs self.old (act.get pid area offset into len) self.new result }
    {
        let start = self.resolve(pid, area, offset, len)?;
        let own = self.memory_len();
        if into > own || len > own - into {
            return self.refuse(Fault::BadLocal);
        }
        self.rows.add_get(Get {
            owner: pid,
            start,
            len,
            into,
        })?;
        Ok(())
    }

    /// Registers `len` words of the own memory from `start` on (`bsp_push_reg`). The k-th pushes of all processes form one slot at the end of the superstep.
    /// Faults, in order: F8 `TooManyRequests`; F5 `BadLocal` where `start` plus `len` exceeds the own memory.
    pub fn push_reg(&mut self, start: u64, len: u64) -> Result<(), Stop>
        ensures { Performs self.old (act.push_reg start len) self.new result }
    {
        self.begin_request()?;
        let words = self.memory_len();
        if start > words || len > words - start {
            return self.refuse(Fault::BadLocal);
        }
        self.rows.add_push(Area { start, len })?;
        Ok(())
    }

    /// Takes the newest slot whose own area starts at `start`, and that was not popped in this turn, out of the table at the end of the superstep
    /// (`bsp_pop_reg`). It never takes out what is pushed in the same superstep. Faults, in order: F8 `TooManyRequests`; F3 `NotRegistered`.
    pub fn pop_reg(&mut self, start: u64) -> Result<(), Stop>
        ensures { Performs self.old (act.pop_reg start) self.new result }
    {
        self.begin_request()?;
        let view = self.view;
        let popped = self.rows.pops();
        let Some(slot) = view.table.find_under(view.pid, start, popped) else {
            return self.refuse(Fault::NotRegistered(start));
        };
        self.rows.add_pop(slot)?;
        Ok(())
    }
}
