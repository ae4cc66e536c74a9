//! Outcomes that are being gathered, and behind them the lists of the turn that is under way.

ghost use Rattle.std.specs.Prelude.{◌≡◌, ◌<◌, ◌++◌, ◌∷◌, [], IfOk, OnErr, OnOk};
ghost use Rattle.bsp_step.specs.OutcomeParts.{IsOutcome};
ghost use Rattle.bsp_step.specs.Inside.Gathered.{begun, count_of_issued, outcome_by, IsStored};

use super::OutcomeRows;
use crate::lists::TurnEnd;
use crate::open_lists::OpenLists;
use bsp_model::limits::MOST_REQUESTS;
use bsp_model::{Fault, Get, Memories, OutOfMemory, PrintedLinesRef, PutsRef, SendsRef, Workspace};
use bsp_table::Area;
use std::alloc::Global;
use std::marker::Model;
use std::mem;

/// What the turns of several processes left, and in a row behind theirs what the turn under way has issued so far. An act adds to that row, and what
/// it adds stays there.
pub(crate) struct OpenRows {
    ends: Vec<TurnEnd>,
    memories: Memories,
    lists: OpenLists,
    /// The number of requests that the turn under way has issued.
    requests: usize,
}

impl Drop for OpenRows {
    fn drop(self) {
        let Self {
            ends,
            memories,
            lists,
            requests,
        } = self;
    }
}

impl Model for OpenRows {
    ghost use Rattle.bsp_step.specs.Inside.Gathered.{Gathered, gathered_in, IsGathered};

    ghost Value = { Gathered };

    ghost view = { λ r. gathered_in r.ends.items r.memories r.lists };

    ghost invariant = { λ r. IsGathered r.ends.items r.memories r.lists r.requests };
}

impl OpenRows {
    /// A turn that has issued nothing, behind no outcomes. It takes no memory.
    pub fn new(alloc: Global) -> OpenRows
        ensures { result ≡ begun [] }
    {
        OpenRows {
            ends: Vec::new(alloc),
            memories: Memories::new(alloc),
            lists: OpenLists::new(alloc),
            requests: 0,
        }
    }

    /// Exchanges the outcomes of earlier turns with others, behind which a turn begins.
    pub fn swap(&mut self, rows: &mut OutcomeRows)
        ensures begun { self.new ≡ begun rows.old }
        ensures earlier { rows.new ≡ self.old.earlier }
    {
        mem::swap(&mut self.ends, &mut rows.ends);
        mem::swap(&mut self.memories, &mut rows.memories);
        self.lists.swap(&mut rows.lists, self.ends.len());
        self.requests = 0;
    }

    pub fn allocator(&self) -> Global {
        *self.ends.allocator()
    }

    #[inline(always)]
    pub fn count_of_requests(&self) -> usize
        ensures { result ≡ count_of_issued self.now }
    {
        self.requests
    }

    #[inline(always)]
    pub fn puts(&self) -> PutsRef<'_>
        ensures { result ≡ self.now.puts }
    {
        self.lists.puts.last()
    }

    pub fn gets(&self) -> &[Get]
        ensures { result.now ≡ self.now.gets }
    {
        self.lists.gets.as_slice()
    }

    pub fn sends(&self) -> SendsRef<'_>
        ensures { result ≡ self.now.sends }
    {
        self.lists.sends.last()
    }

    pub fn pops(&self) -> &[usize]
        ensures { result.now ≡ self.now.pops }
    {
        self.lists.pops.as_slice()
    }

    pub fn pushes(&self) -> &[Area]
        ensures { result.now ≡ self.now.pushes }
    {
        self.lists.pushes.as_slice()
    }

    pub fn lines(&self) -> PrintedLinesRef<'_>
        ensures { result ≡ self.now.lines }
    {
        self.lists.lines.last()
    }

    #[inline(always)]
    pub fn add_put(&mut self, target: u64, start: u64, words: &[u64]) -> Result<(), OutOfMemory>
        requires { count_of_issued self.old < MOST_REQUESTS }
        ensures ok { OnOk result (self.new ≡ record self.old {
          puts = self.old.puts ++ record { target = target; start = start; words = words.now } ∷ [];
        }) }
        ensures err { OnErr result (self.new ≡ self.old) }
    {
        self.lists.puts.add(target, start, words)?;
        self.requests += 1;
        Ok(())
    }

    #[inline(always)]
    pub fn add_get(&mut self, get: Get) -> Result<(), OutOfMemory>
        requires { count_of_issued self.old < MOST_REQUESTS }
        ensures ok { OnOk result (self.new ≡ record self.old { gets = self.old.gets ++ get ∷ [] }) }
        ensures err { OnErr result (self.new ≡ self.old) }
    {
        self.lists.gets.push(get)?;
        self.requests += 1;
        Ok(())
    }

    #[inline(always)]
    pub fn add_send(&mut self, target: u64, tag: &[u64], words: &[u64]) -> Result<(), OutOfMemory>
        requires { count_of_issued self.old < MOST_REQUESTS }
        ensures ok { OnOk result (self.new ≡ record self.old {
          sends = self.old.sends ++ record { target = target; tag = tag.now; words = words.now } ∷ [];
        }) }
        ensures err { OnErr result (self.new ≡ self.old) }
    {
        self.lists.sends.add(target, tag, words)?;
        self.requests += 1;
        Ok(())
    }

    pub fn add_pop(&mut self, slot: usize) -> Result<(), OutOfMemory>
        requires { count_of_issued self.old < MOST_REQUESTS }
        ensures ok { OnOk result (self.new ≡ record self.old { pops = self.old.pops ++ slot ∷ [] }) }
        ensures err { OnErr result (self.new ≡ self.old) }
    {
        self.lists.pops.push(slot)?;
        self.requests += 1;
        Ok(())
    }

    pub fn add_push(&mut self, area: Area) -> Result<(), OutOfMemory>
        requires { count_of_issued self.old < MOST_REQUESTS }
        ensures ok { OnOk result (self.new ≡ record self.old { pushes = self.old.pushes ++ area ∷ [] }) }
        ensures err { OnErr result (self.new ≡ self.old) }
    {
        self.lists.pushes.push(area)?;
        self.requests += 1;
        Ok(())
    }

    pub fn add_line(&mut self, words: &[u64]) -> Result<(), OutOfMemory>
        ensures ok { OnOk result (self.new ≡ record self.old { lines = self.old.lines ++ words.now ∷ [] }) }
        ensures err { OnErr result (self.new ≡ self.old) }
    {
        self.lists.lines.add(words)
    }

    /// Ends the turn, which leaves this memory and these stores, and begins the next turn behind it. After `OutOfMemory` what the turn has issued is gone.
    #[inline(always)]
    pub fn end_turn(
        &mut self,
        end: TurnEnd,
        fault: Option<Fault>,
        tag: Option<u64>,
        workspace: &mut Workspace,
    ) -> Result<(), OutOfMemory>
        requires limits { IsOutcome (outcome_by self.old end fault tag workspace.old.local) }
        requires stored { IsStored end.stored workspace.old.local }
        ensures { OnOk result (self.new
            ≡ begun (self.old.earlier ++ outcome_by self.old end fault tag workspace.old.local ∷ [])) }
    {
        let place = self.ends.len();
        let ended = self.lists.end_turn(
            place,
            self.requests,
            end.stored,
            fault,
            tag,
            &workspace.local,
        );
        self.requests = 0;
        if let Err(error) = ended.and(self.ends.reserve(1)) {
            self.lists.cut(place);
            return Err(error);
        }
        if let Err(error) = workspace.local.move_to(&mut self.memories) {
            self.lists.cut(place);
            return Err(error);
        }
        self.ends.push_reserved(end);
        Ok(())
    }

    /// A copy of what the turn under way has issued, behind no outcomes.
    pub fn copy_turn(&self) -> Result<OpenRows, OutOfMemory>
        ensures { IfOk result (λ rows. rows ≡ record self.now { earlier = [] }) }
    {
        let alloc = self.allocator();
        Ok(OpenRows {
            ends: Vec::new(alloc),
            memories: Memories::new(alloc),
            lists: self.lists.copy_turn(alloc)?,
            requests: self.requests,
        })
    }
}
