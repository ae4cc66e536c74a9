//! What the turns of several processes leave.

ghost use Rattle.std.specs.Prelude.{◌≡◌, ◌<◌, [], All, IfOk, length, nat_eq};
ghost use Rattle.std.specs.Bool.{OnTrue};
ghost use Rattle.bsp_model.specs.Replaced.{replaced, IsAscending};
ghost use Rattle.bsp_step.specs.OutcomeParts.{IsOutcome, outcome_of};
ghost use Rattle.bsp_step.specs.ListKind.{IsWithout};

mod putting;
mod room;

use crate::{ListKind, OutcomeRef, OutcomeRows};
use bsp_model::{
    Get, Layered, MemoryRef, OutOfMemory, PrintedLinesRef, PutsRef, SendsRef, TryCopy,
};
use bsp_table::{Area, Registers};
use std::alloc::Global;
use std::marker::Model;

/// The outcomes of the turns of several processes, by process. They stay as they are. Copies share them, and take no memory.
pub struct Outcomes {
    /// None where there is no process.
    rows: Option<Layered<OutcomeRows>>,
}

// docs/DECISIONS.md says why it has a drop of its own.
impl Drop for Outcomes {
    fn drop(self) {
        let Self { rows } = self;
    }
}

impl Model for Outcomes {
    ghost use Rattle.std.specs.Prelude.{List};
    ghost use Rattle.bsp_step.specs.OutcomeParts.{OutcomeParts};
    ghost use Rattle.bsp_step.specs.Inside.Rows.{rows_of};

    ghost Value = { List OutcomeParts };

    ghost view = { λ o. rows_of o.rows };
}

impl Outcomes {
    /// No outcomes, which take no memory.
    pub fn new() -> Outcomes
        ensures { result ≡ [] }
    {
        Outcomes { rows: None }
    }

    /// The number of processes.
    #[inline(always)]
    pub fn len(&self) -> usize
        ensures { result ≡ length self.now }
    {
        match &self.rows {
            Some(rows) => rows.len(),
            None => 0,
        }
    }

    /// The rows of the outcomes of some process.
    #[inline(always)]
    fn there(&self) -> &Layered<OutcomeRows>
        requires { 0 < length self.now }
        ensures { result.now ≡ self.now }
    {
        self.rows.as_ref().unwrap()
    }

    /// Whether there is no process.
    pub fn is_empty(&self) -> bool
        ensures { result ≡ nat_eq (length self.now) 0 }
    {
        self.len() == 0
    }

    /// What the turn of a process left.
    #[inline(always)]
    pub fn get(&self, pid: usize) -> OutcomeRef<'_>
        requires { pid < length self.now }
        ensures { result ≡ outcome_of self.now pid }
    {
        let (rows, place) = self.there().find(pid);
        rows.get(place)
    }

    /// The memory that the turn of a process left.
    #[inline(always)]
    pub fn memory(&self, pid: usize) -> MemoryRef<'_>
        requires { pid < length self.now }
        ensures { result ≡ (outcome_of self.now pid).memory }
    {
        self.get(pid).memory
    }

    /// The puts that the turn of a process left.
    #[inline(always)]
    pub fn puts(&self, pid: usize) -> PutsRef<'_>
        requires { pid < length self.now }
        ensures { result ≡ (outcome_of self.now pid).puts }
    {
        self.get(pid).puts
    }

    /// The gets that the turn of a process left.
    #[inline(always)]
    pub fn gets(&self, pid: usize) -> &[Get]
        requires { pid < length self.now }
        ensures { result.now ≡ (outcome_of self.now pid).gets }
    {
        self.get(pid).gets
    }

    /// The messages that the turn of a process left.
    #[inline(always)]
    pub fn sends(&self, pid: usize) -> SendsRef<'_>
        requires { pid < length self.now }
        ensures sends { result ≡ (outcome_of self.now pid).sends }
        ensures limits { IsOutcome (outcome_of self.now pid) }
    {
        self.get(pid).sends
    }

    /// Whether no list of a kind stands. Then no turn left any. One that only once stood may be said to stand.
    #[inline(always)]
    pub fn is_without(&self, kind: ListKind) -> bool
        ensures { OnTrue result (All (IsWithout kind) self.now) }
    {
        let Some(rows) = &self.rows else {
            return true;
        };
        let (base, apart) = rows.layers();
        match apart {
            Some(apart) => apart.items.is_without(kind) && base.is_without(kind),
            None => base.is_without(kind),
        }
    }

    /// The lines that the turn of a process printed.
    #[inline(always)]
    pub fn lines(&self, pid: usize) -> PrintedLinesRef<'_>
        requires { pid < length self.now }
        ensures { result ≡ (outcome_of self.now pid).lines }
    {
        self.get(pid).lines
    }

    /// These outcomes, but for new ones of some processes, which are in ascending order. Where they are few they lie apart, and the rest is shared.
    pub fn replaced(
        &self,
        alloc: Global,
        processes: Vec<usize>,
        new: OutcomeRows,
    ) -> Result<Outcomes, OutOfMemory>
        requires known { All (λ p. p < length self.now) processes.items }
        requires ascending { IsAscending processes.items }
        requires count { length new ≡ length processes.items }
        ensures { IfOk result (λ o. o ≡ replaced self.now processes.items new) }
    {
        match &self.rows {
            Some(rows) => Ok(Outcomes {
                rows: Some(rows.replaced(alloc, processes, new)?),
            }),
            None => Ok(Outcomes::new()),
        }
    }
}

impl OutcomeRows {
    /// These outcomes, which stay as they are, or `OutOfMemory`.
    pub fn share(self) -> Result<Outcomes, OutOfMemory>
        ensures { IfOk result (λ o. o ≡ self) }
    {
        let alloc = *self.ends.allocator();
        Ok(Outcomes {
            rows: Some(Layered::new(alloc, self)?),
        })
    }
}

impl TryCopy for Outcomes {
    fn copy(&self) -> Result<Outcomes, OutOfMemory> {
        match &self.rows {
            Some(rows) => Ok(Outcomes {
                rows: Some(rows.copy()?),
            }),
            None => Ok(Outcomes::new()),
        }
    }
}

impl Registers for Outcomes {
    ghost use Rattle.std.specs.Prelude.{map};

    ghost pops = { λ os. map (λ o. o.pops) os };

    ghost pushes = { λ os. map (λ o. o.pushes) os };

    fn count(&self) -> usize {
        self.len()
    }

    fn pops(&self, pid: usize) -> &[usize] {
        self.get(pid).pops
    }

    fn pushes(&self, pid: usize) -> &[Area] {
        self.get(pid).pushes
    }

    fn has_no_pops(&self) -> bool {
        self.is_without(ListKind::Pops)
    }

    fn has_no_pushes(&self) -> bool {
        self.is_without(ListKind::Pushes)
    }
}
