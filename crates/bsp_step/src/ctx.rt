//! The context of a turn.

ghost use Rattle.std.specs.Prelude.{◌≡◌, ◌≤◌, IfOk, Err, Some, length};
ghost use Rattle.bsp_step.specs.Context.{fresh};
ghost use Rattle.bsp_step.specs.Perform.{count_of_requests, request_fault};
ghost use Rattle.bsp_step.specs.Inside.Checks.{Passes};
ghost use Rattle.bsp_step.specs.Inside.Turned.{outcome_left};
ghost use Rattle.bsp_step.specs.OutcomeParts.{IsOutcome, IsOutcomeOf};
ghost use Rattle.bsp_step.specs.Turn.{closed};

mod local;
mod messages;
mod reading;
mod remote;

use crate::outcome::Turned;
use crate::outcome_rows::OpenRows;
use crate::{Ended, Gathering, Outcome, Stop, View};
use bsp_model::limits::{MOST_MEMORY_WORDS, MOST_REQUESTS};
use bsp_model::{End, Fault, MemoryRef, OutOfMemory, Workspace};
use std::alloc::Global;
use std::marker::Model;

/// The state of a turn. After a fault every acting call answers that fault, takes no memory and does nothing; reading calls answer as before.
#[derive(Drop)]
pub struct Ctx<'v> {
    view: &'v View<'v>,
    alloc: Global,
    taken: usize,
    workspace: Box<Workspace>,
    rows: Box<OpenRows>,
    tag: Option<u64>,
    work: u64,
    fault: Option<Fault>,
}

impl<'v> Model for Ctx<'v> {
    ghost use Rattle.bsp_step.specs.Context.{Context};

    ghost Value = { Context };

    ghost use Rattle.bsp_step.specs.CtxInside.{context_of, IsLawful};

    ghost view = { context_of };

    ghost invariant = { IsLawful };
}

impl<'v> Ctx<'v> {
    /// The context in which the turn of a view begins, or `OutOfMemory`.
    pub fn open(alloc: Global, view: &'v View<'v>) -> Result<Ctx<'v>, OutOfMemory>
        ensures { IfOk result (λ c. c ≡ fresh view.now) }
    {
        Ctx::open_behind(alloc, view, Gathering::new(alloc)?)
    }

    /// The context in which the turn of a view begins, behind the outcomes of earlier turns. Or `OutOfMemory`.
    #[inline(always)]
    pub(crate) fn open_behind(
        alloc: Global,
        view: &'v View<'v>,
        gathering: Gathering,
    ) -> Result<Ctx<'v>, OutOfMemory>
        ensures { IfOk result (λ c. c ≡ record (fresh view.now) { earlier = gathering }) }
    {
        let Gathering {
            rows,
            mut workspace,
        } = gathering;
        workspace.begin(&view.memory)?;
        Ok(Ctx {
            view,
            alloc,
            taken: 0,
            workspace,
            rows,
            tag: None,
            work: 0,
            fault: None,
        })
    }

    /// The words of the own memory.
    #[inline(always)]
    fn memory(&self) -> MemoryRef<'_>
        ensures words { result ≡ self.now.memory }
        ensures short { length self.now.memory ≤ MOST_MEMORY_WORDS }
    {
        let view = self.view;
        let workspace: &Workspace = &self.workspace;
        workspace.memory(&view.memory)
    }

    fn refuse<T>(&mut self, fault: Fault) -> Result<T, Stop>
        ensures kept { self.new ≡ record self.old { fault = Some fault } }
        ensures answer { result ≡ Err (Stop.Fault fault) }
    {
        self.fault = Some(fault);
        Err(Stop::Fault(fault))
    }

    fn count_of_requests(&self) -> usize
        ensures { result ≡ count_of_requests self.now }
    {
        self.rows.count_of_requests()
    }

    fn begin_request(&mut self) -> Result<(), Stop>
        ensures { Passes self.old (request_fault self.old) self.new result }
    {
        if let Some(fault) = self.fault {
            return Err(Stop::Fault(fault));
        }
        if self.count_of_requests() >= MOST_REQUESTS {
            return self.refuse(Fault::TooManyRequests);
        }
        Ok(())
    }

    /// What the turn leaves behind the outcomes of earlier turns, where its step answered `how`.
    #[inline(always)]
    pub(crate) fn turned(mut self, how: End) -> Turned
        ensures closed { outcome_left result ≡ closed self.entry how }
        ensures earlier { result.rows.value.earlier ≡ self.entry.earlier }
        ensures limits { IsOutcome (outcome_left result) }
        ensures issued { IsOutcomeOf self.entry.view (outcome_left result) }
    {
        let view = self.view;
        self.workspace.load(&view.memory);
        let fault = match (self.fault, how) {
            (Some(fault), _) => Some(fault),
            (None, End::Abort(code)) => Some(Fault::Abort(code)),
            (None, _) => None,
        };
        let ended = match (fault, how) {
            (None, End::Sync) => Ended::Sync,
            _ => Ended::Halt,
        };
        Turned {
            fault,
            ended,
            workspace: self.workspace,
            rows: self.rows,
            tag: self.tag,
            work: self.work,
        }
    }

    /// What the turn leaves, where its step answered `how`. It takes no memory.
    pub fn close(self, how: End) -> Outcome
        ensures closed { result ≡ closed self.entry how }
        ensures limits { IsOutcome result }
        ensures issued { IsOutcomeOf self.entry.view result }
    {
        Outcome {
            turned: self.turned(how),
        }
    }
}
