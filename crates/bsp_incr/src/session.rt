//! Sessions.

mod replies;
mod whole;

use crate::edit::{are_there, refusal_of};
use crate::rerun::{recorded_run, rerun_edited};
use crate::{Edit, EditError, EditRefusal, Update};
use bsp_crew::Workers;
use bsp_gate::Gate;
use bsp_model::limits::MOST_WORKERS;
use bsp_model::{Input, OutOfMemory};
use bsp_run::{History, RunError};
use bsp_step::Program;
pub use replies::scratch_run_behind;
use std::alloc::Global;
use std::marker::Model;
use std::thread::Threads;
pub use whole::{scratch_run, session_run};

/// A program, an input, and the history of the program's run on that input.
#[derive(Drop)]
pub struct Session<P: Program> {
    program: P,
    input: Input,
    history: History,
}

impl<P: Program> Model for Session<P> {
    ghost use Rattle.bsp_step.specs.Turn.{turn_of};
    ghost use Rattle.bsp_incr.specs.Replies.{SessionParts, IsSession};

    ghost Value = { SessionParts P };

    ghost view = { λ s. record { program = s.program; input = s.input; history = s.history } };

    ghost invariant = { λ s. IsSession (turn_of (P.acts s.program) (P.ending s.program)) s.input s.history };
}

impl<P: Program + Drop> Session<P> {
    ghost use Rattle.std.specs.Prelude.{◌≡◌, ◌<◌, ◌≤◌, IfOk, IfErr, OnOk, OnErr, None, Some, unwrap_or};
    ghost use Rattle.bsp_model.specs.Input.{input_fault};
    ghost use Rattle.bsp_step.specs.Turn.{turn_of};
    ghost use Rattle.bsp_run.specs.Law.{IsBspRun};
    ghost use Rattle.bsp_run.specs.RunErrors.{input_fault_of};
    ghost use Rattle.bsp_incr.specs.Edits.{refusal_of, edited};
    ghost use Rattle.bsp_incr.specs.Exact.{IsExact};
    ghost use Rattle.bsp_incr.specs.Replies.{refusal_in};

    /// A session with the run of the input, whose turns and deliveries are shared by 1 to `MOST_WORKERS` workers. The update has every process of every
    /// superstep, and every delivery. `Input(f)` exactly where the input's check answers f, or `OutOfMemory`.
    pub fn open<R: Threads + Sync, G: Gate>(
        rt: &R,
        alloc: Global,
        program: P,
        input: Input,
        workers: usize,
        gate: &G,
    ) -> Result<(Session<P>, Update), RunError>
        requires workers { (0 < workers) × (workers ≤ MOST_WORKERS) }
        ensures program { IfOk result (λ r. r.0.program ≡ program) }
        ensures given { IfOk result (λ r. r.0.input ≡ input) }
        ensures law { IfOk result (λ r. IsBspRun (turn_of (P.acts program) (P.ending program)) input r.0.history) }
        ensures exact { IfOk result (λ r. IsExact (P.looks program) None r.0.history r.1) }
        ensures lawful { OnOk result (input_fault input ≡ None) }
        ensures input { IfErr result (λ e. input_fault input ≡ input_fault_of e) }
    {
        if let Err(fault) = input.check() {
            return Err(RunError::Input(fault));
        }
        let workers = Workers::new(rt, alloc, workers, gate);
        Ok(Session::open_lawful(&workers, program, input)?)
    }

    /// A session on an input that is known to be lawful, opened as by `open`. Or `OutOfMemory`.
    pub fn open_lawful<R: Threads + Sync, G: Gate>(
        workers: &Workers<'_, R, G>,
        program: P,
        input: Input,
    ) -> Result<(Session<P>, Update), OutOfMemory>
        requires lawful { input_fault input ≡ None }
        ensures program { IfOk result (λ r. r.0.program ≡ program) }
        ensures given { IfOk result (λ r. r.0.input ≡ input) }
        ensures law { IfOk result (λ r. IsBspRun (turn_of (P.acts program) (P.ending program)) input r.0.history) }
        ensures exact { IfOk result (λ r. IsExact (P.looks program) None r.0.history r.1) }
    {
        let (history, update) = recorded_run(workers, &program, &input)?;
        let session = Session {
            program,
            input,
            history,
        };
        Ok((session, update))
    }

    /// The program.
    pub fn program(&self) -> &P
        ensures { result.now ≡ self.now.program }
    {
        &self.program
    }

    /// The input, in which there is no fault.
    pub fn input(&self) -> &Input
        ensures input { result.now ≡ self.now.input }
        ensures lawful { input_fault self.now.input ≡ None }
    {
        &self.input
    }

    /// The history, which is the run of the input.
    pub fn history(&self) -> &History
        ensures history { result.now ≡ self.now.history }
        ensures law { IsBspRun (turn_of (P.acts self.now.program) (P.ending self.now.program))
            self.now.input result.now }
    {
        &self.history
    }

    /// The first edit of a batch that is refused, or `None` where the batch is accepted. It takes no memory.
    pub fn refusal(&self, edits: &[Edit]) -> Option<EditRefusal>
        ensures { result ≡ refusal_of self.now.input edits.now }
    {
        refusal_of(&self.input, edits)
    }

    /// Applies a batch of edits, and makes the run again as far as it has changed: 1 to `MOST_WORKERS` workers take the turns and make the deliveries that have
    /// to be. `Refused` exactly where the batch is not accepted, with the first refused edit's place and fault; else `Ok` or `OutOfMemory`.
    /// After every `Err` nothing has changed.
    pub fn apply<R: Threads + Sync, G: Gate>(
        &mut self,
        rt: &R,
        alloc: Global,
        edits: &[Edit],
        workers: usize,
        gate: &G,
    ) -> Result<Update, EditError>
        requires workers { (0 < workers) × (workers ≤ MOST_WORKERS) }
        ensures accepted { OnOk result (refusal_of self.old.input edits.now ≡ None) }
        ensures refused { IfErr result (λ e. refusal_of self.old.input edits.now ≡ refusal_in e) }
        ensures program { self.new.program ≡ self.old.program }
        ensures given { OnOk result (self.new.input ≡ edited self.old.input edits.now) }
        ensures law { OnOk result (IsBspRun (turn_of (P.acts self.old.program) (P.ending self.old.program))
            self.new.input self.new.history) }
        ensures exact { IfOk result (λ u. IsExact (P.looks self.old.program)
            (Some self.old.history) self.new.history u) }
        ensures err { OnErr result (self.new ≡ self.old) }
    {
        if let Some(refusal) = self.refusal(edits) {
            return Err(EditError::Refused(refusal));
        }
        let workers = Workers::new(rt, alloc, workers, gate);
        let mut before = None;
        let applied = self.apply_accepted(&workers, edits, &mut before);
        drop(before);
        Ok(applied?)
    }

    /// Applies a batch that is accepted, as `apply` does, and hands out the history that the batch replaced: `before` is `None` where the batch left
    /// the history as it was. A history that stood there, as an earlier batch replaced it, is used up: its lists serve as room. After `OutOfMemory` the
    /// session has not changed, and `before` is `None`.
    pub fn apply_accepted<R: Threads + Sync, G: Gate>(
        &mut self,
        workers: &Workers<'_, R, G>,
        edits: &[Edit],
        before: &mut Option<History>,
    ) -> Result<Update, OutOfMemory>
        requires accepted { refusal_of self.old.input edits.now ≡ None }
        ensures program { self.new.program ≡ self.old.program }
        ensures given { OnOk result (self.new.input ≡ edited self.old.input edits.now) }
        ensures law { OnOk result (IsBspRun (turn_of (P.acts self.old.program) (P.ending self.old.program))
            self.new.input self.new.history) }
        ensures exact { IfOk result (λ u. IsExact (P.looks self.old.program)
            (Some self.old.history) self.new.history u) }
        ensures before { OnOk result (unwrap_or before.new self.new.history ≡ self.old.history) }
        ensures err { OnErr result (self.new ≡ self.old) }
        ensures err_before { OnErr result (before.new ≡ None) }
    {
        if are_there(&self.input, edits) {
            drop(before.take());
            return Ok(Update::none(workers.alloc));
        }
        let update = rerun_edited(
            workers,
            &self.program,
            &mut self.history,
            before,
            &mut self.input,
            edits,
        )?;
        Ok(update)
    }
}
