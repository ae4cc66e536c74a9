//! Open sessions, with the batches that take their batches back.

ghost use Rattle.std.specs.Prelude.{◌≡◌, IfOk, OnOk, None, unwrap_or};
ghost use Rattle.bsp_model.specs.Input.{input_fault};
ghost use Rattle.bsp_step.specs.Turn.{turn_of};
ghost use Rattle.bsp_run.specs.Run.{run};
ghost use Rattle.bsp_incr.specs.Edits.{refusal_of, edited};
ghost use Rattle.bsp_incr.specs.Inside.Changes.{update_of};
ghost use Rattle.bsp_engine.specs.Live.{opened, run_of};
ghost use Rattle.bsp_engine.specs.Untouched.{AreRunsAround};

use bsp_crew::Workers;
use bsp_gate::Gate;
use bsp_incr::{Batch, Edit, Session, Update};
use bsp_model::{Input, OutOfMemory};
use bsp_options::Detail;
use bsp_run::History;
use bsp_step::Program;
use std::collections::VecDeque;
use std::marker::Model;
use std::thread::Threads;

/// An open session.
#[derive(Drop)]
pub struct Live<P: Program> {
    pub(crate) session: Session<P>,
    pub(crate) detail: Detail,
    /// For each accepted batch that still stands the batch that takes it back, the newest first.
    pub(crate) undos: VecDeque<Batch>,
    /// The history that the last batch replaced, whose lists serve the next batch as room.
    pub(crate) replaced: Option<History>,
}

impl<P: Program> Model for Live<P> {
    ghost use Rattle.bsp_engine.specs.Live.{LiveParts};

    ghost Value = { LiveParts P };

    ghost view = { λ l. record {
      program = l.session.program;
      input = l.session.input;
      undos = l.undos.items;
      detail = l.detail;
    } };
}

impl<P: Program + Drop> Live<P> {
    pub fn input(&self) -> &Input
        ensures { result.now ≡ self.now.input }
    {
        self.session.input()
    }

    /// The history, which is the run of the input as it is now.
    pub fn history(&self) -> &History
        ensures { result.now ≡ run_of P.acts P.ending self.now }
    {
        // That the input is lawful is known where it is read.
        let _input = self.session.input();
        self.session.history()
    }
}

pub(crate) fn open<P: Program + Drop, R: Threads + Sync, G: Gate>(
    workers: &Workers<'_, R, G>,
    detail: Detail,
    program: P,
    input: Input,
) -> Result<(Live<P>, Update), OutOfMemory>
    requires lawful { input_fault input ≡ None }
    ensures live { IfOk result (λ r. r.0 ≡ opened detail program input) }
    ensures update { IfOk result (λ r. r.1 ≡ update_of (P.looks program) None (run (turn_of (P.acts program)
        (P.ending program)) input)) }
{
    let (session, update) = Session::open_lawful(workers, program, input)?;
    let live = Live {
        session,
        detail,
        undos: VecDeque::new(workers.alloc),
        replaced: None,
    };
    Ok((live, update))
}

/// Applies an accepted batch of edits. The history that it replaced, if it replaced one, goes to `before`. A history that stood there is used up.
pub(crate) fn apply<P: Program + Drop, R: Threads + Sync, G: Gate>(
    workers: &Workers<'_, R, G>,
    session: &mut Session<P>,
    batch: &[Edit],
    before: &mut Option<History>,
) -> Result<Update, OutOfMemory>
    requires accepted { refusal_of session.old.input batch.now ≡ None }
    ensures program { session.new.program ≡ session.old.program }
    ensures input { OnOk result (session.new.input ≡ edited session.old.input batch.now) }
    ensures runs { IfOk result (λ update. AreRunsAround
        (turn_of (P.acts session.old.program) (P.ending session.old.program)) (P.looks session.old.program)
        session.old.input batch.now update session.old.history session.new.history) }
    ensures before { OnOk result (unwrap_or before.new session.new.history ≡ session.old.history) }
{
    // That the input is lawful, and the history its run, is known where they are read.
    let _input = session.input();
    let _history = session.history();
    session.apply_accepted(workers, batch, before)
}
