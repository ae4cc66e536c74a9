//! A run that is made again, against the record of the previous run.

ghost use Rattle.std.specs.Prelude.{◌≡◌, IfOk, OnOk, OnErr, None, Some, option_map};
ghost use Rattle.bsp_model.specs.Input.{input_fault};
ghost use Rattle.bsp_run.specs.Run.{run};
ghost use Rattle.bsp_run.specs.Law.{IsBspRun};
ghost use Rattle.bsp_incr.specs.Inside.Changes.{update_of};
ghost use Rattle.bsp_incr.specs.Edits.{refusal_of, edited};
ghost use Rattle.bsp_incr.specs.Inside.Before.{IsBefore};
ghost use Rattle.bsp_incr.specs.Inside.Marks.{AreArgsMarked, AreFirstMarked};
ghost use Rattle.bsp_run.specs.TurnBy.{turn_by};

mod finishing;
mod given;
mod opening;
mod remaking;
mod under_way;

use crate::compare::{Marks, all_marks, marks_of_edits};
use crate::edit::{make_edits, restore};
use crate::rerun::finishing::finished;
use crate::rerun::opening::opened;
use crate::rerun::remaking::{Remade, remake_all, remake_alone};
use crate::{Edit, Update};
use bsp_crew::Workers;
use bsp_gate::Gate;
use bsp_model::{Input, OutOfMemory};
use bsp_run::{Discarded, History};
use bsp_step::Program;
pub use given::Given;
use std::alloc::Global;
use std::mem::replace;
use std::thread::Threads;
pub use under_way::{Room, UnderWay};

/// The run of a program on a lawful input, made against the previous run, if there was one. Both runs are of one program and of as many processes.
/// A turn is taken only where the recorded turn does not serve. A delivery is made only where it depends on something else than in the previous run.
/// The lists of `discarded` serve as room.
fn rerun<P: Program, G: Gate, R: Threads + Sync>(
    workers: &Workers<'_, R, G>,
    program: &P,
    old: Option<&History>,
    input: &Input,
    marks: Marks,
    discarded: Discarded,
) -> Result<(History, Update), OutOfMemory>
    requires lawful { input_fault input.now ≡ None }
    requires args { AreArgsMarked (option_map (λ k. k.now) old) input.now marks.args }
    requires first { AreFirstMarked (option_map (λ k. k.now) old) input.now marks.first }
    requires before { IsBefore (turn_by P.Program program.now) input.now (option_map (λ k. k.now) old) }
    ensures run { IfOk result (λ r. r.0 ≡ run (turn_by P.Program program.now) input.now) }
    ensures update { IfOk result
        (λ r. r.1 ≡ update_of (P.looks program.now) (option_map (λ k. k.now) old.entry) r.0) }
{
    let Marks { args, first } = marks;
    let given = Given {
        alloc: workers.alloc,
        gate: workers.gate,
        program,
        input,
        old,
        other_args: &args,
    };
    let tape = opened(&given, &first)?;
    let Remade { tape, update } = remake_all(workers, given, tape, first, discarded)?;
    let history = finished(old, tape, input.mems.len(), update.executed.as_slice())?;
    Ok((history, update))
}

/// The run of a program on a lawful input, and what was done for it: every turn, and every delivery.
pub fn recorded_run<P: Program, G: Gate, R: Threads + Sync>(
    workers: &Workers<'_, R, G>,
    program: &P,
    input: &Input,
) -> Result<(History, Update), OutOfMemory>
    requires lawful { input_fault input.now ≡ None }
    ensures run { IfOk result (λ r. r.0 ≡ run (turn_by P.Program program.now) input.now) }
    ensures update { IfOk result (λ r. r.1 ≡ update_of (P.looks program.now) None r.0) }
{
    let discarded = Discarded::none(workers.alloc);
    rerun(workers, program, None, input, all_marks(input), discarded)
}

fn rerun_alone<P: Program, G: Gate>(
    alloc: Global,
    program: &P,
    old: Option<&History>,
    input: &Input,
    marks: Marks,
    gate: &G,
) -> Result<History, OutOfMemory>
    requires lawful { input_fault input.now ≡ None }
    requires args { AreArgsMarked (option_map (λ k. k.now) old) input.now marks.args }
    requires first { AreFirstMarked (option_map (λ k. k.now) old) input.now marks.first }
    requires before { IsBefore (turn_by P.Program program.now) input.now (option_map (λ k. k.now) old) }
    ensures { IfOk result (λ history. history ≡ run (turn_by P.Program program.now) input.now) }
{
    let Marks { args, first } = marks;
    let given = Given {
        alloc,
        gate,
        program,
        input,
        old,
        other_args: &args,
    };
    let tape = opened(&given, &first)?;
    remake_alone(&given, tape, first, Discarded::none(alloc))?
        .tape
        .finish()
}

/// The run of a program on a lawful input, by the calling thread.
pub fn recorded_alone<P: Program, G: Gate>(
    alloc: Global,
    program: &P,
    input: &Input,
    gate: &G,
) -> Result<History, OutOfMemory>
    requires lawful { input_fault input.now ≡ None }
    ensures { IfOk result (λ history. history ≡ run (turn_by P.Program program.now) input.now) }
{
    rerun_alone(alloc, program, None, input, all_marks(input), gate)
}

fn discarded_of(alloc: Global, before: Option<History>) -> Discarded {
    match before {
        Some(history) => Discarded::of(history),
        None => Discarded::none(alloc),
    }
}

/// Edits an input and makes its run again, against the run of the input as it was, which goes to `before`. The lists of the history that stood there serve
/// as room. After `OutOfMemory` the input and the history have not changed.
pub fn rerun_edited<P: Program, G: Gate, R: Threads + Sync>(
    workers: &Workers<'_, R, G>,
    program: &P,
    history: &mut History,
    before: &mut Option<History>,
    input: &mut Input,
    edits: &[Edit],
) -> Result<Update, OutOfMemory>
    requires lawful { input_fault input.old ≡ None }
    requires accepted { refusal_of input.old edits.now ≡ None }
    requires before { IsBspRun (turn_by P.Program program.now) input.old history.old }
    ensures given { OnOk result (input.new ≡ edited input.old edits.now) }
    ensures run { OnOk result
        (history.new ≡ run (turn_by P.Program program.now) (edited input.old edits.now)) }
    ensures update { IfOk result
        (λ update. update ≡ update_of (P.looks program.now) (Some history.old) history.new) }
    ensures before { OnOk result (before.new ≡ Some history.old) }
    ensures err_input { OnErr result (input.new ≡ input.old) }
    ensures err_history { OnErr result (history.new ≡ history.old) }
    ensures err_before { OnErr result (before.new ≡ None) }
{
    let discarded = discarded_of(workers.alloc, before.take());
    let formers = make_edits(workers.alloc, input, edits)?;
    let marks = marks_of_edits(history, input, edits);
    match rerun(workers, program, Some(&*history), input, marks, discarded) {
        Ok((made, update)) => {
            drop(formers);
            before.insert(replace(history, made));
            Ok(update)
        }
        Err(error) => {
            restore(input, formers);
            Err(error)
        }
    }
}
