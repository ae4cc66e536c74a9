//! Batches that take others back.

ghost use Rattle.std.specs.Prelude.{◌≡◌, [], slice_index, slice_index_or, IfOk};
ghost use Rattle.bsp_incr.specs.Undo.{former_of, undo_of};

use crate::edit::editing::refusal_of;
use crate::{Batch, Edit, EditError, Session};
use bsp_model::{Input, OutOfMemory, Seq};
use bsp_step::Program;
use std::alloc::Global;

/// The word of a memory; 0 where there is none.
fn word_of(input: &Input, pid: u64, addr: u64) -> u64
    ensures { result ≡ slice_index (slice_index_or input.now.mems pid []) addr }
{
    let Some(memory) = input.mems.as_slice().get(pid as usize) else {
        return 0;
    };
    match memory.load(addr) {
        Some(word) => word,
        None => 0,
    }
}

/// An argument; 0 where there is none.
fn arg_of(input: &Input, pid: u64, index: u64) -> u64
    ensures { result ≡ slice_index (slice_index_or input.now.args pid []) index }
{
    match input.args.as_slice().get(pid as usize) {
        Some(args) => args.as_slice().get(index as usize).copied().unwrap_or(0),
        None => 0,
    }
}

/// The edit that gives a part the value that it has.
pub fn former_of(input: &Input, edit: &Edit) -> Edit
    ensures { result ≡ former_of input.now edit.now }
{
    match *edit {
        Edit::Word { pid, addr, .. } => {
            let value = word_of(input, pid, addr);
            Edit::Word { pid, addr, value }
        }
        Edit::Arg { pid, index, .. } => {
            let value = arg_of(input, pid, index);
            Edit::Arg { pid, index, value }
        }
        Edit::Limit(_) => Edit::Limit(input.limit),
        Edit::Prices { .. } => Edit::Prices {
            g: input.g,
            l: input.l,
        },
    }
}

/// The batch that gives each part that a batch names the value that it has.
fn formers_of(alloc: Global, input: &Input, edits: &[Edit]) -> Result<Batch, OutOfMemory>
    ensures { IfOk result (λ undo. undo ≡ undo_of input.now edits.now) }
{
    let mut undo = Seq::with_capacity(alloc, edits.len())?;
    for edit in edits {
        undo.push(former_of(input, edit))?;
    }
    Ok(undo)
}

impl<P: Program + Drop> Session<P> {
    ghost use Rattle.std.specs.Prelude.{◌≡◌, IfOk, IfErr, OnOk, None};
    ghost use Rattle.bsp_step.specs.Turn.{turn_of};
    ghost use Rattle.bsp_run.specs.Law.{IsBspRun};
    ghost use Rattle.bsp_incr.specs.Edits.{refusal_of, edited};
    ghost use Rattle.bsp_incr.specs.Undo.{undo_of, TakesBack};
    ghost use Rattle.bsp_incr.specs.Replies.{refusal_in};

    /// The batch that takes this batch back, to be made before the batch is applied: after both, the input and the history are those of now. It gives
    /// each part that the batch names the value that it has now. `Refused` exactly where the batch is not accepted, as by `apply`; else `Ok` or
    /// `OutOfMemory`.
    pub fn undo_of(&self, alloc: Global, edits: &[Edit]) -> Result<Batch, EditError>
        ensures accepted { OnOk result (refusal_of self.now.input edits.now ≡ None) }
        ensures refused { IfErr result (λ e. refusal_of self.now.input edits.now ≡ refusal_in e) }
        ensures batch { IfOk result (λ undo. undo ≡ undo_of self.now.input edits.now) }
        ensures back { IfOk result (λ undo. TakesBack self.now.input edits.now undo) }
        ensures history { IfOk result (λ undo. IsBspRun (turn_of (P.acts self.now.program) (P.ending self.now.program))
            (edited (edited self.now.input edits.now) undo) self.now.history) }
    {
        let input = self.input();
        let _history = self.history();
        if let Some(refusal) = refusal_of(input, edits) {
            return Err(EditError::Refused(refusal));
        }
        Ok(formers_of(alloc, input, edits)?)
    }
}
