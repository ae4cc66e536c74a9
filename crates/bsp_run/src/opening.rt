//! Opening a run.

ghost use Rattle.std.specs.Prelude.{◌≡◌, ◌<◌, ◌++◌, ◌∷◌, [], All, IfOk, OnOk, length, map};
ghost use Rattle.bsp_run.specs.State.{first_cell};

use crate::Arguments;
use bsp_deliver::Cells;
use bsp_model::{
    Memory, MessagesRef, OutOfMemory, Seq, SharedSeq, TryCopy, WORDS_WORTH_A_LOOK, Words,
};

/// Whether the supersteps of a run are recorded.
#[derive(Clone, Copy)]
pub enum Recording {
    /// The record keeps the memories of each superstep, which share their pages.
    Kept,
    /// No superstep is kept. Each memory lies in one piece, and in a list of its own unless it is short.
    None,
}

/// Adds a copy of the memory of one process more, whose queue is empty.
fn push_first(cells: &mut Cells, memory: &Memory, recording: Recording) -> Result<(), OutOfMemory>
    ensures { OnOk result (cells.new ≡ cells.old ++ (memory.now, []) ∷ []) }
{
    let given = memory.as_ref();
    let queue = MessagesRef::none();
    match recording {
        Recording::None if given.len() >= WORDS_WORTH_A_LOOK => {
            cells.push(&mut given.to_one_piece()?, &queue)
        }
        _ => cells.push_copy(&given, &queue),
    }
}

/// The arguments of each process, for views and runs that share them.
pub fn shared_args(args: &Seq<Words>) -> Result<Arguments, OutOfMemory>
    ensures { IfOk result (λ shared. shared ≡ args.now) }
{
    let mut shared = Vec::with_capacity(args.allocator(), args.len())?;
    for words in args.as_slice() {
        shared.push_reserved(words.copy()?.share()?);
    }
    SharedSeq::try_from_vec(shared)
}

/// Adds the memories of some processes in the first superstep, and their queues.
pub fn add_first_cells(
    cells: &mut Cells,
    mems: &[Memory],
    processes: &[usize],
    recording: Recording,
) -> Result<(), OutOfMemory>
    requires empty { cells.old ≡ [] }
    requires known { All (λ p. p < length mems.now) processes.now }
    ensures { OnOk result (cells.new ≡ map (first_cell mems.now) processes.now) }
{
    cells.reserve(processes.len())?;
    if let Recording::None = recording {
        cells.keep_lists();
    }
    for process in processes {
        push_first(cells, &mems[*process], recording)?;
    }
    Ok(())
}
