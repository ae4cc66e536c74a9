//! Which processes have another memory or other arguments than in the previous run.

ghost use Rattle.std.specs.Prelude.{◌≡◌, ◌≤◌, ◌<◌, ◌↔◌, [], IsTrue, None, Some, length, true, if◌then◌else◌, slice_index_or, slice_set};
ghost use Rattle.bsp_incr.specs.Inside.Before.{IsBeforeEdits, first_view_before, first_views_before};
ghost use Rattle.bsp_incr.specs.Inside.Marks.{AreArgsMarked, AreFirstMarked};

use crate::Edit;
use crate::compare::before::first_views_before;
use crate::named::{add_arg_processes, add_word_processes};
use bsp_model::limits::MOST_PROCESSES;
use bsp_model::{Input, ProcessSet, Same, are_same_words};
use bsp_run::History;

/// The processes that begin with something else than in the previous run.
#[derive(Clone, Copy)]
pub struct Marks {
    /// Those with other arguments. They are marked in each superstep.
    pub args: ProcessSet,
    /// Those with another memory or other arguments. They are marked in superstep 0.
    pub first: ProcessSet,
}

/// Where there is no previous run, all processes are marked.
pub fn all_marks(input: &Input) -> Marks
    requires { length input.now.mems ≤ MOST_PROCESSES }
    ensures args { AreArgsMarked None input.now result.args }
    ensures first { AreFirstMarked None input.now result.first }
{
    let all = ProcessSet::all(input.mems.len());
    Marks {
        args: all,
        first: all,
    }
}

/// Whether a process has the arguments of the previous run.
fn has_same_args(old: &History, input: &Input, process: usize) -> bool
    requires seen { process < length (first_views_before old.now) }
    requires known { process < length input.now.args }
    ensures { IsTrue result
        ↔ ((first_view_before old.now process).args ≡ slice_index_or input.now.args process []) }
{
    let view = first_views_before(old).get(process);
    are_same_words(view.args, input.args.as_slice()[process].as_slice())
}

/// Whether a process has the memory of the previous run.
fn has_same_memory(old: &History, input: &Input, process: usize) -> bool
    requires seen { process < length (first_views_before old.now) }
    requires known { process < length input.now.mems }
    ensures { IsTrue result
        ↔ ((first_view_before old.now process).memory ≡ slice_index_or input.now.mems process []) }
{
    let view = first_views_before(old).get(process);
    view.memory.same(&input.mems.as_slice()[process].as_ref())
}

fn mark_unless(is_same: bool, marks: &mut ProcessSet, process: usize)
    requires { process < length marks.old }
    ensures { marks.new ≡ (if is_same then marks.old else slice_set marks.old process true) }
{
    if !is_same {
        marks.insert(process);
    }
}

/// The processes that a batch has left with other arguments or another memory. It looks at each process that the edits name, and at no other.
pub fn marks_of_edits(old: &History, input: &Input, edits: &[Edit]) -> Marks
    requires few { length input.now.mems ≤ MOST_PROCESSES }
    requires before { (turn : _) × IsBeforeEdits turn edits.now input.now old.now }
    ensures args { AreArgsMarked (Some old.now) input.now result.args }
    ensures first { AreFirstMarked (Some old.now) input.now result.first }
{
    let empty = ProcessSet::none(input.mems.len());
    let mut named = empty;
    add_word_processes(&mut named, edits);
    add_arg_processes(&mut named, edits);
    let mut args = empty;
    let mut first = empty;
    for process in named.iter() {
        let same_args = has_same_args(old, input, process);
        let same_memory = has_same_memory(old, input, process);
        mark_unless(same_args, &mut args, process);
        mark_unless(same_args && same_memory, &mut first, process);
    }
    Marks { args, first }
}
