//! The opening of a run, which shares what it can with the previous run.

ghost use Rattle.std.specs.Prelude.{◌≡◌, IfOk, length, map, slice_index_or, []};
ghost use Rattle.bsp_model.specs.ProcessSet.{processes_in};
ghost use Rattle.bsp_model.specs.Replaced.{replaced};
ghost use Rattle.bsp_run.specs.Run.{start};
ghost use Rattle.bsp_incr.specs.Inside.Marks.{AreFirstMarked};

use crate::rerun::given::Given;
use bsp_model::{OutOfMemory, ProcessSet, Seq, SharedSeq, TryCopy, Words};
use bsp_run::{Arguments, Tape, copied};
use bsp_step::Program;
use std::alloc::Global;

/// The arguments of each process: those of the previous run, and for some processes those of an input.
fn args_again(
    alloc: Global,
    old: &Arguments,
    input: &Seq<Words>,
    others: &ProcessSet,
) -> Result<Arguments, OutOfMemory>
    requires known { length others.now ≡ length input.now }
    requires count { length old.now ≡ length input.now }
    ensures { IfOk result (λ args. args ≡ replaced old.now (processes_in others.now)
        (map (λ p. slice_index_or input.now p []) (processes_in others.now))) }
{
    if others.is_empty() {
        return old.copy();
    }
    let mut all = copied(alloc, old.as_slice())?;
    for process in others.iter() {
        let args = &input.as_slice()[process];
        all[process] = args.copy()?.share()?;
    }
    SharedSeq::try_from_vec(all)
}

/// A run of an input whose superstep 0 is open. A process that is not marked shares its memory with the previous run, if there was one. A process whose
/// arguments were not edited shares these.
pub fn opened<P: Program, G>(
    given: &Given<'_, P, G>,
    marks: &ProcessSet,
) -> Result<Tape, OutOfMemory>
    requires { AreFirstMarked given.now.before given.now.input marks.now }
    ensures { IfOk result (λ tape. tape ≡ start given.now.input) }
{
    let input = given.input;
    let Some(history) = given.old else {
        return Tape::open_lawful(given.alloc, input);
    };
    let Some(like) = history.views(0) else {
        return Tape::open_lawful(given.alloc, input);
    };
    let args = args_again(given.alloc, history.args(), &input.args, given.other_args)?;
    let marked = marks.members(given.alloc)?;
    Tape::open_like(given.alloc, input, args, like, marked)
}
