//! The history of a run that was made again.

ghost use Rattle.std.specs.Prelude.{◌≡◌, ◌≤◌, IfOk, option_map, true};
ghost use Rattle.std.specs.Option.{ForSome};
ghost use Rattle.bsp_run.specs.Condition.{is_ended};
ghost use Rattle.bsp_incr.specs.Inside.Stays.{LinesStayBut};

use crate::Place;
use crate::named::add_place_processes;
use bsp_model::limits::MOST_PROCESSES;
use bsp_model::{OutOfMemory, ProcessSet};
use bsp_run::{History, Tape};

/// The history of a run that has ended. It shares the lines of each process that are those of the previous run, as those of a process are whose turns
/// were not taken again.
pub fn finished(
    old: Option<&History>,
    tape: Tape,
    nprocs: usize,
    executed: &[Place],
) -> Result<History, OutOfMemory>
    requires few { nprocs ≤ MOST_PROCESSES }
    requires ended { is_ended tape.phase ≡ true }
    requires executed { ForSome (option_map (λ k. k.now) old) (λ r. LinesStayBut r tape executed.now) }
    ensures { IfOk result (λ history. history ≡ tape) }
{
    let Some(history) = old else {
        return tape.finish();
    };
    let mut processes = ProcessSet::none(nprocs);
    add_place_processes(&mut processes, executed);
    tape.finish_like(history, &processes)
}
