//! The turns of a superstep, of which those that serve from the previous run are not taken again.

ghost use Rattle.std.specs.Prelude.{◌≡◌, ◌<◌, ◌++◌, [], All, IfNone, IfOk, IfSome, OnOk, filter, map, length, slice_index_or, true, false};
ghost use Rattle.bsp_model.specs.ProcessSet.{processes_in, processes_where};
ghost use Rattle.bsp_deliver.specs.Requests.{each_below};
ghost use Rattle.bsp_run.specs.Law.{views_in};
ghost use Rattle.bsp_crew.specs.Parts.{AreOfRun};
ghost use Rattle.bsp_run.specs.Shares.{turns_of};
ghost use Rattle.bsp_incr.specs.Inside.Changes.{differ_in};
ghost use Rattle.bsp_run.specs.TurnBy.{turn_by};
ghost use Rattle.bsp_incr.specs.Inside.Known.{AreDirty};
ghost use Rattle.bsp_incr.specs.Inside.Marks.{ViewsDifferAtMost};
ghost use Rattle.bsp_incr.specs.Inside.OpenSuperstep.{differs_now};

use crate::Place;
use crate::compare::{Dirty, OpenSuperstep, add_places, serves};
use crate::rerun::{Given, Room};
use crate::superstep::reuse::add_reused_turn;
use bsp_crew::{Crew, SharedRun, wide_turns};
use bsp_gate::Gate;
use bsp_model::{ByProcess, OutOfMemory, ProcessSet, Same, Seq};
use bsp_step::{OutcomeRows, Outcomes, Program};

/// Whether the turn of a process has to be taken, which may be asked of the dirty processes alone. The tables are not compared where all processes are known
/// to see the same.
fn needs_turn<P: Program>(
    program: &P,
    superstep: &OpenSuperstep<'_, '_>,
    dirty: &Dirty,
    p: usize,
) -> bool
    requires dirty { AreDirty superstep.now.old_views superstep.now.views.now dirty.now }
    requires place { slice_index_or dirty.now.processes p false ≡ true }
    ensures { result ≡ differs_now (P.looks program.now) superstep.now p }
{
    if p >= superstep.old_views.len() {
        return true;
    }
    let old = superstep.old_views.get(p);
    !serves(program, &old, superstep.views, p, dirty.same_table)
}

/// Adds the turns of dirty processes, in order: those that had to be taken, and of the other processes the recorded turns, whose stores are replayed.
fn add_renewed<P: Program, G>(
    renewed: &mut OutcomeRows,
    given: &Given<'_, P, G>,
    superstep: &OpenSuperstep<'_, '_>,
    old_outcomes: &Outcomes,
    processes: &[usize],
    needed: &ProcessSet,
    taken: &OutcomeRows,
) -> Result<(), OutOfMemory>
    requires none { renewed.old ≡ [] }
    requires known { All (λ p. p < length superstep.now.views.now) processes.now }
    requires recorded { old_outcomes.now ≡ map (turn_by P.Program given.now.program) superstep.now.old_views }
    requires needed { needed.now ≡ each_below (length superstep.now.views.now)
        (differs_now (P.looks given.now.program) superstep.now) }
    requires taken { taken.now ≡ turns_of (turn_by P.Program given.now.program) superstep.now.views.now
        (filter (differs_now (P.looks given.now.program) superstep.now) processes.now) }
    ensures { OnOk result (renewed.new
        ≡ turns_of (turn_by P.Program given.now.program) superstep.now.views.now processes.now) }
{
    let mut at = 0;
    for process in processes {
        if needed.contains(*process) {
            renewed.append_range(taken, at, at + 1)?;
            at += 1;
        } else {
            add_reused_turn(renewed, given.program, superstep, old_outcomes, *process)?;
        }
    }
    Ok(())
}

/// The turns of these processes, if there are any, which the workers take, in the spare lists. Where the record keeps these turns as they are gathered,
/// discarded lists serve as room.
fn taken_turns<P: Program, J: SharedRun, G: Gate>(
    given: &Given<'_, P, G>,
    superstep: &OpenSuperstep<'_, '_>,
    processes: &[usize],
    room: &mut Room,
    are_all_taken: bool,
    crew: Option<&Crew<J>>,
) -> Result<OutcomeRows, OutOfMemory>
    requires crew { IfSome crew (λ _. AreOfRun (turn_by P.Program given.now.program) given.now.input J.turn J.views) }
    requires known { All (λ p. p < length superstep.now.views.now) processes.now }
    requires seen { superstep.now.views.now
        ≡ views_in (turn_by P.Program given.now.program) given.now.input superstep.now.step }
    ensures { IfOk result (λ all. all
        ≡ turns_of (turn_by P.Program given.now.program) superstep.now.views.now processes.now) }
{
    if processes.is_empty() {
        return OutcomeRows::new(given.alloc);
    }
    let discarded = discarded_for_taken(room, are_all_taken);
    let like = superstep.like;
    let rows = like.room_for(given.alloc, processes.len(), discarded)?;
    wide_turns(
        &given.means(),
        rows,
        &mut room.spare,
        superstep.views,
        processes,
        superstep.step,
        crew,
    )
}

/// The dirty processes whose turns have to be taken.
fn needed_among<P: Program, G>(
    given: &Given<'_, P, G>,
    superstep: &OpenSuperstep<'_, '_>,
    dirty: &Dirty,
) -> ProcessSet
    requires dirty { AreDirty superstep.now.old_views superstep.now.views.now dirty.now }
    ensures { result ≡ each_below (length superstep.now.views.now)
        (differs_now (P.looks given.now.program) superstep.now) }
{
    if superstep.old_views.is_empty() {
        return dirty.processes;
    }
    let mut needed = ProcessSet::none(dirty.processes.count());
    for process in dirty.processes.iter() {
        if needs_turn(given.program, superstep, dirty, process) {
            needed.insert(process);
        }
    }
    needed
}

/// The recorded outcomes, with new ones of the dirty processes.
fn over_recorded<P: Program, G>(
    given: &Given<'_, P, G>,
    superstep: &OpenSuperstep<'_, '_>,
    old_outcomes: &Outcomes,
    dirty: &ProcessSet,
    processes: Vec<usize>,
    new: OutcomeRows,
) -> Result<Outcomes, OutOfMemory>
    requires some { 0 < length superstep.now.old_views }
    requires recorded { old_outcomes.now ≡ map (turn_by P.Program given.now.program) superstep.now.old_views }
    requires dirty { ViewsDifferAtMost superstep.now.old_views superstep.now.views.now dirty.now }
    requires processes { processes.items ≡ processes_in dirty.now }
    requires turns { new
        ≡ turns_of (turn_by P.Program given.now.program) superstep.now.views.now (processes_in dirty.now) }
    ensures { IfOk result (λ all. all ≡ map (turn_by P.Program given.now.program) superstep.now.views.now) }
{
    old_outcomes.replaced(given.alloc, processes, new)
}

/// The same where some dirty processes took their turns, and the recorded turns of the rest serve. Discarded lists serve as room.
fn over_renewed<P: Program, G>(
    given: &Given<'_, P, G>,
    superstep: &OpenSuperstep<'_, '_>,
    old_outcomes: &Outcomes,
    dirty: &ProcessSet,
    needed: &ProcessSet,
    taken: OutcomeRows,
    room: &mut Room,
) -> Result<Outcomes, OutOfMemory>
    requires some { 0 < length superstep.now.old_views }
    requires recorded { old_outcomes.now ≡ map (turn_by P.Program given.now.program) superstep.now.old_views }
    requires dirty { ViewsDifferAtMost superstep.now.old_views superstep.now.views.now dirty.now }
    requires needed { needed.now ≡ each_below (length superstep.now.views.now)
        (differs_now (P.looks given.now.program) superstep.now) }
    requires turns { taken
        ≡ turns_of (turn_by P.Program given.now.program) superstep.now.views.now (processes_in needed.now) }
    ensures { IfOk result (λ all. all ≡ map (turn_by P.Program given.now.program) superstep.now.views.now) }
{
    let processes = dirty.members(given.alloc)?;
    let asked = processes.as_slice();
    let discarded = room.discarded.take_outcomes();
    let mut renewed = old_outcomes.room_for(given.alloc, asked.len(), discarded)?;
    add_renewed(
        &mut renewed,
        given,
        superstep,
        old_outcomes,
        asked,
        needed,
        &taken,
    )?;
    drop(taken);
    over_recorded(given, superstep, old_outcomes, dirty, processes, renewed)
}

/// The discarded outcomes whose lists serve the turns that are taken. Where taken turns are mixed with reused turns, the lists of the mix get the room
/// instead, since the record keeps them.
fn discarded_for_taken(room: &mut Room, are_all_taken: bool) -> Outcomes {
    if are_all_taken {
        return room.discarded.take_outcomes();
    }
    Outcomes::new()
}

/// The turns of all processes, where the turns of the processes in `needed` were taken. The recorded turns of the rest serve. Discarded lists serve as room.
fn all_turns<P: Program, G>(
    given: &Given<'_, P, G>,
    superstep: &OpenSuperstep<'_, '_>,
    dirty: &ProcessSet,
    needed: &ProcessSet,
    processes: Vec<usize>,
    taken: OutcomeRows,
    room: &mut Room,
) -> Result<Outcomes, OutOfMemory>
    requires recorded { IfSome superstep.now.old_outcomes (λ o. (0 < length superstep.now.old_views)
        × (o.now ≡ map (turn_by P.Program given.now.program) superstep.now.old_views)) }
    requires none { IfNone superstep.now.old_outcomes (superstep.now.old_views ≡ []) }
    requires dirty { ViewsDifferAtMost superstep.now.old_views superstep.now.views.now dirty.now }
    requires needed { needed.now ≡ each_below (length superstep.now.views.now)
        (differs_now (P.looks given.now.program) superstep.now) }
    requires processes { processes.items ≡ processes_in needed.now }
    requires turns { taken
        ≡ turns_of (turn_by P.Program given.now.program) superstep.now.views.now (processes_in needed.now) }
    ensures { IfOk result (λ all. all ≡ map (turn_by P.Program given.now.program) superstep.now.views.now) }
{
    match superstep.old_outcomes {
        Some(old) if needed.same(dirty) => {
            over_recorded(given, superstep, old, dirty, processes, taken)
        }
        Some(old) => over_renewed(given, superstep, old, dirty, needed, taken, room),
        None => taken.share(),
    }
}

/// The turns of a superstep: the workers take those that have to be taken, and their places are added.
pub fn turns_again<P: Program, J: SharedRun, G: Gate>(
    given: &Given<'_, P, G>,
    superstep: &OpenSuperstep<'_, '_>,
    dirty: &Dirty,
    executed: &mut Seq<Place>,
    room: &mut Room,
    crew: Option<&Crew<J>>,
) -> Result<Outcomes, OutOfMemory>
    requires crew { IfSome crew (λ _. AreOfRun (turn_by P.Program given.now.program) given.now.input J.turn J.views) }
    requires recorded { IfSome superstep.now.old_outcomes (λ o. (0 < length superstep.now.old_views)
        × (o.now ≡ map (turn_by P.Program given.now.program) superstep.now.old_views)) }
    requires none { IfNone superstep.now.old_outcomes (superstep.now.old_views ≡ []) }
    requires dirty { AreDirty superstep.now.old_views superstep.now.views.now dirty.now }
    requires seen { superstep.now.views.now
        ≡ views_in (turn_by P.Program given.now.program) given.now.input superstep.now.step }
    ensures turns { IfOk result (λ all. all ≡ map (turn_by P.Program given.now.program) superstep.now.views.now) }
    ensures executed { OnOk result (executed.new ≡ executed.old
        ++ differ_in (P.looks given.now.program) superstep.now.step superstep.now.old_views superstep.now.views.now) }
{
    let needed = needed_among(given, superstep, dirty);
    let processes = needed.members(given.alloc)?;
    let asked = processes.as_slice();
    add_places(executed, superstep.step, asked)?;
    let are_all_taken = needed.same(&dirty.processes);
    let taken = taken_turns(given, superstep, asked, room, are_all_taken, crew)?;
    all_turns(
        given,
        superstep,
        &dirty.processes,
        &needed,
        processes,
        taken,
        room,
    )
}
