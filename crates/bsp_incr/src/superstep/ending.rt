//! How a superstep of a run that is made again ends: its deliveries, and the opening of the next.

ghost use Rattle.std.specs.Prelude.{◌≡◌, ◌≤◌, ◌<◌, ◌++◌, [], All, IfOk, IfSome, OnOk, length, map, true};
ghost use Rattle.bsp_model.specs.Replaced.{IsAscending};
ghost use Rattle.bsp_model.specs.ProcessSet.{processes_in, union, processes_where};
ghost use Rattle.bsp_deliver.specs.Requests.{each_below};
ghost use Rattle.bsp_run.specs.Run.{after_delivery, open_views};
ghost use Rattle.bsp_run.specs.Law.{views_in};
ghost use Rattle.bsp_crew.specs.Parts.{AreOfRun};
ghost use Rattle.bsp_run.specs.TurnBy.{turn_by};
ghost use Rattle.bsp_run.specs.Setting.{next_setting, next_views};
ghost use Rattle.bsp_run.specs.Shares.{deliveries_to};
ghost use Rattle.bsp_run.specs.Result.{cost_of_delivery, IsSmall};
ghost use Rattle.bsp_incr.specs.Inside.Alike.{AllCostAlike};
ghost use Rattle.bsp_incr.specs.Inside.Before.{views_after};
ghost use Rattle.bsp_incr.specs.Inside.Changes.{touched_in, is_touched, places_of};
ghost use Rattle.bsp_incr.specs.Inside.Marks.{OutcomesDifferAtMost};
ghost use Rattle.bsp_incr.specs.Inside.Given.{delivered_beside};
ghost use Rattle.bsp_incr.specs.Inside.Known.{IsKnown, KnowsNextTable};

use crate::Place;
use crate::compare::{KnownTable, add_places, delivered_beside, has_table, views_after};
use crate::rerun::{Given, UnderWay};
use bsp_crew::{Crew, SharedRun, wide_deliveries};
use bsp_deliver::{Cells, touched_by_changes};
use bsp_gate::Gate;
use bsp_model::{CostRow, OutOfMemory, ProcessSet, Seq};
use bsp_run::{Discarded, Phase, Setting, Tape, Views};
use bsp_step::Program;

#[derive(Drop)]
struct Deliveries {
    /// To whom, in order.
    processes: Vec<usize>,
    /// The next memory and queue of each of them.
    cells: Cells,
}

/// To whom the deliveries of the superstep whose turns are taken have to be made. Where the previous run made none in it, that is everyone.
fn touched_beside<P: Program, G>(
    given: &Given<'_, P, G>,
    tape: &Tape,
    dirty: &ProcessSet,
) -> ProcessSet
    requires turned { tape.now.phase ≡ Phase.Turned }
    requires many { length tape.now.outcomes ≡ length given.now.input.mems }
    requires dirty { OutcomesDifferAtMost (delivered_beside given.now tape.now) tape.now.outcomes dirty.now }
    ensures { result ≡ each_below (length tape.now.outcomes)
        (is_touched (delivered_beside given.now tape.now) tape.now.outcomes) }
{
    match delivered_beside(given, tape) {
        Some(old) => touched_by_changes(old, tape.outcomes(), dirty),
        None => ProcessSet::all(given.input.mems.len()),
    }
}

/// The cost of the superstep whose turns are taken: that of the previous run, at the prices in force, where it is known to be the same.
fn cost<P: Program, G>(given: &Given<'_, P, G>, tape: &Tape, is_same: bool) -> CostRow
    requires turned { tape.now.phase ≡ Phase.Turned }
    requires same { is_same ≡ true → AllCostAlike (delivered_beside given.now tape.now) tape.now.outcomes }
    ensures value { result ≡ cost_of_delivery tape.now.g tape.now.l tape.now.outcomes }
    ensures small { IsSmall result }
{
    match given.old {
        Some(history) if is_same => tape.cost_like(history),
        _ => tape.cost(),
    }
}

/// What all processes see alike in the next superstep. It is built and compared with that of the previous run only where nothing is known of it.
/// `known` is what is known of the table there.
fn next_setting(
    tape: &Tape,
    old_next: &Views,
    known: &mut KnownTable,
) -> Result<Setting, OutOfMemory>
    requires turned { tape.now.phase ≡ Phase.Turned }
    requires some { 1 ≤ length tape.now.outcomes }
    requires processes { 0 < length old_next.now }
    requires known { IsKnown known.old old_next.now (open_views (after_delivery tape.now)) }
    ensures setting { IfOk result (λ setting. setting ≡ next_setting tape.now) }
    ensures known { OnOk result (IsKnown known.new old_next.now (open_views (after_delivery tape.now))) }
{
    let first = old_next.get(0);
    if let KnownTable::AsBefore = *known {
        return tape.next_setting_like(&first);
    }
    let setting = tape.next_setting()?;
    if !has_table(&first, &setting.table, setting.tag_size) {
        return Ok(setting);
    }
    *known = KnownTable::AsBefore;
    Ok(setting)
}

/// The views of the next superstep, after the deliveries that were made. A process without a delivery shares its memory and queue with the previous run.
/// `known` is what is known of the table there.
fn next_views_like<P: Program, G>(
    given: &Given<'_, P, G>,
    tape: &Tape,
    old_next: &Views,
    deliveries: Deliveries,
    known: &mut KnownTable,
) -> Result<Views, OutOfMemory>
    requires turned { tape.now.phase ≡ Phase.Turned }
    requires many { length tape.now.outcomes ≡ length given.now.input.mems }
    requires count { length old_next.now ≡ length given.now.input.mems }
    requires next { old_next.now ≡ views_after given.now.before (length tape.now.past) }
    requires processes { deliveries.processes.items ≡ processes_where (length tape.now.outcomes)
        (is_touched (delivered_beside given.now tape.now) tape.now.outcomes) }
    requires cells { deliveries.cells ≡ deliveries_to tape.now.outcomes deliveries.processes.items }
    requires known { KnowsNextTable given.now.before tape.now known.old }
    ensures views { IfOk result (λ views. views ≡ next_views tape.now) }
    ensures known { OnOk result (KnowsNextTable given.now.before tape.now known.new) }
{
    // What stands of the previous run is known where it is read.
    let _before = given.old;
    let setting = next_setting(tape, old_next, known)?;
    tape.next_views_like(old_next, setting, deliveries.processes, deliveries.cells)
}

/// Opens the next superstep, after the deliveries that were made. `known` is what is known of the table there.
fn open_next<P: Program, G>(
    given: &Given<'_, P, G>,
    tape: &mut Tape,
    is_same_cost: bool,
    deliveries: Deliveries,
    known: &mut KnownTable,
) -> Result<(), OutOfMemory>
    requires turned { tape.old.phase ≡ Phase.Turned }
    requires many { length tape.old.outcomes ≡ length given.now.input.mems }
    requires processes { deliveries.processes.items ≡ processes_where (length tape.old.outcomes)
        (is_touched (delivered_beside given.now tape.old) tape.old.outcomes) }
    requires cells { deliveries.cells ≡ deliveries_to tape.old.outcomes deliveries.processes.items }
    requires cost { is_same_cost ≡ true → AllCostAlike (delivered_beside given.now tape.old) tape.old.outcomes }
    requires known { KnowsNextTable given.now.before tape.old known.old }
    ensures tape { OnOk result (tape.new ≡ after_delivery tape.old) }
    ensures known { OnOk result (KnowsNextTable given.now.before tape.old known.new) }
{
    match views_after(given.old, tape.step()) {
        Some(old_next) => {
            let row = cost(given, tape, is_same_cost);
            let views = next_views_like(given, tape, old_next, deliveries, known)?;
            tape.delivered_as(views, row)?;
        }
        None => {
            *known = KnownTable::Unknown;
            tape.delivered(deliveries.cells)?;
        }
    }
    Ok(())
}

/// What the processes of a list get at the end of the superstep whose turns are taken. The workers make it, in the room of `discarded`.
fn cells_of<P: Program, J: SharedRun, G: Gate>(
    given: &Given<'_, P, G>,
    tape: &Tape,
    processes: &[usize],
    discarded: &mut Discarded,
    crew: Option<&Crew<J>>,
) -> Result<Cells, OutOfMemory>
    requires crew { IfSome crew (λ _. AreOfRun (turn_by P.Program given.now.program) given.now.input J.turn J.views) }
    requires turned { tape.now.phase ≡ Phase.Turned }
    requires known { All (λ p. p < length tape.now.outcomes) processes.now }
    requires ascending { IsAscending processes.now }
    requires taken { tape.now.outcomes ≡ map (turn_by P.Program given.now.program)
        (views_in (turn_by P.Program given.now.program) given.now.input (length tape.now.past)) }
    ensures { IfOk result (λ cells. cells ≡ deliveries_to tape.now.outcomes processes.now) }
{
    let step = tape.step() as u64;
    let room = discarded.take_cells(given.alloc, processes.len());
    wide_deliveries(&given.means(), tape.outcomes(), processes, step, room, crew)
}

/// The deliveries of the superstep whose turns are taken to the processes of a set. Their places are added.
fn deliveries_among<P: Program, J: SharedRun, G: Gate>(
    given: &Given<'_, P, G>,
    tape: &Tape,
    touched: &ProcessSet,
    redelivered: &mut Seq<Place>,
    discarded: &mut Discarded,
    crew: Option<&Crew<J>>,
) -> Result<Deliveries, OutOfMemory>
    requires crew { IfSome crew (λ _. AreOfRun (turn_by P.Program given.now.program) given.now.input J.turn J.views) }
    requires turned { tape.now.phase ≡ Phase.Turned }
    requires many { length touched.now ≡ length tape.now.outcomes }
    requires taken { tape.now.outcomes ≡ map (turn_by P.Program given.now.program)
        (views_in (turn_by P.Program given.now.program) given.now.input (length tape.now.past)) }
    ensures processes { IfOk result (λ all. all.processes.items ≡ processes_in touched.now) }
    ensures cells { IfOk result (λ all. all.cells ≡ deliveries_to tape.now.outcomes all.processes.items) }
    ensures places { OnOk result (redelivered.new
        ≡ redelivered.old ++ places_of (length tape.now.past) (processes_in touched.now)) }
{
    let processes = touched.members(given.alloc)?;
    let asked = processes.as_slice();
    add_places(redelivered, tape.step() as u64, asked)?;
    let cells = cells_of(given, tape, asked, discarded, crew)?;
    Ok(Deliveries { processes, cells })
}

/// The deliveries of the superstep whose turns are taken, and the marks of the next.
pub fn make_deliveries<P: Program, J: SharedRun, G: Gate>(
    given: &Given<'_, P, G>,
    tape: &mut Tape,
    dirty: &ProcessSet,
    is_same_cost: bool,
    under_way: &mut UnderWay,
    crew: Option<&Crew<J>>,
) -> Result<(), OutOfMemory>
    requires crew { IfSome crew (λ _. AreOfRun (turn_by P.Program given.now.program) given.now.input J.turn J.views) }
    requires turned { tape.old.phase ≡ Phase.Turned }
    requires many { length tape.old.outcomes ≡ length given.now.input.mems }
    requires taken { tape.old.outcomes ≡ map (turn_by P.Program given.now.program)
        (views_in (turn_by P.Program given.now.program) given.now.input (length tape.old.past)) }
    requires dirty { OutcomesDifferAtMost (delivered_beside given.now tape.old) tape.old.outcomes dirty.now }
    requires cost { is_same_cost ≡ true → AllCostAlike (delivered_beside given.now tape.old) tape.old.outcomes }
    requires known { KnowsNextTable given.now.before tape.old under_way.old.table }
    ensures tape { OnOk result (tape.new ≡ after_delivery tape.old) }
    ensures known { OnOk result (KnowsNextTable given.now.before tape.old under_way.new.table) }
    ensures marks { OnOk result (under_way.new.marks ≡ union (each_below (length tape.old.outcomes)
        (is_touched (delivered_beside given.now tape.old) tape.old.outcomes)) given.now.others) }
    ensures executed { OnOk result (under_way.new.update.executed ≡ under_way.old.update.executed) }
    ensures redelivered { OnOk result (under_way.new.update.redelivered ≡ under_way.old.update.redelivered
        ++ touched_in (length tape.old.past) (delivered_beside given.now tape.old) tape.old.outcomes) }
{
    let touched = touched_beside(given, tape, dirty);
    under_way.marks = touched.union(given.other_args);
    let redelivered = &mut under_way.update.redelivered;
    let discarded = &mut under_way.room.discarded;
    let deliveries = deliveries_among(given, tape, &touched, redelivered, discarded, crew)?;
    open_next(given, tape, is_same_cost, deliveries, &mut under_way.table)
}
