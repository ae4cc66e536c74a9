//! One superstep of a run that is made again, against the record of the previous run.

ghost use Rattle.std.specs.Prelude.{◌≡◌, IfOk, IfSome, OnOk, None, length, true};
ghost use Rattle.bsp_run.specs.Condition.{AreOutcomesOf, is_open, is_turned};
ghost use Rattle.bsp_run.specs.Ending.{end_of};
ghost use Rattle.bsp_run.specs.Run.{after_turns, open_views, advance};
ghost use Rattle.bsp_run.specs.TurnBy.{turn_by};
ghost use Rattle.bsp_crew.specs.Parts.{AreOfRun};
ghost use Rattle.bsp_incr.specs.Inside.Given.{views_beside, IsMidway};
ghost use Rattle.bsp_incr.specs.Inside.Known.{AreDirty, AreMarkedAlone, KnowsTable};

mod ending;
mod reuse;
mod turns;

use crate::compare::{Dirty, KnownTable, alike_beside, open_superstep};
use crate::rerun::{Given, UnderWay};
use crate::superstep::ending::make_deliveries;
use crate::superstep::turns::turns_again;
use bsp_crew::{Crew, SharedRun};
use bsp_gate::Gate;
use bsp_model::OutOfMemory;
use bsp_run::{Phase, Tape};
use bsp_step::{Outcomes, Program};

/// Takes the outcomes of the open superstep. True where it ends by delivery, which is asked only where it is not known; else the run has ended.
fn end_turns(tape: &mut Tape, outcomes: Outcomes, is_delivery: bool) -> Result<bool, OutOfMemory>
    requires open { tape.old.phase ≡ Phase.Open }
    requires turns { AreOutcomesOf (open_views tape.old) outcomes }
    requires delivery { is_delivery ≡ true → end_of (length tape.old.past) tape.old.state.table outcomes ≡ None }
    ensures turned { OnOk result (tape.new ≡ after_turns tape.old outcomes) }
    ensures answer { IfOk result (λ goes_on. goes_on ≡ is_turned tape.new.phase) }
{
    if is_delivery {
        tape.turned_to_deliver(outcomes);
        return Ok(true);
    }
    tape.turned(outcomes)
}

/// Takes the turns of the open superstep, and makes its deliveries. A process that is not dirty sees in it what it saw in the previous run.
fn remake_superstep<P: Program, J: SharedRun, G: Gate>(
    given: &Given<'_, P, G>,
    tape: &mut Tape,
    dirty: &Dirty,
    under_way: &mut UnderWay,
    crew: Option<&Crew<J>>,
) -> Result<(), OutOfMemory>
    requires crew { IfSome crew (λ _. AreOfRun (turn_by P.Program given.now.program) given.now.input J.turn J.views) }
    requires open { is_open tape.old.phase ≡ true }
    requires dirty { AreDirty (views_beside given.now tape.old) (open_views tape.old) dirty.now }
    requires few { AreMarkedAlone (views_beside given.now tape.old) (open_views tape.old)
        under_way.old.marks dirty.now }
    requires under_way { IsMidway P.Program given.now tape.old under_way.old }
    ensures tape { OnOk result (tape.new ≡ advance (turn_by P.Program given.now.program) tape.old) }
    ensures under_way { OnOk result (IsMidway P.Program given.now tape.new under_way.new) }
    ensures table { OnOk result (KnowsTable given.now.before tape.new under_way.new.table) }
{
    let superstep = open_superstep(given, tape);
    let executed = &mut under_way.update.executed;
    let room = &mut under_way.room;
    let outcomes = turns_again(given, &superstep, dirty, executed, room, crew)?;
    let alike = alike_beside(given, tape, dirty, &outcomes);
    under_way.table = alike.next_table();
    let goes_on = end_turns(tape, outcomes, alike.ends)?;
    if !goes_on {
        return Ok(());
    }
    make_deliveries(given, tape, &dirty.processes, alike.costs, under_way, crew)?;
    Ok(())
}

/// The open superstep of a run that is made again. Where nobody sees something else than in the previous run, it is taken over whole.
pub fn advance<P: Program, J: SharedRun, G: Gate>(
    given: &Given<'_, P, G>,
    tape: &mut Tape,
    under_way: &mut UnderWay,
    crew: Option<&Crew<J>>,
) -> Result<(), OutOfMemory>
    requires crew { IfSome crew (λ _. AreOfRun (turn_by P.Program given.now.program) given.now.input J.turn J.views) }
    requires open { is_open tape.old.phase ≡ true }
    requires under_way { IsMidway P.Program given.now tape.old under_way.old }
    requires table { KnowsTable given.now.before tape.old under_way.old.table }
    ensures tape { OnOk result (tape.new ≡ advance (turn_by P.Program given.now.program) tape.old) }
    ensures under_way { OnOk result (IsMidway P.Program given.now tape.new under_way.new) }
    ensures table { OnOk result (KnowsTable given.now.before tape.new under_way.new.table) }
{
    under_way.room.discarded.go_on();
    let marks = &under_way.marks;
    let dirty = Dirty::among(&open_superstep(given, tape), marks, under_way.table);
    match given.old {
        Some(history) if tape.step() < history.past().len() && dirty.processes.is_empty() => {
            tape.take_over(history)?;
            under_way.marks = dirty.processes;
            under_way.table = KnownTable::AsBefore;
            Ok(())
        }
        _ => remake_superstep(given, tape, &dirty, under_way, crew),
    }
}
