//! The supersteps of a run that is made again, by the calling thread or by a crew beside it.

ghost use Rattle.std.specs.Prelude.{◌≡◌, false, IfNone, IfOk, IfSome, OnOk, None};
ghost use Rattle.bsp_run.specs.Run.{start};
ghost use Rattle.bsp_run.specs.Condition.{is_open};
ghost use Rattle.bsp_run.specs.TurnBy.{turn_by};
ghost use Rattle.bsp_crew.specs.Parts.{AreOfRun};
ghost use Rattle.bsp_incr.specs.Inside.Given.{IsGoingOn, IsRemade};
ghost use Rattle.bsp_incr.specs.Inside.Marks.{AreFirstMarked};

use crate::Update;
use crate::rerun::{Given, UnderWay};
use crate::superstep::advance;
use bsp_crew::{Crew, Pace, SharedRun, Workers, calls_workers};
use bsp_gate::Gate;
use bsp_model::{OutOfMemory, ProcessSet};
use bsp_run::{Discarded, Recording, Tape};
use bsp_step::Program;
use std::marker::Brand;
use std::thread::{Threads, join};

/// A run that was made again, and what was done for it.
#[derive(Drop)]
pub struct Remade {
    pub tape: Tape,
    pub update: Update,
}

/// The supersteps that are left of a run that is made again; with a pace, those until workers are worth their start.
fn supersteps<P: Program, J: SharedRun, G: Gate>(
    given: &Given<'_, P, G>,
    tape: &mut Tape,
    under_way: &mut UnderWay,
    mut pace: Option<Pace>,
    crew: Option<&Crew<J>>,
) -> Result<(), OutOfMemory>
    requires going_on { IsGoingOn P.Program given.now tape.old under_way.old }
    requires crew { IfSome crew (λ _. AreOfRun (turn_by P.Program given.now.program) given.now.input J.turn J.views) }
    ensures going_on { OnOk result (IsGoingOn P.Program given.now tape.new under_way.new) }
    ensures over { IfNone pace (OnOk result (is_open tape.new.phase ≡ false)) }
{
    while tape.is_open() {
        if calls_workers(&mut pace, given.gate) {
            return Ok(());
        }
        advance(given, tape, under_way, crew)?;
    }
    Ok(())
}

/// The rest of a run that is made again, and what was done for all of it.
fn finish<P: Program, J: SharedRun, G: Gate>(
    given: &Given<'_, P, G>,
    mut tape: Tape,
    mut under_way: UnderWay,
    crew: Option<&Crew<J>>,
) -> Result<Remade, OutOfMemory>
    requires going_on { IsGoingOn P.Program given.now tape under_way }
    requires crew { IfSome crew (λ _. AreOfRun (turn_by P.Program given.now.program) given.now.input J.turn J.views) }
    ensures { IfOk result (λ r. IsRemade P.Program given.now r) }
{
    match supersteps(given, &mut tape, &mut under_way, None, crew) {
        Ok(()) => {
            let update = under_way.into_update();
            Ok(Remade { tape, update })
        }
        Err(error) => {
            drop(tape);
            drop(under_way);
            Err(error)
        }
    }
}

/// The same, beside a crew that is there.
fn beside_crew<P: Program, J: SharedRun + Send, G: Gate, R: Threads + Sync>(
    rt: &R,
    given: Given<'_, P, G>,
    tape: Tape,
    under_way: UnderWay,
    crew: &Crew<J>,
) -> Result<Remade, OutOfMemory>
    requires going_on { IsGoingOn P.Program given tape under_way }
    requires run { AreOfRun (turn_by P.Program given.program) given.input J.turn J.views }
    ensures { IfOk result (λ r. IsRemade P.Program given.entry r) }
{
    let means = given.means();
    let attend = ||
        requires { J.turn ≡ turn_by P.Program means.program.now }
    { crew.attend(rt, &means) };
    let conduct = move || -> Result<Remade, OutOfMemory>
        requires going_on { IsGoingOn P.Program given tape under_way }
        requires run { AreOfRun (turn_by P.Program given.program) given.input J.turn J.views }
        ensures { IfOk result (λ r. IsRemade P.Program given.entry r) }
    {
        let made = finish(&given, tape, under_way, Some(crew));
        drop(given);
        crew.dismiss();
        made
    };
    // Where no thread can start, `join` calls its second closure first. The workers are dismissed then, so the first returns.
    join(rt, attend, conduct).1
}

/// The same, by so many workers beside the calling thread.
fn by_crew<P: Program, J: SharedRun + Send, G: Gate, R: Threads + Sync>(
    rt: &R,
    given: Given<'_, P, G>,
    tape: Tape,
    under_way: UnderWay,
    workers: usize,
) -> Result<Remade, OutOfMemory>
    requires going_on { IsGoingOn P.Program given tape under_way }
    requires run { AreOfRun (turn_by P.Program given.program) given.input J.turn J.views }
    ensures { IfOk result (λ r. IsRemade P.Program given.entry r) }
{
    let crew: Option<Crew<J>> = Crew::new(given.alloc, workers);
    let Some(crew) = crew else {
        return finish::<P, Brand, G>(&given, tape, under_way, None);
    };
    beside_crew(rt, given, tape, under_way, &crew)
}

/// The run that has just been opened, made again by the calling thread. The processes in `first` begin with something else than in the previous run. The
/// lists of `discarded` serve as room.
pub fn remake_alone<P: Program, G: Gate>(
    given: &Given<'_, P, G>,
    tape: Tape,
    first: ProcessSet,
    discarded: Discarded,
) -> Result<Remade, OutOfMemory>
    requires started { tape ≡ start given.now.input }
    requires first { AreFirstMarked given.now.before given.now.input first }
    ensures { IfOk result (λ r. IsRemade P.Program given.now r) }
{
    let under_way = UnderWay::new(given.alloc, first, discarded);
    finish::<P, Brand, G>(given, tape, under_way, None)
}

/// The same by 1 to `MOST_WORKERS` workers, the calling thread among them. It goes on alone until workers are worth their start. Where the gate tells no time they
/// start at once.
pub fn remake_all<P: Program, G: Gate, R: Threads + Sync>(
    workers: &Workers<'_, R, G>,
    given: Given<'_, P, G>,
    mut tape: Tape,
    first: ProcessSet,
    discarded: Discarded,
) -> Result<Remade, OutOfMemory>
    requires started { tape ≡ start given.input }
    requires first { AreFirstMarked given.before given.input first }
    ensures { IfOk result (λ r. IsRemade P.Program given.entry r) }
{
    let useful = workers.useful(given.input.mems.len());
    if useful < 2 {
        return remake_alone(&given, tape, first, discarded);
    }
    let mut under_way = UnderWay::new(given.alloc, first, discarded);
    let pace = Some(Pace::new(given.gate, Recording::Kept));
    let alone = supersteps::<P, Brand, G>(&given, &mut tape, &mut under_way, pace, None);
    match alone {
        Ok(()) if tape.is_open() => {
            let beside = workers.beside(useful);
            by_crew::<P, Brand, G, R>(workers.rt, given, tape, under_way, beside)
        }
        Ok(()) => finish::<P, Brand, G>(&given, tape, under_way, None),
        Err(error) => {
            drop(tape);
            drop(under_way);
            Err(error)
        }
    }
}
