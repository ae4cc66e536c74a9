//! What a worker of a run makes of units that stand in a row.

ghost use Rattle.std.specs.Prelude.{◌≡◌, [], None, IfNone, IfOk, IfSome, IsSome, OnOk, true};
ghost use Rattle.std.specs.Option.{ForSome};
ghost use Rattle.bsp_run.specs.TurnBy.{turn_by};
ghost use Rattle.bsp_crew.specs.Parts.{IsLeft, IsMade, IsPart, asks_turns, has_turns, with_part};

use crate::deliveries::add_cells;
use crate::part::Part;
use crate::shared_run::SharedRun;
use crate::task::{Made, Means, Task};
use bsp_gate::Gate;
use bsp_model::OutOfMemory;
use bsp_step::{Gathering, OutcomeRows, Program};
use std::alloc::Global;
use std::marker::PhantomData;

/// The turns of some processes of a superstep of a run, or the deliveries to them.
#[derive(Drop)]
pub(crate) struct Piece<J: SharedRun> {
    /// The number of the superstep, from 0.
    step: u64,
    processes: Vec<usize>,
    /// The place of the first of them in the superstep's list.
    first: usize,
    made: Option<Made>,
    /// Lists in which turns can be gathered.
    room: Option<OutcomeRows>,
    run: PhantomData<J>,
    ghost is_made: { ForSome made (IsMade J.turn (J.views step) processes.items) },
    ghost no_turns: { ForSome room (λ rows. rows ≡ []) },
}

impl<J: SharedRun> Piece<J> {
    pub fn new(alloc: Global) -> Piece<J> {
        Piece {
            step: 0,
            processes: Vec::new(alloc),
            first: 0,
            made: None,
            room: None,
            run: PhantomData,
        }
    }

    /// Begins anew before the processes of a part, with turns or deliveries of no process.
    pub fn begin(&mut self, alloc: Global, task: &Task, part: &Part<'_>) {
        drop(self.made.take());
        self.processes.clear();
        self.step = part.step;
        self.first = part.first;
        if let Ok(nothing) = task.nothing(alloc, &mut self.room) {
            drop(self.made.replace(nothing));
        }
    }

    /// Whether this part is the next of the superstep.
    pub fn goes_on(&self, part: &Part<'_>) -> bool {
        self.made.is_some()
            && self.step == part.step
            && self.first.saturating_add(self.processes.len()) == part.first
    }

    /// Does the work of a part more. Where memory is refused, nothing is left of the piece.
    pub fn work<P: Program, G: Gate>(
        &mut self,
        means: &Means<'_, P, G>,
        task: &Task,
        part: &Part<'_>,
        spare: &mut Option<Gathering>,
    )
        requires turn { asks_turns task.now ≡ true → J.turn ≡ turn_by P.Program means.now.program.now }
        requires part { IsPart J.turn (J.views part.now.step) part.now.processes.now task.now }
    {
        let Some(mut made) = self.made.take() else {
            return;
        };
        if self.step != part.step || !task.fits(&made) {
            drop(made);
            return;
        }
        let Ok(()) = self.processes.extend_from_slice(part.processes) else {
            drop(made);
            return;
        };
        match means.work::<J>(task, part, spare, &mut made) {
            Ok(()) => self.keep(made),
            Err(_) => drop(made),
        }
    }

    fn keep(&mut self, made: Made)
        requires { IsMade J.turn (J.views self.old.step) self.old.processes.items made }
    {
        drop(self.made.replace(made));
    }

    /// The turns or deliveries of this part, if they are made.
    fn collect(&mut self, part: &Part<'_>) -> Option<Made>
        ensures made { IfSome result (IsMade J.turn (J.views part.now.step) part.now.processes.now) }
        ensures found { self.old.step ≡ part.now.step → self.old.processes.items ≡ part.now.processes.now
            → result ≡ self.old.made }
    {
        if self.step == part.step && self.processes.as_slice() == part.processes {
            self.made.take()
        } else {
            None
        }
    }

    /// Adds the turns or deliveries of this part to `made`. The lists of turns are kept for the next turns. None where the piece is of another part.
    fn add_part(&mut self, part: &Part<'_>, made: &mut Made) -> Option<Result<(), OutOfMemory>>
        ensures added { IfSome result (λ added. OnOk added (made.new
            ≡ with_part J.turn (J.views part.now.step) part.now.processes.now made.old)) }
        ensures none { IfNone result (made.new ≡ made.old) }
        ensures found { self.old.step ≡ part.now.step → self.old.processes.items ≡ part.now.processes.now
            → IfSome self.old.made (λ m. has_turns m ≡ has_turns made.old → IsSome result) }
        ensures alike { has_turns made.new ≡ has_turns made.old }
    {
        match (self.collect(part)?, made) {
            (Made::Taken(mut turns), Made::Taken(rows)) => {
                let added = rows.append(&mut turns);
                drop(self.room.replace(turns));
                Some(added)
            }
            (Made::Delivered(more), Made::Delivered(cells)) => Some(add_cells(cells, more)),
            (other, _) => {
                drop(other);
                None
            }
        }
    }

    /// Adds the piece to `made`, if the rest of a list begins with it: what is left of the list.
    pub fn add_to<'a>(&mut self, rest: &Part<'a>, made: &mut Made) -> Result<Part<'a>, OutOfMemory>
        ensures { IfOk result (λ left. IsLeft J.turn J.views rest.now made.old left made.new) }
    {
        let (part, behind) = rest.split(self.processes.len());
        match self.add_part(&part, made) {
            Some(Ok(())) => Ok(behind),
            Some(Err(error)) => Err(error),
            None => Ok(*rest),
        }
    }
}
