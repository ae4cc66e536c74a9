//! The task of a part, what is made of it, and the means of a thread to work it.

ghost use Rattle.std.specs.Prelude.{◌≡◌, [], IfOk, IfSome, OnOk, true};
ghost use Rattle.std.specs.Bool.{OnTrue};
ghost use Rattle.bsp_run.specs.TurnBy.{turn_by};
ghost use Rattle.bsp_crew.specs.Parts.{IsPart, asks_turns, has_turns, nothing_of, with_part};

use crate::part::Part;
use crate::shared_run::SharedRun;
use bsp_deliver::Cells;
use bsp_gate::Gate;
use bsp_model::{OutOfMemory, Shared, TryCopy};
use bsp_run::Views;
use bsp_step::{Gathering, OutcomeRows, Outcomes, Program};
use std::alloc::Global;

/// The work of a part: turns at shared views, or deliveries of shared outcomes.
#[derive(Drop)]
pub(crate) enum Task {
    Turns(Shared<Views>),
    Deliveries(Outcomes),
}

/// The turns of some processes, or the deliveries to them, in the order of the list.
#[derive(Drop)]
pub(crate) enum Made {
    Taken(OutcomeRows),
    Delivered(Cells),
}

impl TryCopy for Task {
    fn copy(&self) -> Result<Task, OutOfMemory> {
        match self {
            Task::Turns(views) => Ok(Task::Turns(views.copy()?)),
            Task::Deliveries(outcomes) => Ok(Task::Deliveries(outcomes.copy()?)),
        }
    }
}

impl Task {
    /// Whether turns or deliveries are asked for, as these are.
    pub fn fits(&self, made: &Made) -> bool
        ensures { OnTrue result (has_turns made.now ≡ asks_turns self.now) }
    {
        matches!(
            (self, made),
            (Task::Turns(_), Made::Taken(_)) | (Task::Deliveries(_), Made::Delivered(_))
        )
    }

    /// No turns, in the lists that are kept, if there are any; or no deliveries.
    pub fn nothing(
        &self,
        alloc: Global,
        room: &mut Option<OutcomeRows>,
    ) -> Result<Made, OutOfMemory>
        requires { IfSome room.old (λ rows. rows ≡ []) }
        ensures nothing { IfOk result (λ made. made ≡ nothing_of self.now) }
        ensures room { IfSome room.new (λ rows. rows ≡ []) }
    {
        match self {
            Task::Turns(_) => match room.take() {
                Some(rows) => Ok(Made::Taken(rows)),
                None => Ok(Made::Taken(OutcomeRows::new(alloc)?)),
            },
            Task::Deliveries(_) => Ok(Made::Delivered(Cells::new(alloc))),
        }
    }
}

/// The means of a thread for its work: the allocator, the program of the run, and the gate.
#[derive(Drop)]
pub struct Means<'a, P, G> {
    pub alloc: Global,
    pub program: &'a P,
    pub gate: &'a G,
}

impl<'a, P: Program, G: Gate> Means<'a, P, G> {
    /// Works a part, and adds its turns or deliveries to `made`. Turns are taken in the spare lists, if there are any.
    pub(crate) fn work<J: SharedRun>(
        &self,
        task: &Task,
        part: &Part<'_>,
        spare: &mut Option<Gathering>,
        made: &mut Made,
    ) -> Result<(), OutOfMemory>
        requires turn { asks_turns task.now ≡ true → J.turn ≡ turn_by P.Program self.now.program.now }
        requires part { IsPart J.turn (J.views part.now.step) part.now.processes.now task.now }
        requires alike { has_turns made.old ≡ asks_turns task.now }
        ensures alike { has_turns made.new ≡ has_turns made.old }
        ensures made { OnOk result (made.new
            ≡ with_part J.turn (J.views part.now.step) part.now.processes.now made.old) }
    {
        match (task, made) {
            (Task::Turns(views), Made::Taken(rows)) => self.take_turns(views, part, spare, rows),
            (Task::Deliveries(outcomes), Made::Delivered(cells)) => {
                self.make_deliveries(outcomes, part, cells)
            }
            _ => unreachable!(),
        }
    }
}
