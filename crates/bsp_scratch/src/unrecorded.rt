//! A run of which no record is kept: what its reply needs, superstep by superstep.

ghost use Rattle.std.specs.Prelude.{◌≡◌, ◌≤◌, ◌<◌, ◌+◌, [], IfOk, IfSome, None, OnOk, length, map};
ghost use Rattle.std.specs.Bool.{OnTrue, OnFalse};
ghost use Rattle.std.specs.List.{range_with_len};
ghost use Rattle.bsp_model.specs.Input.{input_fault};
ghost use Rattle.bsp_run.specs.TurnBy.{turn_by};
ghost use Rattle.bsp_run.specs.Run.{Run, start, open_views, after_delivery};
ghost use Rattle.bsp_run.specs.Setting.{next_views};
ghost use Rattle.bsp_run.specs.Result.{result_of};
ghost use Rattle.bsp_run.specs.Inside.Settings.{AreTurned};
ghost use Rattle.bsp_scratch.specs.Inside.IsUnrecorded.{IsUnrecorded, IsUnrecordedIn, HasEnded};

use crate::tally::Tally;
use bsp_crew::{Crew, Means, SharedRun, wide_turns};
use bsp_deliver::deliver_moving;
use bsp_gate::Gate;
use bsp_model::limits::MOST_SUPERSTEPS;
use bsp_model::{Input, Memories, OutOfMemory, Shared};
use bsp_run::{Phase, RunResult, Status, Views, add_memories};
use bsp_step::{Gathering, Outcomes, Program};
use std::alloc::Global;
use std::mem;

/// The outcomes of a superstep, and the lists in which the turns of the next are taken, if there are any.
#[derive(Drop)]
pub(crate) struct Taken {
    pub(crate) outcomes: Outcomes,
    pub(crate) spare: Option<Gathering>,
}

/// What is kept of a run beside the views: the numbers of the processes, what is added up so far, and the turns that were taken last.
pub(crate) struct Unrecorded {
    pub(crate) processes: &'static [usize],
    /// The number of supersteps that ended by delivery.
    pub(crate) step: u64,
    pub(crate) tally: Tally,
    pub(crate) taken: Taken,
    /// How these turns ended the run, if they did.
    pub(crate) end: Option<Status>,
}

impl Drop for Unrecorded {
    fn drop(self) {
        let Self {
            processes,
            step,
            tally,
            taken,
            end,
        } = self;
    }
}

/// The turns of all processes, gathered in the room of the turns that were taken before.
pub(crate) fn all_turns<J: SharedRun, P: Program, G: Gate>(
    means: &Means<'_, P, G>,
    views: &Shared<Views>,
    processes: &[usize],
    taken: &mut Taken,
    step: u64,
    crew: Option<&Crew<J>>,
) -> Result<(), OutOfMemory>
    requires processes { processes.now ≡ range_with_len 0 (length views.now) }
    requires turn { IfSome crew (λ _. J.turn ≡ turn_by P.Program means.now.program.now) }
    requires seen { IfSome crew (λ _. views.now ≡ J.views step) }
    ensures { OnOk result (taken.new.outcomes ≡ map (turn_by P.Program means.now.program.now) views.now) }
{
    let before = mem::replace(&mut taken.outcomes, Outcomes::new());
    let mut rows = before.into_room(means.alloc, views.len())?;
    rows.keep_lists();
    let turns = wide_turns(means, rows, &mut taken.spare, views, processes, step, crew)?;
    drop(mem::replace(&mut taken.outcomes, turns.share()?));
    Ok(())
}

/// The views of the next superstep, gathered in the room of the present ones. What is left of the outcomes serves the next turns as room. Messages that
/// nobody took are discarded here.
fn next_views(
    alloc: Global,
    views: Shared<Views>,
    processes: &[usize],
    outcomes: &mut Outcomes,
) -> Result<Shared<Views>, OutOfMemory>
    requires turned { (r : Run) × AreTurned r views outcomes.old }
    requires processes { processes.now ≡ range_with_len 0 (length outcomes.old) }
    ensures { (r : Run) → AreTurned r views outcomes.old → IfOk result (λ next. next ≡ next_views r) }
{
    let setting = views.next_setting(outcomes)?;
    let mut cells = Views::room_of(alloc, views, processes.len());
    deliver_moving(alloc, outcomes, processes, &mut cells)?;
    Shared::new(alloc, Views::open(alloc, setting, cells)?)
}

impl Unrecorded {
    /// What is kept before the first superstep, of a run of these processes.
    pub(crate) fn new(alloc: Global, input: &Input, processes: &'static [usize]) -> Unrecorded
        requires lawful { input_fault input.now ≡ None }
        requires processes { processes.now ≡ range_with_len 0 (length input.now.mems) }
        ensures kept { IsUnrecorded (start input.now) (open_views (start input.now)) result }
        ensures end { result.end ≡ None }
        ensures step { result.step ≡ 0 }
    {
        Unrecorded {
            processes,
            step: 0,
            tally: Tally::new(alloc, input),
            taken: Taken {
                outcomes: Outcomes::new(),
                spare: None,
            },
            end: None,
        }
    }

    /// Whether no superstep is left of a run with this limit.
    pub(crate) fn is_over(&self, limit: u64) -> bool
        ensures over { OnTrue result (self.now.end ≡ None → limit ≤ self.now.step) }
        ensures open { OnFalse result (self.now.end ≡ None) }
        ensures below { OnFalse result (self.now.step < limit) }
    {
        self.end.is_some() || limit <= self.step
    }

    /// Makes the deliveries of the turns that were taken at these views. It answers what the processes see next.
    pub(crate) fn go_on(
        &mut self,
        alloc: Global,
        views: Shared<Views>,
    ) -> Result<Shared<Views>, OutOfMemory>
        requires turned { (r : Run) × IsUnrecordedIn Phase.Turned r views self.old self.old.taken.outcomes }
        requires below { self.old.step < MOST_SUPERSTEPS }
        ensures views { (r : Run) → IsUnrecordedIn Phase.Turned r views self.old self.old.taken.outcomes
            → IfOk result (λ next. IsUnrecorded (after_delivery r) next self.new) }
        ensures end { OnOk result (self.new.end ≡ self.old.end) }
        ensures step { OnOk result (self.new.step ≡ self.old.step + 1) }
    {
        self.step += 1;
        let taken = &mut self.taken.outcomes;
        self.tally.add_delivery(alloc, taken)?;
        next_views(alloc, views, self.processes, taken)
    }

    /// What the run gives that has ended, where the processes see these views. What was added up is handed out.
    pub(crate) fn result(&mut self, alloc: Global, views: &Views) -> Result<RunResult, OutOfMemory>
        requires ended { (r : Run) × HasEnded self.old.end r views.now self.old }
        ensures { (r : Run) → HasEnded self.old.end r views.now self.old → IfOk result (λ given. given ≡ result_of r) }
    {
        let mut memories = Memories::new(alloc);
        match self.end.take() {
            Some(status) => {
                let outcomes = &self.taken.outcomes;
                let added = self.tally.add_end(alloc, outcomes);
                match added.and(outcomes.copy_memories(&mut memories)) {
                    Ok(()) => self.tally.take_result(alloc, status, memories),
                    Err(error) => {
                        drop(status);
                        drop(memories);
                        Err(error)
                    }
                }
            }
            None => match add_memories(&mut memories, views) {
                Ok(()) => self.tally.take_result(alloc, Status::Limit, memories),
                Err(error) => {
                    drop(memories);
                    Err(error)
                }
            },
        }
    }
}
