//! The open superstep of a run that is made again, beside that of the previous run.

ghost use Rattle.std.specs.Prelude.{◌≡◌, ◌<◌, [], All, IfNone, IfSome, length, map, true};
ghost use Rattle.bsp_deliver.specs.Condition.{AreDeliverable};
ghost use Rattle.bsp_step.specs.ViewParts.{IsView};
ghost use Rattle.bsp_run.specs.Run.{open_views};
ghost use Rattle.bsp_run.specs.Law.{views_in};
ghost use Rattle.bsp_run.specs.Condition.{is_open};
ghost use Rattle.bsp_run.specs.Inside.Record.{IsRecord};
ghost use Rattle.bsp_run.specs.TurnBy.{turn_by};
ghost use Rattle.bsp_incr.specs.Inside.Given.{IsMaking, delivered_beside, views_beside};
ghost use Rattle.bsp_incr.specs.Inside.Marks.{HaveOneTable};

use crate::compare::before::{outcomes_before, views_before};
use crate::rerun::Given;
use bsp_model::Shared;
use bsp_run::{Tape, Views, ViewsRef};
use bsp_step::{Outcomes, Program};

/// What the processes see in the open superstep, and what the previous run has of the superstep with that number.
#[derive(Drop)]
pub struct OpenSuperstep<'old, 'new> {
    pub step: u64,
    pub views: &'new Shared<Views>,
    /// What the turns of the superstep before left in this run: those of this one will take about as much room.
    pub like: &'new Outcomes,
    /// What they saw in the previous run; none where it took no turns of such a superstep.
    pub old_views: ViewsRef<'old>,
    /// What those turns left.
    pub old_outcomes: Option<&'old Outcomes>,
    ghost count: { 0 < length old_views → length old_views ≡ length views.now },
    ghost table: { HaveOneTable views.now },
    ghost old_table: { HaveOneTable old_views },
}

/// The open superstep of this run, beside that of the previous run.
pub fn open_superstep<'old, 'new, P: Program, G>(
    given: &Given<'old, P, G>,
    tape: &'new Tape,
) -> OpenSuperstep<'old, 'new>
    requires open { is_open tape.now.phase ≡ true }
    requires made { IsRecord (turn_by P.Program given.now.program) given.now.input tape.now }
    ensures given { IsMaking P.Program given.now }
    ensures step { result.step ≡ length tape.now.past }
    ensures views { result.views.now ≡ open_views tape.now }
    ensures seen { result.views.now
        ≡ views_in (turn_by P.Program given.now.program) given.now.input result.step }
    ensures limits { All IsView result.views.now }
    ensures old_views { result.old_views ≡ views_beside given.now tape.now }
    ensures recorded { IfSome result.old_outcomes (λ o. (0 < length result.old_views)
        × (o.now ≡ map (turn_by P.Program given.now.program) result.old_views)) }
    ensures none { IfNone result.old_outcomes (result.old_views ≡ []) }
{
    let step = tape.step();
    OpenSuperstep {
        step: step as u64,
        views: tape.open_views(),
        like: tape.outcomes_before(),
        old_views: views_before(given.old, step),
        old_outcomes: outcomes_before(given.old, step),
    }
}

/// The outcomes that the previous run delivered in the superstep with the number of the open one; none where it ended no such superstep by delivery.
pub fn delivered_beside<'old, P: Program, G>(
    given: &Given<'old, P, G>,
    tape: &Tape,
) -> Option<&'old Outcomes>
    ensures outcomes { IfSome result (λ o. o.now ≡ delivered_beside given.now tape.now) }
    ensures none { IfNone result (delivered_beside given.now tape.now ≡ []) }
    ensures deliverable { IfSome result (λ o. AreDeliverable o.now) }
    ensures count { IfSome result (λ o. length o.now ≡ length given.now.input.mems) }
{
    let Some(history) = given.old else {
        return None;
    };
    match history.past().get(tape.step()) {
        Some(superstep) => Some(&superstep.outcomes),
        None => None,
    }
}
