//! What is taken over from another run: a superstep whole, how one ends, or what it cost.

ghost use Rattle.std.specs.Prelude.{◌≡◌, ◌≤◌, ◌<◌, IfOk, None, OnOk, OnErr, length};
ghost use Rattle.bsp_deliver.specs.Cost.{h_relation};
ghost use Rattle.bsp_run.specs.Ending.{end_of};
ghost use Rattle.bsp_run.specs.Run.{after_turns, after_delivery, open_views};
ghost use Rattle.bsp_run.specs.Condition.{AreOutcomesOf};
ghost use Rattle.bsp_run.specs.Supersteps.{superstep_at, supersteps_opened};
ghost use Rattle.bsp_run.specs.Result.{largest_work, cost_of_delivery, IsSmall};
ghost use Rattle.bsp_run.specs.TakingOver.{CanTakeOver, outcomes_there};

use crate::costs::cost_at;
use crate::keeping::keep_superstep;
use crate::limit::phase_at;
use crate::{History, Phase, Tape, Views};
use bsp_model::{CostRow, OutOfMemory, Shared, TryCopy};
use bsp_step::Outcomes;

fn views_in(history: &History, step: usize) -> Result<Shared<Views>, OutOfMemory>
    requires { step ≤ length history.now.past }
    ensures { IfOk result (λ views. views ≡ (superstep_at (supersteps_opened history.now) step).views) }
{
    match history.kept_views(step as u64) {
        Some(views) => views.copy(),
        None => unreachable!(),
    }
}

impl Tape {
    /// Takes over the open superstep of another run, which ended by delivery: its outcomes, what the processes see after it, and what it cost, at
    /// the prices of this run. After `OutOfMemory` nothing has changed.
    pub fn take_over(&mut self, other: &History) -> Result<(), OutOfMemory>
        requires { CanTakeOver other.now self.old }
        ensures ok { OnOk result (self.new
            ≡ after_delivery (after_turns self.old (outcomes_there other.now self.old))) }
        ensures err { OnErr result (self.new ≡ self.old) }
    {
        let step = self.past.len();
        let views = views_in(other, step + 1)?;
        let run = &other.run;
        let mut outcomes = run.past[step].outcomes.copy()?;
        let row = cost_at(self.g, self.l, &run.costs[step]);
        keep_superstep(
            &mut self.past,
            &mut self.costs,
            &mut self.views,
            &mut outcomes,
            views,
            row,
        )?;
        self.phase = phase_at(step as u64 + 1, self.limit);
        Ok(())
    }

    /// Takes the outcomes of the open superstep, one for each view. They are known to end it by delivery, so that nobody is asked for a fault again.
    pub fn turned_to_deliver(&mut self, outcomes: Outcomes)
        requires open { self.old.phase ≡ Phase.Open }
        requires turns { AreOutcomesOf (open_views self.old) outcomes }
        requires delivers { end_of (length self.old.past) self.old.state.table outcomes ≡ None }
        ensures { self.new ≡ after_turns self.old outcomes }
    {
        self.outcomes = outcomes;
        self.phase = Phase::Turned;
    }

    /// The cost of the superstep whose turns are taken, at the prices of this run, where as much was computed and moved as in the same superstep of
    /// another run.
    pub fn cost_like(&self, other: &History) -> CostRow
        requires past { length self.now.past < length other.now.past }
        requires work { largest_work (outcomes_there other.now self.now) ≡ largest_work self.now.outcomes }
        requires moved { h_relation (outcomes_there other.now self.now) ≡ h_relation self.now.outcomes }
        ensures value { result ≡ cost_of_delivery self.now.g self.now.l self.now.outcomes }
        ensures small { IsSmall result }
    {
        let run = &other.run;
        cost_at(self.g, self.l, &run.costs[self.past.len()])
    }
}
