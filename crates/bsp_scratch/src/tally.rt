//! What is added up while a run goes on whose record is not kept.

ghost use Rattle.std.specs.Prelude.{◌≡◌, ◌≤◌, ◌++◌, ◌∷◌, [], All, IfOk, OnOk, length};
ghost use Rattle.bsp_model.specs.Limits.{most_cost};
ghost use Rattle.bsp_deliver.specs.Condition.{AreDeliverable};
ghost use Rattle.bsp_deliver.specs.Requests.{each_below};
ghost use Rattle.bsp_run.specs.Result.{cost_of_delivery, cost_of_end, total_of};
ghost use Rattle.bsp_scratch.specs.Inside.Printed.{lines_in, AreLinesAnd};

use crate::printed::lines_printed;
use bsp_model::limits::{HIGHEST_PRICE, MOST_SUPERSTEPS};
use bsp_model::{CostRow, Input, LineColumn, Memories, OutOfMemory, Seq};
use bsp_run::{RunResult, Status, cost_of_delivery, cost_of_end, total_of};
use bsp_step::{ListKind, Outcomes};
use std::alloc::Global;
use std::mem;

/// The lines and the costs of a run so far, and its prices.
#[derive(Drop)]
pub struct Tally {
    pub g: u64,
    pub l: u64,
    /// The lines of each process, superstep by superstep, without those in which nobody printed.
    pub lines: Vec<LineColumn>,
    pub costs: Seq<CostRow>,
    ghost small: { All (λ row. row.cost ≤ most_cost) costs },
}

impl Tally {
    /// Nothing is added up yet.
    pub fn new(alloc: Global, input: &Input) -> Tally
        ensures g { result.g ≡ input.now.g }
        ensures l { result.l ≡ input.now.l }
        ensures lines { result.lines.items ≡ [] }
        ensures costs { result.costs ≡ [] }
    {
        Tally {
            g: input.g,
            l: input.l,
            lines: Vec::new(alloc),
            costs: Seq::new(alloc),
        }
    }

    /// Adds the lines of a superstep, where any stand, and what it cost.
    fn add(&mut self, alloc: Global, outcomes: &Outcomes, row: CostRow) -> Result<(), OutOfMemory>
        requires { row.cost ≤ most_cost }
        ensures g { OnOk result (self.new.g ≡ self.old.g) }
        ensures l { OnOk result (self.new.l ≡ self.old.l) }
        ensures lines { OnOk result (AreLinesAnd self.old.lines.items outcomes.now self.new.lines.items) }
        ensures costs { OnOk result (self.new.costs ≡ self.old.costs ++ row ∷ []) }
    {
        self.costs.push(row)?;
        if outcomes.is_without(ListKind::Lines) {
            return Ok(());
        }
        let superstep = outcomes.all_lines(alloc)?;
        self.lines.push(superstep)?;
        Ok(())
    }

    /// Adds the lines and the cost of a superstep that ended by delivery.
    pub fn add_delivery(&mut self, alloc: Global, outcomes: &Outcomes) -> Result<(), OutOfMemory>
        requires small_g { self.old.g ≤ HIGHEST_PRICE }
        requires small_l { self.old.l ≤ HIGHEST_PRICE }
        requires deliverable { AreDeliverable outcomes.now }
        ensures g { OnOk result (self.new.g ≡ self.old.g) }
        ensures l { OnOk result (self.new.l ≡ self.old.l) }
        ensures lines { OnOk result (AreLinesAnd self.old.lines.items outcomes.now self.new.lines.items) }
        ensures costs { OnOk result (self.new.costs
            ≡ self.old.costs ++ cost_of_delivery self.old.g self.old.l outcomes.now ∷ []) }
    {
        let row = cost_of_delivery(self.g, self.l, outcomes);
        self.add(alloc, outcomes, row)
    }

    /// Adds the lines and the cost of the superstep that ended the run.
    pub fn add_end(&mut self, alloc: Global, outcomes: &Outcomes) -> Result<(), OutOfMemory>
        ensures lines { OnOk result (AreLinesAnd self.old.lines.items outcomes.now self.new.lines.items) }
        ensures costs { OnOk result (self.new.costs ≡ self.old.costs ++ cost_of_end outcomes.now ∷ []) }
    {
        self.add(alloc, outcomes, cost_of_end(outcomes))
    }

    /// What a run gives that ended so, with these memories. The lines and the costs are handed out.
    pub fn take_result(
        &mut self,
        alloc: Global,
        status: Status,
        memories: Memories,
    ) -> Result<RunResult, OutOfMemory>
        requires { length self.old.costs ≤ MOST_SUPERSTEPS }
        ensures { IfOk result (λ r. r ≡ record {
          status = status;
          memories = memories;
          lines = each_below (length memories) (lines_in self.old.lines.items);
          costs = self.old.costs;
          total = total_of self.old.costs;
        }) }
    {
        let total = total_of(self.costs.as_slice());
        let lines = lines_printed(alloc, &mut self.lines, memories.len())?;
        let costs = mem::replace(&mut self.costs, Seq::new(alloc)).share()?;
        Ok(RunResult {
            status,
            memories,
            lines,
            costs,
            total,
        })
    }
}
