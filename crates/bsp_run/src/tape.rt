//! A run while it is recorded.

ghost use Rattle.std.specs.Prelude.{◌≡◌, ◌<◌, ◌+◌, ◌-◌, ◌++◌, ◌∷◌, [], IfOk, IfErr, OnOk, OnErr, None, Some, length, map, slice_index_or, true, All};
ghost use Rattle.bsp_model.specs.Input.{input_fault};
ghost use Rattle.bsp_step.specs.ViewParts.{IsView};
ghost use Rattle.bsp_deliver.specs.Condition.{AreDeliverable};
ghost use Rattle.bsp_run.specs.Run.{start, after_turns, after_delivery, open_views};
ghost use Rattle.bsp_run.specs.Supersteps.{superstep_at, superstep_shown};
ghost use Rattle.bsp_model.specs.Replaced.{replaced, IsAscending};
ghost use Rattle.bsp_run.specs.State.{next_state, cell_of, first_cell, no_messages};
ghost use Rattle.bsp_run.specs.Setting.{next_setting, next_views};
ghost use Rattle.bsp_run.specs.Condition.{AreOutcomesOf, deliveries_of, is_turned, is_open, no_view};
ghost use Rattle.bsp_run.specs.RunErrors.{input_fault_of};
ghost use Rattle.bsp_run.specs.Result.{cost_of_delivery, IsSmall};

use crate::costs::cost_of_delivery;
use crate::keeping::{keep_superstep, phase_after};
use crate::limit::phase_at;
use crate::opening::{Recording, add_first_cells};
use crate::{Arguments, Phase, RunError, Setting, Status, Superstep, Views, ViewsRef};
use bsp_deliver::Cells;
use bsp_model::{CostRow, Input, OutOfMemory, Shared, TryCopy};
use bsp_step::Outcomes;
use std::alloc::Global;
use std::marker::Model;

/// A run while it is recorded: the turns and the deliveries are handed in, superstep by superstep.
pub struct Tape {
    pub(crate) limit: u64,
    pub(crate) g: u64,
    pub(crate) l: u64,
    pub(crate) past: Vec<Superstep>,
    pub(crate) costs: Vec<CostRow>,
    pub(crate) views: Shared<Views>,
    pub(crate) outcomes: Outcomes,
    pub(crate) phase: Phase,
}

// docs/DECISIONS.md says why it has a drop of its own.
impl Drop for Tape {
    fn drop(self) {
        let Self {
            limit,
            g,
            l,
            past,
            costs,
            views,
            outcomes,
            phase,
        } = self;
    }
}

impl Model for Tape {
    ghost use Rattle.bsp_run.specs.Run.{Run};

    ghost Value = { Run };

    ghost use Rattle.bsp_run.specs.Inside.Tape.{run_of, IsLawful};

    ghost view = { run_of };

    ghost invariant = { IsLawful };
}

impl Tape {
    /// A run of the input whose superstep 0 is open, without outcomes. `Input(f)` exactly where the input's check answers f, or `OutOfMemory`.
    pub fn open(alloc: Global, input: &Input) -> Result<Tape, RunError>
        ensures ok { IfOk result (λ tape. (input_fault input.now ≡ None) × (tape ≡ start input.now)) }
        ensures input { IfErr result (λ e. input_fault input.now ≡ input_fault_of e) }
    {
        match input.check() {
            Ok(()) => Ok(Tape::open_lawful(alloc, input)?),
            Err(fault) => Err(RunError::Input(fault)),
        }
    }

    /// A run of a lawful input whose superstep 0 is open, without outcomes. Or `OutOfMemory`.
    pub fn open_lawful(alloc: Global, input: &Input) -> Result<Tape, OutOfMemory>
        requires lawful { input_fault input.now ≡ None }
        ensures { IfOk result (λ tape. tape ≡ start input.now) }
    {
        let views = Views::first(alloc, input, Recording::Kept)?;
        Tape::open_with(alloc, input, views)
    }

    /// A run of a lawful input whose superstep 0 is open, with these arguments. Its views are those of `like` but for some processes, which are in
    /// ascending order. Or `OutOfMemory`.
    pub fn open_like(
        alloc: Global,
        input: &Input,
        args: Arguments,
        like: &Views,
        processes: Vec<usize>,
    ) -> Result<Tape, OutOfMemory>
        requires lawful { input_fault input.now ≡ None }
        requires args { args ≡ input.now.args }
        requires known { All (λ p. p < length input.now.mems) processes.items }
        requires ascending { IsAscending processes.items }
        requires like { replaced (map cell_of like.now) processes.items
            (map (first_cell input.now.mems) processes.items)
            ≡ map (λ m. (m, no_messages m)) input.now.mems }
        ensures { IfOk result (λ tape. tape ≡ start input.now) }
    {
        let mems = input.mems.as_slice();
        let setting = Setting::first(alloc, args, mems.len())?;
        let mut cells = Cells::new(alloc);
        let marked = processes.as_slice();
        add_first_cells(&mut cells, mems, marked, Recording::Kept)?;
        let views = like.replaced(alloc, setting, processes, cells)?;
        Tape::open_with(alloc, input, views)
    }

    /// A run of a lawful input whose superstep 0 is open, with these views. Or `OutOfMemory`.
    fn open_with(alloc: Global, input: &Input, views: Views) -> Result<Tape, OutOfMemory>
        requires lawful { input_fault input.now ≡ None }
        requires views { views ≡ open_views (start input.now) }
        ensures { IfOk result (λ tape. tape ≡ start input.now) }
    {
        let views = Shared::new(alloc, views)?;
        Ok(Tape {
            limit: input.limit,
            g: input.g,
            l: input.l,
            past: Vec::new(alloc),
            costs: Vec::new(alloc),
            views,
            outcomes: Outcomes::new(),
            phase: Phase::Open,
        })
    }

    /// The views of the open superstep, by process; once the run has ended, those of its last superstep. It takes no memory.
    pub fn views(&self) -> ViewsRef<'_>
        ensures views { result ≡ (superstep_shown self.now).views }
        ensures limits { self.now.phase ≡ Phase.Open → All IsView result }
    {
        match &self.phase {
            Phase::Ended(Status::Limit) => match self.past.last() {
                Some(superstep) => superstep.views.as_ref(),
                None => ViewsRef::none(),
            },
            _ => self.views.as_ref(),
        }
    }

    /// The views of the open superstep, by process. It takes no memory.
    pub fn open_views(&self) -> &Shared<Views>
        ensures views { result.now ≡ open_views self.now }
        ensures limits { self.now.phase ≡ Phase.Open → All IsView result.now }
    {
        &self.views
    }

    /// The outcomes of the open superstep, by process, once they are there; once the run has ended, those of its last superstep.
    /// It takes no memory.
    pub fn outcomes(&self) -> &Outcomes
        ensures outcomes { result.now ≡ (superstep_shown self.now).outcomes }
        ensures deliverable { self.now.phase ≡ Phase.Turned → AreDeliverable result.now }
    {
        match &self.phase {
            Phase::Ended(Status::Limit) => match self.past.last() {
                Some(superstep) => &superstep.outcomes,
                None => &self.outcomes,
            },
            _ => &self.outcomes,
        }
    }

    /// The outcomes of the superstep before, by process, where a superstep is open that is not the first. It takes no memory.
    pub fn outcomes_before(&self) -> &Outcomes
        ensures { 0 < length self.now.past
            → result.now ≡ (superstep_at self.now.past (length self.now.past - 1)).outcomes }
    {
        match self.past.last() {
            Some(superstep) => &superstep.outcomes,
            None => &self.outcomes,
        }
    }

    /// Takes the outcomes of the open superstep, one for each view. True where the superstep ends by delivery; else the run has ended.
    /// After `OutOfMemory` nothing has changed.
    pub fn turned(&mut self, outcomes: Outcomes) -> Result<bool, OutOfMemory>
        requires open { self.old.phase ≡ Phase.Open }
        requires turns { AreOutcomesOf (open_views self.old) outcomes }
        ensures ok { OnOk result (self.new ≡ after_turns self.old outcomes) }
        ensures answer { IfOk result (λ goes_on. goes_on ≡ is_turned self.new.phase) }
        ensures err { OnErr result (self.new ≡ self.old) }
    {
        let alloc = *self.past.allocator();
        let end = self.views.end(alloc, &outcomes)?;
        let goes_on = end.is_none();
        self.outcomes = outcomes;
        self.phase = phase_after(end);
        Ok(goes_on)
    }

    /// Takes the next memory and queue of each process. The messages that nobody took are discarded with the
    /// former queues. True where the next superstep opens; else the limit has ended the run. After `OutOfMemory` nothing has changed.
    pub fn delivered(&mut self, cells: Cells) -> Result<bool, OutOfMemory>
        requires turned { self.old.phase ≡ Phase.Turned }
        requires cells { cells ≡ deliveries_of self.old.outcomes }
        ensures ok { OnOk result (self.new ≡ after_delivery self.old) }
        ensures answer { IfOk result (λ opens. opens ≡ is_open self.new.phase) }
        ensures err { OnErr result (self.new ≡ self.old) }
    {
        let alloc = *self.past.allocator();
        let setting = self.next_setting()?;
        let views = Views::open(alloc, setting, cells)?;
        let row = self.cost();
        self.delivered_as(views, row)
    }

    /// The cost of the superstep whose turns are taken.
    pub fn cost(&self) -> CostRow
        requires { self.now.phase ≡ Phase.Turned }
        ensures value { result ≡ cost_of_delivery self.now.g self.now.l self.now.outcomes }
        ensures small { IsSmall result }
    {
        cost_of_delivery(self.g, self.l, &self.outcomes)
    }

    /// Takes the views of the next superstep, and the cost of this one. True where the next superstep opens; else the limit has ended the run. After
    /// `OutOfMemory` nothing has changed.
    pub fn delivered_as(&mut self, views: Views, row: CostRow) -> Result<bool, OutOfMemory>
        requires turned { self.old.phase ≡ Phase.Turned }
        requires views { views ≡ next_views self.old }
        requires row { row ≡ cost_of_delivery self.old.g self.old.l self.old.outcomes }
        requires small { IsSmall row }
        ensures ok { OnOk result (self.new ≡ after_delivery self.old) }
        ensures answer { IfOk result (λ opens. opens ≡ is_open self.new.phase) }
        ensures err { OnErr result (self.new ≡ self.old) }
    {
        let alloc = *self.past.allocator();
        let step = self.past.len() as u64 + 1;
        let views = Shared::new(alloc, views)?;
        keep_superstep(
            &mut self.past,
            &mut self.costs,
            &mut self.views,
            &mut self.outcomes,
            views,
            row,
        )?;
        self.phase = phase_at(step, self.limit);
        Ok(self.is_open())
    }

    /// The number of supersteps that ended by delivery.
    pub fn step(&self) -> usize
        ensures { result ≡ length self.now.past }
    {
        self.past.len()
    }

    /// The supersteps that ended by delivery, and the superstep behind them.
    pub(crate) fn into_supersteps(self) -> (Vec<Superstep>, Superstep) {
        let Tape {
            limit,
            g,
            l,
            past,
            costs,
            views,
            outcomes,
            phase,
        } = self;
        drop(costs);
        drop(phase);
        (past, Superstep { views, outcomes })
    }

    /// Whether a superstep is open, without outcomes.
    pub fn is_open(&self) -> bool
        ensures { result ≡ is_open self.now.phase }
    {
        matches!(self.phase, Phase::Open)
    }
}
