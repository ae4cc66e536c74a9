//! A run that has ended.

ghost use Rattle.std.specs.Prelude.{◌≡◌, [], IfOk, IfSome, OnOk, length, map, slice_get, option_map, true, All};
ghost use Rattle.bsp_deliver.specs.Condition.{AreDeliverable};
ghost use Rattle.bsp_run.specs.Supersteps.{supersteps_of, supersteps_opened, outcomes_of};
ghost use Rattle.bsp_run.specs.Condition.{is_ended};
ghost use Rattle.bsp_run.specs.SameLines.{LinesDifferAtMost};
ghost use Rattle.bsp_run.specs.Inside.History.{AreSums};
ghost use Rattle.bsp_run.specs.Inside.Lines.{AreLinesUnlessMarked};
ghost use Rattle.bsp_run.specs.Result.{status_of, memories_of, lines_of, costs_of, total_of, result_of};

use crate::costs::{all_costs, total_of};
use crate::keeping::last_turn;
use crate::limit::is_limit;
use crate::lines::all_lines;
use crate::{Arguments, Lines, Phase, RunResult, Status, Superstep, Tape, Views};
use bsp_model::{
    CostRow, Memories, MemoryRef, OutOfMemory, ProcessSet, Shared, SharedSeq, TryCopy,
};
use bsp_step::Outcomes;
use std::marker::Model;

/// What a run gives beside its status and its memories.
#[derive(Drop)]
struct Sums {
    lines: SharedSeq<Lines>,
    costs: SharedSeq<CostRow>,
    total: u64,
}

/// A run that has ended, with the record of every view and outcome.
pub struct History {
    pub(crate) run: Tape,
    sums: Sums,
}

// docs/DECISIONS.md says why it has a drop of its own.
impl Drop for History {
    fn drop(self) {
        let Self { run, sums } = self;
    }
}

impl Model for History {
    ghost use Rattle.bsp_run.specs.Run.{Run};

    ghost Value = { Run };

    ghost use Rattle.bsp_run.specs.Inside.History.{run_of, IsLawful};

    ghost view = { run_of };

    ghost invariant = { IsLawful };
}

fn have_as_many(run: &Tape, other: &Tape) -> bool
    requires ended { is_ended run.now.phase ≡ true }
    requires other { is_ended other.now.phase ≡ true }
    ensures { result ≡ true → length (supersteps_of other.now) ≡ length (supersteps_of run.now) }
{
    run.past.len() == other.past.len() && is_limit(&run.phase) == is_limit(&other.phase)
}

impl Tape {
    /// The history of a run that has ended, or `OutOfMemory`.
    pub fn finish(self) -> Result<History, OutOfMemory>
        requires { is_ended self.phase ≡ true }
        ensures { IfOk result (λ history. history ≡ self) }
    {
        self.finish_sharing(&SharedSeq::new(), &ProcessSet::none(0))
    }

    /// The history of a run that has ended, or `OutOfMemory`. Where both runs have as many supersteps, a process that is not marked shares its lines with
    /// the other history.
    pub fn finish_like(self, other: &History, marks: &ProcessSet) -> Result<History, OutOfMemory>
        requires ended { is_ended self.phase ≡ true }
        requires marks { LinesDifferAtMost other.now self marks.now }
        ensures { IfOk result (λ history. history ≡ self) }
    {
        let none = ProcessSet::none(0);
        let marks = if have_as_many(&self, &other.run) {
            marks
        } else {
            &none
        };
        self.finish_sharing(&other.sums.lines, marks)
    }

    /// The history of a run that has ended. A process that is not marked has the lines that it had, and shares them.
    fn finish_sharing(
        self,
        lines: &SharedSeq<Lines>,
        marks: &ProcessSet,
    ) -> Result<History, OutOfMemory>
        requires ended { is_ended self.phase ≡ true }
        requires marks { AreLinesUnlessMarked lines.now marks.now (outcomes_of (supersteps_of self)) }
        ensures { IfOk result (λ history. history ≡ self) }
    {
        let sums = self.sums(lines, marks)?;
        Ok(History { run: self, sums })
    }

    /// What a run that has ended gives beside its status and its memories. It shares lines likewise.
    fn sums(&self, lines: &SharedSeq<Lines>, marks: &ProcessSet) -> Result<Sums, OutOfMemory>
        requires ended { is_ended self.now.phase ≡ true }
        requires marks { AreLinesUnlessMarked lines.now marks.now (outcomes_of (supersteps_of self.now)) }
        ensures { IfOk result (AreSums self.now) }
    {
        let alloc = *self.past.allocator();
        let past = self.past.as_slice();
        let last = last_turn(&self.phase, &self.outcomes);
        let lines = all_lines(alloc, lines, marks, past, last, self.views.len())?;
        let costs = all_costs(alloc, self.costs.as_slice(), last)?;
        let total = total_of(costs.as_slice());
        Ok(Sums {
            lines,
            costs,
            total,
        })
    }
}

impl History {
    /// How the run ended. It takes no memory, as all readers of a history but `result`.
    pub fn status(&self) -> &Status
        ensures { result.now ≡ status_of self.now }
    {
        let run = &self.run;
        match &run.phase {
            Phase::Ended(status) => status,
            _ => unreachable!(),
        }
    }

    /// The memory of a process: after the last computing, or at `Limit` after the last delivery.
    pub fn memory(&self, pid: u64) -> Option<MemoryRef<'_>>
        ensures { result ≡ slice_get (memories_of self.now) pid }
    {
        let run = &self.run;
        if is_limit(&run.phase) {
            memory_seen(&run.views, pid as usize)
        } else {
            let pid = pid as usize;
            if pid >= run.outcomes.len() {
                return None;
            }
            Some(run.outcomes.get(pid).memory)
        }
    }

    /// The lines of a process, one superstep after the other.
    pub fn lines(&self, pid: u64) -> Option<&Lines>
        ensures { option_map (λ x. x.now) result ≡ slice_get (lines_of self.now) pid }
    {
        self.sums.lines.as_slice().get(pid as usize)
    }

    /// The cost of each superstep.
    pub fn costs(&self) -> &[CostRow]
        ensures { result.now ≡ costs_of self.now }
    {
        self.sums.costs.as_slice()
    }

    /// The sum of the costs.
    pub fn total(&self) -> u64
        ensures { result ≡ total_of (costs_of self.now) }
    {
        self.sums.total
    }

    /// The supersteps that ended by delivery, and the superstep behind them.
    pub(crate) fn into_supersteps(self) -> (Vec<Superstep>, Superstep) {
        let History { run, sums } = self;
        drop(sums);
        run.into_supersteps()
    }
}

/// Adds copies of the memories of these views, where there are none yet. After `OutOfMemory` some of them are added.
pub fn add_memories(all: &mut Memories, views: &Views) -> Result<(), OutOfMemory>
    requires { all.old ≡ [] }
    ensures { OnOk result (all.new ≡ map (λ v. v.memory) views.now) }
{
    all.reserve(views.len())?;
    for pid in 0..views.len() {
        let view = views.get(pid);
        all.push_copy(&view.memory)?;
    }
    Ok(())
}

fn memory_seen(views: &Views, pid: usize) -> Option<MemoryRef<'_>>
    ensures { result ≡ slice_get (map (λ v. v.memory) views.now) pid }
{
    if pid >= views.len() {
        return None;
    }
    let view = views.get(pid);
    Some(view.memory)
}

impl History {
    /// The views of a superstep, by process; at `Limit` also of the superstep after the last.
    pub fn views(&self, step: u64) -> Option<&Views>
        ensures { option_map (λ v. v.now) result ≡ slice_get (map (λ s. s.views) (supersteps_opened self.now)) step }
    {
        match self.kept_views(step) {
            Some(views) => Some(views),
            None => None,
        }
    }

    /// The views of a superstep, to be shared; at `Limit` also of the superstep after the last.
    pub(crate) fn kept_views(&self, step: u64) -> Option<&Shared<Views>>
        ensures { option_map (λ v. v.now) result ≡ slice_get (map (λ s. s.views) (supersteps_opened self.now)) step }
    {
        let run = &self.run;
        match run.past.as_slice().get(step as usize) {
            Some(superstep) => Some(&superstep.views),
            None if step as usize == run.past.len() => Some(&run.views),
            None => None,
        }
    }

    /// The outcomes of a superstep, by process.
    pub fn outcomes(&self, step: u64) -> Option<&Outcomes>
        ensures outcomes { option_map (λ o. o.now) result ≡ slice_get (outcomes_of (supersteps_of self.now)) step }
        ensures deliverable { IfSome result (λ o. AreDeliverable o.now) }
    {
        let run = &self.run;
        match run.past.as_slice().get(step as usize) {
            Some(superstep) => Some(&superstep.outcomes),
            None if step as usize == run.past.len() => { last_turn(&run.phase, &run.outcomes) }
            None => None,
        }
    }

    /// The arguments of each process.
    pub fn args(&self) -> &Arguments
        ensures { result.now ≡ self.now.args }
    {
        let run = &self.run;
        let views: &Views = &run.views;
        &views.setting().args
    }

    /// The supersteps that ended by delivery.
    pub fn past(&self) -> &[Superstep]
        ensures past { result.now ≡ self.now.past }
        ensures deliverable { All (λ s. AreDeliverable s.outcomes) result.now }
    {
        let run = &self.run;
        run.past.as_slice()
    }

    fn memories(&self) -> Result<Memories, OutOfMemory>
        ensures { IfOk result (λ all. all ≡ memories_of self.now) }
    {
        let run = &self.run;
        let alloc = *run.past.allocator();
        let mut all = Memories::new(alloc);
        let copied = if is_limit(&run.phase) {
            add_memories(&mut all, &run.views)
        } else {
            run.outcomes.copy_memories(&mut all)
        };
        copied.and(Ok(all))
    }

    /// What the run gives to its user, or `OutOfMemory`. It shares the lines and the costs with the history.
    #[tactic(auto, unfolding(crate::specs::Result::result_of))]
    pub fn result(&self) -> Result<RunResult, OutOfMemory>
        ensures { IfOk result (λ r. r ≡ result_of self.now) }
    {
        let costs = self.sums.costs.copy()?;
        let lines = self.sums.lines.copy()?;
        let status = self.status().copy()?;
        Ok(RunResult {
            status,
            memories: self.memories()?,
            lines,
            costs,
            total: self.sums.total,
        })
    }
}
