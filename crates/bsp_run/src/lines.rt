//! The lines of a run.

ghost use Rattle.std.specs.Prelude.{◌≡◌, ℕ, [], ◌+◌, ◌≤◌, ◌<◌, ◌++◌, length, map, option_map, option_to_list, slice_index_or, take, true, false, IfOk, IfSome, OnOk};
ghost use Rattle.std.specs.Bool.{OnFalse, OnTrue};
ghost use Rattle.bsp_model.specs.Columns.{row_at, IsPut};
ghost use Rattle.bsp_deliver.specs.Requests.{each_below};
ghost use Rattle.bsp_step.specs.OutcomeParts.{outcome_of};
ghost use Rattle.bsp_run.specs.Supersteps.{outcomes_of};
ghost use Rattle.bsp_run.specs.Result.{lines_of_process};
ghost use Rattle.bsp_run.specs.Inside.Lines.{is_taken, lines_from, AreGathered, AreLinesUnlessMarked};

use crate::{Lines, Superstep};
use bsp_model::{
    LineColumn, OpenBlocks, OutOfMemory, ProcessSet, Shared, SharedSeq, TryCopy, Words,
};
use bsp_step::{ListKind, Outcomes};
use std::alloc::Global;

/// Whether a process may have printed lines in a superstep. It has not where there is no such process, or where no lines stand.
#[inline(always)]
fn may_have_lines(outcomes: &Outcomes, pid: usize) -> bool
    ensures there { OnTrue result (pid < length outcomes.now) }
    ensures none { OnFalse result ((outcome_of outcomes.now pid).lines ≡ []) }
{
    !outcomes.is_without(ListKind::Lines) && pid < outcomes.len()
}

#[inline]
fn add_lines(
    all: &mut OpenBlocks<Words>,
    outcomes: &Outcomes,
    pid: usize,
) -> Result<(), OutOfMemory>
    ensures { OnOk result
        (all.new ≡ record all.old { last = all.old.last ++ (outcome_of outcomes.now pid).lines }) }
{
    if !may_have_lines(outcomes, pid) {
        return Ok(());
    }
    let own = outcomes.lines(pid);
    all.extend(&own)
}

/// Makes the lines of a process, superstep by superstep, its row.
fn take_lines(
    all: &mut OpenBlocks<Words>,
    turns: &[&Outcomes],
    pid: usize,
) -> Result<(), OutOfMemory>
    requires below { length all.old.rows ≤ pid }
    requires none { all.old.last ≡ [] }
    ensures put { OnOk result (IsPut [] (row_at all.old.rows) pid
        (lines_of_process (map (λ o. o.now) turns.now) pid) (row_at all.new.rows)) }
    ensures few { OnOk result (length all.new.rows ≤ pid + 1) }
    ensures none { OnOk result (all.new.last ≡ []) }
{
    for outcomes in turns {
        add_lines(all, outcomes, pid)?;
    }
    all.end_row(pid)
}

/// Whether a process is marked; one that the set doesn't tell of is.
fn is_marked(marks: &ProcessSet, pid: usize) -> bool
    ensures { result ≡ slice_index_or marks.now pid true }
{
    pid >= marks.count() || marks.contains(pid)
}

fn is_none_marked(marks: &ProcessSet, nprocs: usize) -> bool
    ensures { result ≡ true → (p : ℕ) → p < nprocs → slice_index_or marks.now p true ≡ false }
{
    nprocs <= marks.count() && marks.is_empty()
}

/// Whether the lines of all of so many processes are those of a previous run, which had as many.
fn are_all_taken(before: &[Lines], marks: &ProcessSet, nprocs: usize) -> bool
    ensures count { result ≡ true → length before.now ≡ nprocs }
    ensures unmarked { result ≡ true → (p : ℕ) → p < nprocs → slice_index_or marks.now p true ≡ false }
{
    before.len() == nprocs && is_none_marked(marks, nprocs)
}

/// Whether the lines of a process are those of a previous run: it had such a process, which is not marked.
fn is_taken(before: &[Lines], marks: &ProcessSet, pid: usize) -> bool
    ensures taken { result ≡ is_taken before.now marks.now pid }
    ensures known { result ≡ true → pid < length before.now }
{
    pid < before.len() && !is_marked(marks, pid)
}

fn add_all_lines(
    all: &mut OpenBlocks<Words>,
    before: &[Lines],
    marks: &ProcessSet,
    turns: &[&Outcomes],
    nprocs: usize,
) -> Result<(), OutOfMemory>
    requires { all.old ≡ record { rows = []; last = [] } }
    ensures { OnOk result (AreGathered before.now marks.now (map (λ o. o.now) turns.now) nprocs all.new.rows) }
{
    for pid in 0..nprocs {
        if !is_taken(before, marks, pid) {
            take_lines(all, turns, pid)?;
        }
    }
    Ok(())
}

fn gather(
    alloc: Global,
    all: &mut LineColumn,
    before: &[Lines],
    marks: &ProcessSet,
    turns: &[&Outcomes],
    nprocs: usize,
) -> Result<(), OutOfMemory>
    ensures { OnOk result (AreGathered before.now marks.now (map (λ o. o.now) turns.now) nprocs all.new) }
{
    let mut gathered = OpenBlocks::new(alloc);
    let reserved = gathered.reserve(nprocs);
    let added = add_all_lines(&mut gathered, before, marks, turns, nprocs);
    gathered.swap(all, 0);
    reserved.and(added)
}

/// The lines of a process: those of a previous run, or else those in a column.
fn lines_from(
    before: &[Lines],
    marks: &ProcessSet,
    all: &Shared<LineColumn>,
    pid: usize,
) -> Result<Lines, OutOfMemory>
    ensures { IfOk result (λ lines. lines ≡ lines_from before.now marks.now all.now pid) }
{
    if is_taken(before, marks, pid) {
        return before[pid].copy();
    }
    Lines::at(all, pid)
}

/// The lines of each process: those of a previous run, or else those in a column.
#[tactic(auto, using(crate::proofs::Lists::each_below_more))]
pub fn each_lines(
    alloc: Global,
    before: &[Lines],
    marks: &ProcessSet,
    all: &Shared<LineColumn>,
    nprocs: usize,
) -> Result<SharedSeq<Lines>, OutOfMemory>
    ensures { IfOk result (λ each. each ≡ each_below nprocs (lines_from before.now marks.now all.now)) }
{
    let mut each = Vec::with_capacity(alloc, nprocs)?;
    for pid in 0..nprocs {
        each.push_reserved(lines_from(before, marks, all, pid)?);
    }
    SharedSeq::try_from_vec(each)
}

/// The lines of each process: those of a previous run where it is not marked. The others are gathered in one column, if there are any.
fn lines_taken(
    alloc: Global,
    before: &[Lines],
    marks: &ProcessSet,
    turns: &[&Outcomes],
    nprocs: usize,
) -> Result<SharedSeq<Lines>, OutOfMemory>
    requires { AreLinesUnlessMarked before.now marks.now (map (λ o. o.now) turns.now) }
    ensures { IfOk result (λ each. each ≡ each_below nprocs (lines_of_process (map (λ o. o.now) turns.now))) }
{
    let mut all = LineColumn::new(alloc);
    gather(alloc, &mut all, before, marks, turns, nprocs)?;
    let all = Shared::new(alloc, all)?;
    each_lines(alloc, before, marks, &all, nprocs)
}

/// The supersteps of a run in which lines may stand, the one that ended it among them. In the others nobody's lines are looked for.
fn printing<'a>(
    alloc: Global,
    past: &'a [Superstep],
    last: Option<&'a Outcomes>,
) -> Result<Vec<&'a Outcomes>, OutOfMemory>
    ensures { IfOk result (λ turns. (p : ℕ) → lines_of_process (map (λ o. o.now) turns.items) p
        ≡ lines_of_process (outcomes_of past.now ++ option_to_list (option_map (λ o. o.now) last.entry)) p) }
{
    let mut turns = Vec::new(alloc);
    for superstep in past {
        if !superstep.outcomes.is_without(ListKind::Lines) {
            turns.push(&superstep.outcomes)?;
        }
    }
    if let Some(outcomes) = last {
        turns.push(outcomes)?;
    }
    Ok(turns)
}

/// The lines of each process. A process that is not marked shares its lines with `before`.
pub fn all_lines(
    alloc: Global,
    before: &SharedSeq<Lines>,
    marks: &ProcessSet,
    past: &[Superstep],
    last: Option<&Outcomes>,
    nprocs: usize,
) -> Result<SharedSeq<Lines>, OutOfMemory>
    requires { AreLinesUnlessMarked before.now marks.now
        (outcomes_of past.now ++ option_to_list (option_map (λ o. o.now) last)) }
    ensures { IfOk result (λ each. each ≡ each_below nprocs
        (lines_of_process (outcomes_of past.now ++ option_to_list (option_map (λ o. o.now) last.entry)))) }
{
    if are_all_taken(before.as_slice(), marks, nprocs) {
        return before.copy();
    }
    let turns = printing(alloc, past, last)?;
    lines_taken(alloc, before.as_slice(), marks, turns.as_slice(), nprocs)
}
