//! The lines of a run of which no record is kept.

ghost use Rattle.std.specs.Prelude.{◌≡◌, ◌+◌, ◌≤◌, ◌<◌, [], ℕ, IfOk, OnOk, length};
ghost use Rattle.bsp_model.specs.Columns.{row_at, IsPut};
ghost use Rattle.bsp_deliver.specs.Requests.{each_below};
ghost use Rattle.bsp_scratch.specs.Inside.Printed.{lines_in};

use bsp_model::{LineColumn, OpenBlocks, OutOfMemory, ProcessSet, Shared, SharedSeq, Words};
use bsp_run::{Lines, each_lines};
use std::alloc::Global;

/// Makes the lines of a process, superstep by superstep, its row.
fn take_printed(
    all: &mut OpenBlocks<Words>,
    printed: &[LineColumn],
    pid: usize,
) -> Result<(), OutOfMemory>
    requires below { length all.old.rows ≤ pid }
    requires none { all.old.last ≡ [] }
    ensures put { OnOk result (IsPut [] (row_at all.old.rows) pid (lines_in printed.now pid) (row_at all.new.rows)) }
    ensures few { OnOk result (length all.new.rows ≤ pid + 1) }
    ensures none { OnOk result (all.new.last ≡ []) }
{
    for superstep in printed {
        all.extend(&superstep.get(pid))?;
    }
    all.end_row(pid)
}

fn gather(
    all: &mut OpenBlocks<Words>,
    printed: &[LineColumn],
    nprocs: usize,
) -> Result<(), OutOfMemory>
    requires { all.old ≡ record { rows = []; last = [] } }
    ensures { OnOk result ((p : ℕ) → p < nprocs → row_at all.new.rows p ≡ lines_in printed.now p) }
{
    for pid in 0..nprocs {
        take_printed(all, printed, pid)?;
    }
    Ok(())
}

/// The lines of each process, superstep by superstep, in one column. Those of one superstep alone stay where they are.
fn in_one_column(
    alloc: Global,
    printed: &mut Vec<LineColumn>,
    nprocs: usize,
) -> Result<LineColumn, OutOfMemory>
    ensures { IfOk result (λ all. (p : ℕ) → p < nprocs → row_at all p ≡ lines_in printed.old.items p) }
{
    if printed.len() > 1 {
        let mut gathered = OpenBlocks::new(alloc);
        let added = gather(&mut gathered, printed.as_slice(), nprocs);
        let mut all = LineColumn::new(alloc);
        gathered.swap(&mut all, 0);
        return added.and(Ok(all));
    }
    match printed.pop() {
        Some(superstep) => Ok(superstep),
        None => Ok(LineColumn::new(alloc)),
    }
}

/// The lines of each process, superstep by superstep. The columns in which they stood are handed out.
pub fn lines_printed(
    alloc: Global,
    printed: &mut Vec<LineColumn>,
    nprocs: usize,
) -> Result<SharedSeq<Lines>, OutOfMemory>
    ensures { IfOk result (λ each. each ≡ each_below nprocs (lines_in printed.old.items)) }
{
    let all = in_one_column(alloc, printed, nprocs)?;
    let all = Shared::new(alloc, all)?;
    let none = ProcessSet::none(0);
    each_lines(alloc, &[], &none, &all, nprocs)
}
