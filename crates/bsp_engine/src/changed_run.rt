//! The changes of the run after a batch against the run before it.

ghost use Rattle.std.specs.Prelude.{◌≡◌, ◌≤◌, ◌++◌, false, length, OnOk, slice_get};
ghost use Rattle.bsp_run.specs.Result.{lines_of, memories_of, result_of};
ghost use Rattle.bsp_engine.specs.Changes.{changes_lines, changes_of, other_lines, others, piece_if, same_lines};
ghost use Rattle.bsp_model.specs.Same.{same_words};
ghost use Rattle.bsp_text.specs.Lines.{numbered};
ghost use Rattle.bsp_engine.specs.Text.{memory_line};
ghost use Rattle.bsp_engine.specs.Inside.Touched.{AreSameOutside, IsUpdateBetween, compared_processes, piece_there};
ghost use Rattle.bsp_engine.specs.Untouched.{at_limit, end_alike};

use crate::block_lines::push_status;
use crate::change_lines::{push_cost_changes, push_other_lines, push_other_memory};
use bsp_incr::{Edit, Update, add_place_processes, add_word_processes};
use bsp_model::limits::MOST_PROCESSES;
use bsp_model::{OutOfMemory, ProcessSet};
use bsp_run::{History, Status};

fn is_at_limit(status: &Status) -> bool
    ensures { result ≡ at_limit status.now }
{
    match status {
        Status::Limit => true,
        Status::Halted | Status::Faulted { .. } | Status::SyncFaulted { .. } => false,
    }
}

/// Whether two runs have as many supersteps, and both or neither ended at the limit.
fn end_alike(old: &History, new: &History) -> bool
    ensures { result ≡ end_alike (result_of old.now) (result_of new.now) }
{
    if old.costs().len() != new.costs().len() {
        return false;
    }
    is_at_limit(old.status()) == is_at_limit(new.status())
}

/// The processes whose memories and lines are compared: those that the update touches, or all where the runs do not end alike.
fn compared_processes(
    nprocs: usize,
    old: &History,
    new: &History,
    batch: &[Edit],
    update: &Update,
) -> ProcessSet
    requires few { nprocs ≤ MOST_PROCESSES }
    requires count { nprocs ≡ length (result_of old.now).memories }
    ensures { result ≡ compared_processes (result_of old.now) (result_of new.now) batch.now update.now }
{
    if !end_alike(old, new) {
        return ProcessSet::all(nprocs);
    }
    let mut touched = ProcessSet::none(nprocs);
    add_word_processes(&mut touched, batch);
    add_place_processes(&mut touched, update.executed.as_slice());
    add_place_processes(&mut touched, update.redelivered.as_slice());
    touched
}

fn push_memory_if(
    text: &mut Vec<u8>,
    old: &History,
    new: &History,
    pid: u64,
    is_compared: bool,
) -> Result<(), OutOfMemory>
    requires { is_compared ≡ false → slice_get (memories_of old.now) pid ≡ slice_get (memories_of new.now) pid }
    ensures { OnOk result (text.new.items ≡ text.old.items ++
        piece_there memory_line same_words (memories_of old.now) (memories_of new.now) pid) }
{
    if !is_compared {
        return Ok(());
    }
    match new.memory(pid) {
        Some(memory) => push_other_memory(text, pid, old.memory(pid), &memory),
        None => Ok(()),
    }
}

fn push_changed_memories(
    text: &mut Vec<u8>,
    old: &History,
    new: &History,
    compared: &ProcessSet,
) -> Result<(), OutOfMemory>
    requires { AreSameOutside compared.now (memories_of old.now) (memories_of new.now) }
    ensures { OnOk result (text.new.items ≡ text.old.items ++
        numbered (piece_if memory_line) 0 (others same_words (memories_of old.now) (memories_of new.now))) }
{
    for pid in 0..compared.count() {
        push_memory_if(text, old, new, pid as u64, compared.contains(pid))?;
    }
    Ok(())
}

fn push_lines_if(
    text: &mut Vec<u8>,
    old: &History,
    new: &History,
    pid: u64,
    is_compared: bool,
) -> Result<(), OutOfMemory>
    requires { is_compared ≡ false → slice_get (lines_of old.now) pid ≡ slice_get (lines_of new.now) pid }
    ensures { OnOk result (text.new.items ≡ text.old.items ++
        piece_there other_lines same_lines (lines_of old.now) (lines_of new.now) pid) }
{
    if !is_compared {
        return Ok(());
    }
    match new.lines(pid) {
        Some(lines) => push_other_lines(text, pid, old.lines(pid), lines),
        None => Ok(()),
    }
}

fn push_changed_lines(
    text: &mut Vec<u8>,
    old: &History,
    new: &History,
    compared: &ProcessSet,
) -> Result<(), OutOfMemory>
    requires { AreSameOutside compared.now (lines_of old.now) (lines_of new.now) }
    ensures { OnOk result (text.new.items ≡ text.old.items ++
        numbered (piece_if other_lines) 0 (others same_lines (lines_of old.now) (lines_of new.now))) }
{
    for pid in 0..compared.count() {
        push_lines_if(text, old, new, pid as u64, compared.contains(pid))?;
    }
    Ok(())
}

/// Appends the changes of the run after a batch against the run before it. The processes that the update touches are compared alone. Where the runs do
/// not end alike, all processes are compared.
pub fn push_changed(
    text: &mut Vec<u8>,
    nprocs: usize,
    old: &History,
    new: &History,
    batch: &[Edit],
    update: &Update,
) -> Result<(), OutOfMemory>
    requires count { nprocs ≡ length (result_of old.now).memories }
    requires update { IsUpdateBetween old.now batch.now update.now new.now }
    ensures { OnOk result (text.new.items ≡ text.old.items ++ changes_lines (changes_of (result_of old.now)
        (result_of new.now))) }
{
    let compared = compared_processes(nprocs, old, new, batch, update);
    push_status(text, new.status())?;
    push_changed_memories(text, old, new, &compared)?;
    push_changed_lines(text, old, new, &compared)?;
    push_cost_changes(text, old.costs(), new.costs(), new.total())
}
