//! The text of a result: all of it, or its changes against the result before.

ghost use Rattle.std.specs.Prelude.{◌≡◌, ◌++◌, [], Some, false, OnOk, IfOk, option_map, slice_get, unwrap_or};
ghost use Rattle.bsp_engine.specs.Changes.{changes_lines, changes_of, other, other_lines, others, piece_if, same_lines, same_row};
ghost use Rattle.bsp_model.specs.Same.{same_words};
ghost use Rattle.bsp_engine.specs.Inside.Touched.{cost_changes};
ghost use Rattle.bsp_text.specs.Lines.{numbered};
ghost use Rattle.bsp_engine.specs.Text.{cost_line, memory_line, result_lines};
ghost use Rattle.bsp_run.specs.Result.{result_of};

use crate::block_lines::{push_all_lines, push_cost, push_lines, push_status};
use bsp_model::{CostRow, Memories, MemoryRef, OutOfMemory, Same};
use bsp_run::{History, Lines, RunResult};
use bsp_text::{push_line, push_memory_line};

fn item_at<T>(items: &[T], at: usize) -> Option<&T>
    ensures { option_map (λ x. x.now) result ≡ slice_get items.now at }
{
    let item = items.get(at)?;
    Some(item)
}

/// A line `memory`, unless the words are those of before.
pub fn push_other_memory<'a>(
    text: &mut Vec<u8>,
    pid: u64,
    old: Option<MemoryRef<'a>>,
    new: &MemoryRef<'a>,
) -> Result<(), OutOfMemory>
    ensures { OnOk result (text.new.items ≡ text.old.items ++
        piece_if memory_line pid (other same_words old.entry new.now)) }
{
    if let Some(old) = old {
        if new.same(&old) {
            return Ok(());
        }
    }
    push_memory_line(text, &[pid], new)
}

fn memory_at(memories: Option<&Memories>, pid: usize) -> Option<MemoryRef<'_>>
    ensures { result ≡ slice_get (unwrap_or (option_map (λ m. m.now) memories.entry) []) pid }
{
    let memories = memories?;
    if pid >= memories.len() {
        return None;
    }
    Some(memories.get(pid))
}

fn push_other_memories(
    text: &mut Vec<u8>,
    olds: Option<&Memories>,
    news: &Memories,
) -> Result<(), OutOfMemory>
    ensures { OnOk result (text.new.items ≡ text.old.items ++
        numbered (piece_if memory_line) 0
        (others same_words (unwrap_or (option_map (λ m. m.now) olds.entry) []) news.now)) }
{
    for pid in 0..news.len() {
        push_other_memory(text, pid as u64, memory_at(olds, pid), &news.get(pid))?;
    }
    Ok(())
}

/// The lines `print` of a process, or a line `silent` where it printed nothing.
fn push_lines_or_silence(text: &mut Vec<u8>, pid: u64, lines: &Lines) -> Result<(), OutOfMemory>
    ensures { OnOk result (text.new.items ≡ text.old.items ++ other_lines pid lines.now) }
{
    if lines.is_empty() {
        return push_line(text, "silent", &[pid]);
    }
    push_lines(text, pid, lines)
}

pub fn push_other_lines(
    text: &mut Vec<u8>,
    pid: u64,
    old: Option<&Lines>,
    new: &Lines,
) -> Result<(), OutOfMemory>
    ensures { OnOk result (text.new.items ≡ text.old.items ++
        piece_if other_lines pid (other same_lines (option_map (λ l. l.now) old.entry) new.now)) }
{
    let Some(old) = old else {
        return push_lines_or_silence(text, pid, new);
    };
    if new.same(old) {
        return Ok(());
    }
    push_lines_or_silence(text, pid, new)
}

fn push_all_other_lines(
    text: &mut Vec<u8>,
    olds: &[Lines],
    news: &[Lines],
) -> Result<(), OutOfMemory>
    ensures { OnOk result (text.new.items ≡ text.old.items ++
        numbered (piece_if other_lines) 0 (others same_lines olds.now news.now)) }
{
    for (pid, new) in news.iter().enumerate() {
        push_other_lines(text, pid as u64, item_at(olds, pid), new)?;
    }
    Ok(())
}

fn push_other_cost(
    text: &mut Vec<u8>,
    step: u64,
    old: Option<&CostRow>,
    new: &CostRow,
) -> Result<(), OutOfMemory>
    ensures { OnOk result (text.new.items ≡ text.old.items ++
        piece_if cost_line step (other same_row (option_map (λ r. r.now) old.entry) new.now)) }
{
    match old {
        Some(old) if old.work == new.work && old.h == new.h && old.cost == new.cost => Ok(()),
        _ => push_cost(text, step, new),
    }
}

fn push_other_costs(
    text: &mut Vec<u8>,
    olds: &[CostRow],
    news: &[CostRow],
) -> Result<(), OutOfMemory>
    ensures { OnOk result (text.new.items ≡ text.old.items ++
        numbered (piece_if cost_line) 0 (others same_row olds.now news.now)) }
{
    for (step, new) in news.iter().enumerate() {
        push_other_cost(text, step as u64, item_at(olds, step), new)?;
    }
    Ok(())
}

/// The lines `cost` that differ, a line `costs` with the number of supersteps where that differs, and the line `total`.
pub fn push_cost_changes(
    text: &mut Vec<u8>,
    olds: &[CostRow],
    news: &[CostRow],
    total: u64,
) -> Result<(), OutOfMemory>
    ensures { OnOk result (text.new.items ≡ text.old.items ++ cost_changes olds.now news.now total) }
{
    push_other_costs(text, olds, news)?;
    if olds.len() != news.len() {
        push_line(text, "costs", &[news.len() as u64])?;
    }
    push_line(text, "total", &[total])
}

/// Appends the status, the memories, printed lines and costs that differ from the result before, and the total.
pub fn push_changes(text: &mut Vec<u8>, old: &RunResult, new: &RunResult) -> Result<(), OutOfMemory>
    ensures { OnOk result (text.new.items ≡ text.old.items ++ changes_lines (changes_of old.now new.now)) }
{
    push_status(text, &new.status)?;
    push_other_memories(text, Some(&old.memories), &new.memories)?;
    push_all_other_lines(text, old.lines.as_slice(), new.lines.as_slice())?;
    push_cost_changes(text, old.costs.as_slice(), new.costs.as_slice(), new.total)
}

pub fn push_result(text: &mut Vec<u8>, run: &RunResult) -> Result<(), OutOfMemory>
    ensures { OnOk result (text.new.items ≡ text.old.items ++ result_lines run.now) }
{
    push_status(text, &run.status)?;
    push_other_memories(text, None, &run.memories)?;
    push_all_lines(text, run.lines.as_slice())?;
    push_other_costs(text, &[], run.costs.as_slice())?;
    push_line(text, "total", &[run.total])
}

pub fn push_run(text: &mut Vec<u8>, history: &History) -> Result<(), OutOfMemory>
    ensures { OnOk result (text.new.items ≡ text.old.items ++ result_lines (result_of history.now)) }
{
    push_result(text, &history.result()?)
}
