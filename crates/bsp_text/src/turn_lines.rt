//! The lines of what a process saw in a superstep, and of what its turn left.

ghost use Rattle.std.specs.Prelude.{◌≡◌, ◌≤◌, ◌++◌, OnOk, length, slice_range};
ghost use Rattle.std.specs.List.{flat_map};
ghost use Rattle.bsp_model.specs.StoredRanges.{ranges_stored};
ghost use Rattle.bsp_model.specs.Stores.{words_stored};
ghost use Rattle.bsp_text.specs.Lines.{fields, line, numbered};
ghost use Rattle.bsp_text.specs.TurnLines.{ended_line, get_line, pop_line, printed_line, push_area_line, put_line, request_lines, send_line, store_lines, turn_block};
ghost use Rattle.bsp_text.specs.FaultWords.{fault_numbers, fault_word};
ghost use Rattle.bsp_text.specs.ViewLines.{message_line, slot_line, view_block};

use crate::lines::{push_field, push_fields, push_joined_line, push_line, push_memory_line};
use bsp_model::{Fault, OutOfMemory, StoresRef};
use bsp_step::{Ended, OutcomeRef, View};

fn push_ended(text: &mut Vec<u8>, fault: Option<Fault>, ended: Ended) -> Result<(), OutOfMemory>
    ensures { OnOk result (text.new.items ≡ text.old.items ++ ended_line fault ended) }
{
    if let Some(fault) = fault {
        text.extend_from_slice(b"fault ")?;
        return push_fault(text, fault);
    }
    match ended {
        Ended::Sync => text.extend_from_slice(b"ended sync\n"),
        Ended::Halt => text.extend_from_slice(b"ended halt\n"),
    }
}

fn push_stores(text: &mut Vec<u8>, stores: &StoresRef<'_>) -> Result<(), OutOfMemory>
    ensures { OnOk result (text.new.items ≡ text.old.items ++ store_lines (ranges_stored stores.now)
        (words_stored stores.now)) }
{
    let words = stores.to_words(*text.allocator())?;
    let mut from = 0;
    for range in stores.ranges() {
        text.extend_from_slice(b"store")?;
        push_field(text, range.start)?;
        push_fields(text, &words[from..from + range.len])?;
        text.extend_from_slice(b"\n")?;
        from += range.len;
    }
    Ok(())
}

fn push_requests(text: &mut Vec<u8>, turn: &OutcomeRef<'_>) -> Result<(), OutOfMemory>
    ensures { OnOk result (text.new.items ≡ text.old.items ++ request_lines turn.now) }
{
    for index in 0..turn.puts.len() {
        let put = turn.puts.at(index);
        push_joined_line(text, "put", &[put.target, put.start], &[], put.words)?;
    }
    for get in turn.gets {
        push_line(text, "get", &[get.owner, get.start, get.len, get.into])?;
    }
    for place in 0..turn.sends.len() {
        let send = turn.sends.at(place);
        let numbers = [send.target, send.tag.len() as u64];
        push_joined_line(text, "send", &numbers, send.tag, send.words)?;
    }
    for area in turn.pushes {
        push_line(text, "push", &[area.start, area.len])?;
    }
    for slot in turn.pops {
        push_line(text, "pop", &[*slot as u64])?;
    }
    match turn.tag {
        Some(size) => push_line(text, "tagsize", &[size]),
        None => Ok(()),
    }
}

/// Appends the lines of an outcome between the lines `turn S P` and `end`.
pub fn push_turn(
    text: &mut Vec<u8>,
    step: u64,
    pid: u64,
    turn: &OutcomeRef<'_>,
) -> Result<(), OutOfMemory>
    ensures { OnOk result (text.new.items ≡ text.old.items ++ turn_block step pid turn.now) }
{
    push_line(text, "turn", &[step, pid])?;
    push_ended(text, turn.fault, turn.ended)?;
    push_stores(text, &turn.stores)?;
    push_requests(text, turn)?;
    for place in 0..turn.lines.len() {
        push_line(text, "print", turn.lines.row(place))?;
    }
    push_line(text, "work", &[turn.work])?;
    text.extend_from_slice(b"end\n")
}

fn fault_word(fault: Fault) -> &'static str
    ensures { result.now ≡ fault_word fault }
{
    match fault {
        Fault::Abort(_) => "F1",
        Fault::BadPid(_) => "F2",
        Fault::NotRegistered(_) => "F3",
        Fault::OutOfArea => "F4",
        Fault::BadLocal => "F5",
        Fault::TagLength => "F6",
        Fault::EmptyQueue => "F7",
        Fault::TooManyRequests => "F8",
        Fault::WorkLimit => "F9",
        Fault::LineLimit => "F10",
        Fault::TooLong => "F11",
        Fault::BadTagSize => "F12",
    }
}

/// Appends the number of a fault, and the number that belongs to it.
pub fn push_fault(text: &mut Vec<u8>, fault: Fault) -> Result<(), OutOfMemory>
    ensures { OnOk result (text.new.items ≡ text.old.items ++ line (fault_word fault) (fault_numbers fault)) }
{
    let word = fault_word(fault);
    match fault {
        Fault::Abort(number) | Fault::BadPid(number) | Fault::NotRegistered(number) => {
            push_line(text, word, &[number])
        }
        _ => push_line(text, word, &[]),
    }
}

/// Appends the lines of a view between the lines `view S P` and `end`.
pub fn push_view(
    text: &mut Vec<u8>,
    step: u64,
    pid: u64,
    view: &View<'_>,
) -> Result<(), OutOfMemory>
    ensures { OnOk result (text.new.items ≡ text.old.items ++ view_block step pid view.now) }
{
    push_line(text, "view", &[step, pid])?;
    push_line(text, "args", view.args)?;
    push_memory_line(text, &[], &view.memory)?;
    for place in 0..view.queue.len() {
        let message = view.queue.at(place);
        let size = message.tag.len() as u64;
        push_joined_line(text, "message", &[size], message.tag, message.words)?;
    }
    for slot in 0..view.table.len() {
        let area = view.table.area(slot, view.pid);
        push_line(text, "slot", &[slot as u64, area.start, area.len])?;
    }
    push_line(text, "tagsize", &[view.tag_size])?;
    text.extend_from_slice(b"end\n")
}
