//! The lines of a block, one function for each kind.

ghost use Rattle.std.specs.Prelude.{◌≡◌, ◌++◌, OnOk, codes, length};
ghost use Rattle.bsp_text.specs.Lines.{field, line, numbered};
ghost use Rattle.bsp_engine.specs.Text.{process_fault_line, sync_fault_word, status_lines, print_lines, cost_line, update_places, counts_line, edit_fault_word, refusal_line};
ghost use Rattle.bsp_engine.specs.Places.{place_lines};
ghost use Rattle.bsp_engine.specs.Inside.Places.{place_after};
ghost use Rattle.bsp_engine.specs.Live.{unread_line, unread_word};

use crate::asked::Unread;
use bsp_incr::{EditFault, EditRefusal, Place, Update};
use bsp_model::{CostRow, OutOfMemory, SyncFault};
use bsp_run::{Lines, ProcessFault, Status};
use bsp_text::{push_fault, push_field, push_joined_line, push_line};

fn push_parted_line(
    text: &mut Vec<u8>,
    word: &str,
    number: u64,
    second: &str,
    numbers: &[u64],
) -> Result<(), OutOfMemory>
    ensures { OnOk result (text.new.items ≡ text.old.items ++ (word.now ++ field number ++ codes " "
        ++ line second.now numbers.now)) }
{
    begin_line(text, word, number)?;
    text.push(b' ')?;
    push_line(text, second, numbers)
}

fn push_faulted(text: &mut Vec<u8>, step: u64, faults: &[ProcessFault]) -> Result<(), OutOfMemory>
    ensures { OnOk result (text.new.items ≡ text.old.items ++ status_lines (Status.Faulted step faults.now)) }
{
    push_line(text, "status faulted", &[step])?;
    for fault in faults {
        begin_line(text, "fault", fault.pid)?;
        text.push(b' ')?;
        push_fault(text, fault.fault)?;
    }
    Ok(())
}

fn sync_fault_word(fault: SyncFault) -> &'static str
    ensures { result.now ≡ sync_fault_word fault }
{
    match fault {
        SyncFault::MixedEnd => "S1",
        SyncFault::TagMismatch => "S2",
        SyncFault::PopMismatch => "S3",
        SyncFault::PushMismatch => "S4",
        SyncFault::TooManySlots => "S5",
    }
}

pub fn push_status(text: &mut Vec<u8>, status: &Status) -> Result<(), OutOfMemory>
    ensures { OnOk result (text.new.items ≡ text.old.items ++ status_lines status.now) }
{
    match status {
        Status::Halted => text.extend_from_slice(b"status halted\n"),
        Status::Limit => text.extend_from_slice(b"status limit\n"),
        Status::Faulted { step, faults } => push_faulted(text, *step, faults.as_slice()),
        Status::SyncFaulted { step, fault } => {
            push_parted_line(
                text,
                "status syncfault",
                *step,
                sync_fault_word(*fault),
                &[],
            )
        }
    }
}

pub fn push_lines(text: &mut Vec<u8>, pid: u64, lines: &Lines) -> Result<(), OutOfMemory>
    ensures { OnOk result (text.new.items ≡ text.old.items ++ print_lines pid lines.now) }
{
    for place in 0..lines.len() {
        push_joined_line(text, "print", &[pid], &[], lines.row(place))?;
    }
    Ok(())
}

pub fn push_all_lines(text: &mut Vec<u8>, lines: &[Lines]) -> Result<(), OutOfMemory>
    ensures { OnOk result (text.new.items ≡ text.old.items ++ numbered print_lines 0 lines.now) }
{
    for (pid, lines) in lines.iter().enumerate() {
        push_lines(text, pid as u64, lines)?;
    }
    Ok(())
}

pub fn push_cost(text: &mut Vec<u8>, step: u64, row: &CostRow) -> Result<(), OutOfMemory>
    ensures { OnOk result (text.new.items ≡ text.old.items ++ cost_line step row.now) }
{
    push_line(text, "cost", &[step, row.work, row.h, row.cost])
}

pub fn push_update_places(
    text: &mut Vec<u8>,
    places: bool,
    update: &Update,
) -> Result<(), OutOfMemory>
    ensures { OnOk result (text.new.items ≡ text.old.items ++ update_places places update.now) }
{
    if !places {
        return Ok(());
    }
    push_places(text, "turns", update.executed.as_slice())?;
    push_places(text, "deliveries", update.redelivered.as_slice())
}

pub fn push_counts(text: &mut Vec<u8>, update: &Update) -> Result<(), OutOfMemory>
    ensures { OnOk result (text.new.items ≡ text.old.items ++ counts_line (length update.now.executed)
        (length update.now.redelivered)) }
{
    let executed = update.executed.len() as u64;
    let redelivered = update.redelivered.len() as u64;
    push_parted_line(text, "executed", executed, "redelivered", &[redelivered])
}

fn refusal_words(fault: EditFault) -> &'static str
    ensures { result.now ≡ codes "refused " ++ edit_fault_word fault ++ codes " at" }
{
    match fault {
        EditFault::NoSuchProcess => "refused E1 at",
        EditFault::NoSuchWord => "refused E2 at",
        EditFault::NoSuchArg => "refused E3 at",
        EditFault::BadLimit => "refused E4 at",
        EditFault::BadPrice => "refused E5 at",
    }
}

pub fn push_refusal(text: &mut Vec<u8>, refusal: EditRefusal) -> Result<(), OutOfMemory>
    ensures { OnOk result (text.new.items ≡ text.old.items ++ refusal_line refusal) }
{
    push_line(text, refusal_words(refusal.fault), &[refusal.place as u64])
}

pub fn begin_line(text: &mut Vec<u8>, word: &str, number: u64) -> Result<(), OutOfMemory>
    ensures { OnOk result (text.new.items ≡ text.old.items ++ (word.now ++ field number)) }
{
    text.extend_from_slice(word.as_bytes())?;
    push_field(text, number)
}

fn push_place(text: &mut Vec<u8>, word: &str, step: u64, place: &Place) -> Result<(), OutOfMemory>
    ensures { OnOk result (text.new.items ≡ text.old.items ++ place_after word.now step place.now) }
{
    if place.step != step {
        text.push(b'\n')?;
        begin_line(text, word, place.step)?;
    }
    push_field(text, place.pid)
}

fn push_places(text: &mut Vec<u8>, word: &str, places: &[Place]) -> Result<(), OutOfMemory>
    ensures { OnOk result (text.new.items ≡ text.old.items ++ place_lines word.now places.now) }
{
    let Some(first) = places.first() else {
        return Ok(());
    };
    let mut step = first.step;
    begin_line(text, word, step)?;
    for place in places {
        push_place(text, word, step, place)?;
        step = place.step;
    }
    text.extend_from_slice(b"\n")
}

fn unread_words(unread: Unread) -> &'static str
    ensures { result.now ≡ codes "unread " ++ unread_word unread }
{
    match unread {
        Unread::NotToml => "unread J1",
        Unread::WrongType => "unread J3",
        Unread::BadWord => "unread J7",
        Unread::TooLong => "unread long",
        Unread::NothingToUndo => "unread undo",
    }
}

pub fn push_unread(text: &mut Vec<u8>, unread: Unread) -> Result<(), OutOfMemory>
    ensures { OnOk result (text.new.items ≡ text.old.items ++ unread_line unread) }
{
    push_line(text, unread_words(unread), &[])
}
