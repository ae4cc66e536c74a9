//! Edits, checked and made.

ghost use Rattle.std.specs.Prelude.{◌≡◌, ◌<◌, ℕ, OnOk, OnErr, IfOk, true, length, option_to_list, slice_set};
ghost use Rattle.bsp_incr.specs.Edits.{edit_fault, refusal_of, edited_by, edited};
ghost use Rattle.bsp_incr.specs.Inside.Formers.{restored};

use crate::edit::former::{Former, restore};
use crate::edit::undo::former_of;
use crate::{Edit, EditFault, EditRefusal};
use bsp_model::limits::{HIGHEST_PRICE, MOST_SUPERSTEPS};
use bsp_model::{Input, OutOfMemory, Seq, TryCopy};
use std::alloc::Global;
use std::mem::replace;

fn word_fault(input: &Input, pid: u64, addr: u64) -> Option<EditFault>
    ensures { (value : ℕ) → result ≡ edit_fault input.now (Edit.Word pid addr value) }
{
    let Some(memory) = input.mems.as_slice().get(pid as usize) else {
        return Some(EditFault::NoSuchProcess);
    };
    if addr >= memory.len() as u64 {
        return Some(EditFault::NoSuchWord);
    }
    None
}

fn arg_fault(input: &Input, pid: u64, index: u64) -> Option<EditFault>
    ensures { (value : ℕ) → result ≡ edit_fault input.now (Edit.Arg pid index value) }
{
    if pid >= input.mems.len() as u64 {
        return Some(EditFault::NoSuchProcess);
    }
    let Some(args) = input.args.as_slice().get(pid as usize) else {
        return Some(EditFault::NoSuchArg);
    };
    if index >= args.len() as u64 {
        return Some(EditFault::NoSuchArg);
    }
    None
}

/// Why an edit of this input is refused, if it is. It takes no memory.
fn edit_fault(input: &Input, edit: &Edit) -> Option<EditFault>
    ensures { result ≡ edit_fault input.now edit.now }
{
    match *edit {
        Edit::Word { pid, addr, .. } => word_fault(input, pid, addr),
        Edit::Arg { pid, index, .. } => arg_fault(input, pid, index),
        Edit::Limit(n) if n < 1 || n > MOST_SUPERSTEPS => Some(EditFault::BadLimit),
        Edit::Prices { g, l } if g > HIGHEST_PRICE || l > HIGHEST_PRICE => Some(
            EditFault::BadPrice,
        ),
        _ => None,
    }
}

/// The first refused edit of a batch, if there is one. It takes no memory.
pub fn refusal_of(input: &Input, edits: &[Edit]) -> Option<EditRefusal>
    ensures { result ≡ refusal_of input.now edits.now }
{
    for place in 0..edits.len() {
        let fault = edit_fault(input, &edits[place]);
        if let Some(fault) = fault {
            return Some(EditRefusal { place, fault });
        }
    }
    None
}

/// Whether an edit gives what is there already.
#[tactic(auto, using(crate::proofs::EditParts::former_there))]
fn is_there(input: &Input, edit: &Edit) -> bool
    ensures { result ≡ true → edited_by input.now edit.now ≡ input.now }
{
    former_of(input, edit) == *edit
}

/// Whether each edit of a batch gives what is there already. It takes no memory.
pub fn are_there(input: &Input, edits: &[Edit]) -> bool
    ensures { result ≡ true → edited input.now edits.now ≡ input.now }
{
    for edit in edits {
        if !is_there(input, edit) {
            return false;
        }
    }
    true
}

/// Puts another item at a place, and answers the one that was there. It takes no memory.
fn replace_at<T: Drop>(items: &mut Seq<T>, at: usize, item: T) -> T
    requires { at < length items.old }
    ensures items { items.new ≡ slice_set items.old at item }
    ensures former { slice_set items.new at result ≡ items.old }
{
    let none = Seq::new(items.allocator());
    let mut all = replace(items, none).into_vec();
    let former = replace(&mut all[at], item);
    drop(replace(items, Seq::from_vec(all)));
    former
}

/// Makes an edit of a word, and answers the memory that it replaced, if there is such a process.
fn edit_word(
    input: &mut Input,
    pid: u64,
    addr: u64,
    value: u64,
) -> Result<Option<Former>, OutOfMemory>
    ensures made { OnOk result (input.new ≡ edited_by input.old (Edit.Word pid addr value)) }
    ensures former { IfOk result (λ former. restored input.new (option_to_list former) ≡ input.old) }
    ensures err { OnErr result (input.new ≡ input.old) }
{
    let Some(memory) = input.mems.as_slice().get(pid as usize) else {
        return Ok(None);
    };
    let mut memory = memory.copy()?;
    memory.store(addr, value)?;
    let memory = replace_at(&mut input.mems, pid as usize, memory);
    Ok(Some(Former::Memory { pid, memory }))
}

/// Makes an edit of an argument, and answers the arguments that it replaced, if there is such a process.
fn edit_arg(
    input: &mut Input,
    pid: u64,
    index: u64,
    value: u64,
) -> Result<Option<Former>, OutOfMemory>
    ensures made { OnOk result (input.new ≡ edited_by input.old (Edit.Arg pid index value)) }
    ensures former { IfOk result (λ former. restored input.new (option_to_list former) ≡ input.old) }
    ensures err { OnErr result (input.new ≡ input.old) }
{
    let Some(args) = input.args.as_slice().get(pid as usize) else {
        return Ok(None);
    };
    let mut args = args.copy()?;
    args.set(index as usize, value);
    let args = replace_at(&mut input.args, pid as usize, args);
    Ok(Some(Former::Args { pid, args }))
}

/// Makes an edit, and answers what it replaced. After `OutOfMemory` nothing has changed.
fn make_edit(input: &mut Input, edit: &Edit) -> Result<Option<Former>, OutOfMemory>
    ensures made { OnOk result (input.new ≡ edited_by input.old edit.now) }
    ensures former { IfOk result (λ former. restored input.new (option_to_list former) ≡ input.old) }
    ensures err { OnErr result (input.new ≡ input.old) }
{
    match *edit {
        Edit::Word { pid, addr, value } => edit_word(input, pid, addr, value),
        Edit::Arg { pid, index, value } => edit_arg(input, pid, index, value),
        Edit::Limit(n) => Ok(Some(Former::Limit(replace(&mut input.limit, n)))),
        Edit::Prices { g, l } => {
            let g = replace(&mut input.g, g);
            let l = replace(&mut input.l, l);
            Ok(Some(Former::Prices { g, l }))
        }
    }
}

/// Makes the edits of a batch one after the other, and answers what they replaced, in order. After `OutOfMemory` the input is as before.
pub fn make_edits(
    alloc: Global,
    input: &mut Input,
    edits: &[Edit],
) -> Result<Vec<Former>, OutOfMemory>
    ensures made { OnOk result (input.new ≡ edited input.old edits.now) }
    ensures formers { IfOk result (λ formers. restored input.new formers.items ≡ input.old) }
    ensures err { OnErr result (input.new ≡ input.old) }
{
    let mut formers = Vec::with_capacity(alloc, edits.len())?;
    for edit in edits {
        let former = match make_edit(input, edit) {
            Ok(former) => former,
            Err(error) => {
                restore(input, formers);
                return Err(error);
            }
        };
        if let Some(former) = former {
            formers.push_reserved(former);
        }
    }
    Ok(formers)
}
