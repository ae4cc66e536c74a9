//! What is wrong with the value on a line of a live session, in words: it is no batch, or its batch was refused.

use super::remark::Remark;
use crate::jobs::{ArrayOf, Each, EditForm, NotNegative, Shape, edit_in};
use crate::tree::elements;
use bsp_incr::Edit;
use bsp_model::Input;
use bsp_model::limits::{HIGHEST_PRICE, MOST_SUPERSTEPS};
use toml::Value;

fn word_of(edit: &Value) -> Option<&str> {
    elements(edit).first()?.as_str()
}

/// Tells nothing but which of the edits it is. They count from 0, as in `refused`.
fn name_edit(remark: &mut Remark, edit: &Value, place: usize) {
    remark.line.clear();
    if let Some(word) = word_of(edit) {
        remark.add_escaped(word);
        remark.add(", ");
    }
    remark.add_value("edit ", place);
    remark.add(": ");
}

/// Which form the value has not.
fn form_reason(edit: &Value) -> &'static str {
    let Some(word) = word_of(edit) else {
        return "not an edit";
    };
    let (count, wanted) = match word {
        "word" | "arg" => (4, "four values wanted"),
        "prices" => (3, "three values wanted"),
        "limit" => (2, "two values wanted"),
        _ => return "there is no such edit",
    };
    if elements(edit).len() == count {
        "not an integer"
    } else {
        wanted
    }
}

/// Tells how many parts of a kind a process has, where none of them is at this place. Where there is no such process, it tells how many there are.
fn tell_part(
    remark: &mut Remark,
    input: &Input,
    pid: u64,
    kind: &str,
    count: Option<usize>,
    place: u64,
) {
    match count {
        None => {
            remark.add_value("there are ", input.mems.len());
            remark.add(" processes");
        }
        Some(count) if place >= count as u64 => {
            remark.add_value("process ", pid);
            remark.add_value(" has ", count);
            remark.add(kind);
        }
        Some(_) => {}
    }
}

fn tell_refusal(remark: &mut Remark, input: &Input, edit: Edit) {
    match edit {
        Edit::Word { pid, addr, .. } => {
            let memory = input.mems.as_slice().get(pid as usize);
            let count = memory.map(|memory| memory.len());
            tell_part(remark, input, pid, " words", count, addr);
        }
        Edit::Arg { pid, index, .. } => {
            let args = input.args.as_slice().get(pid as usize);
            let count = args.map(|args| args.len());
            tell_part(remark, input, pid, " arguments", count, index);
        }
        Edit::Limit(n) if n == 0 || n > MOST_SUPERSTEPS => {
            remark.add_limits(n, 1, MOST_SUPERSTEPS);
        }
        Edit::Prices { g, .. } if g > HIGHEST_PRICE => remark.add_limits(g, 0, HIGHEST_PRICE),
        Edit::Prices { l, .. } if l > HIGHEST_PRICE => remark.add_limits(l, 0, HIGHEST_PRICE),
        Edit::Limit(_) | Edit::Prices { .. } => {}
    }
}

fn tell_first_refusal(remark: &mut Remark, edits: &[Value], input: &Input) {
    for (place, edit) in edits.iter().enumerate() {
        name_edit(remark, edit, place);
        let named = remark.line.len();
        tell_refusal(remark, input, edit_in(elements(edit)));
        if named < remark.line.len() {
            return;
        }
    }
    remark.line.clear();
}

fn tell_edit(remark: &mut Remark, edits: &[Value], place: usize, reason: Option<&str>) {
    if let Some(edit) = edits.get(place) {
        name_edit(remark, edit, place);
        remark.add(reason.unwrap_or(form_reason(edit)));
    }
}

pub fn tell_batch_fault(remark: &mut Remark, value: &Value, input: &Input) {
    let edits = elements(value);
    if let Some(path) = ArrayOf::<EditForm>::misfit(value) {
        match path.outer {
            Some(place) => tell_edit(remark, edits, place, None),
            None => remark.add("not an array of edits"),
        }
    } else if let Some(path) = Each::<Each<NotNegative>>::misfit(value) {
        let place = path.outer.unwrap_or(0);
        tell_edit(remark, edits, place, Some("a negative number"));
    } else {
        tell_first_refusal(remark, edits, input);
    }
}
