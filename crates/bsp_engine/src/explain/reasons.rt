//! What is wrong with a document that is TOML, in words.

use super::remark::Remark;
use crate::catalogue::Catalogue;
use crate::errors::{EngineError, JobFault};
use crate::jobs::{Wrong, count_of_args};
use crate::tree::{elements, elements_at, integer_at};
use bsp_model::InputFault;
use bsp_model::limits::{
    HIGHEST_PRICE, MOST_ARGUMENTS, MOST_MEMORY_WORDS, MOST_PROCESSES, MOST_SUPERSTEPS,
};
use toml::Table;

/// Tells the key, and where in its value the fault is. Batches count from 1, as their blocks do.
fn tell_place(remark: &mut Remark, wrong: &Wrong<'_>) {
    remark.add_escaped(wrong.key);
    let Some(outer) = wrong.path.outer else {
        return;
    };
    if wrong.key != "batches" {
        return remark.add_value(", process ", outer);
    }
    remark.add_value(", batch ", outer.saturating_add(1));
    if let Some(edit) = wrong.path.inner {
        remark.add_value(", edit ", edit);
    }
}

/// Which shape is missing: that of the value at a key which every document may have, of one of its elements, or of an element of that element.
fn shape_reason(wrong: &Wrong<'_>) -> &'static str {
    match (wrong.key, wrong.path.outer, wrong.path.inner) {
        ("limit" | "g" | "l", _, _) => "not an integer",
        ("memory" | "args", None, _) => "not an array of arrays of integers",
        ("memory" | "args", Some(_), _) => "not an array of integers",
        (_, None, _) => "not an array of batches",
        (_, Some(_), None) => "not an array of edits",
        (_, Some(_), Some(_)) => "not an edit",
    }
}

fn tell_words(remark: &mut Remark, table: &Table, wrong: &Wrong<'_>, most: usize) {
    if let Some(row) = elements_at(table, wrong.key).get(wrong.path.outer.unwrap_or(0)) {
        remark.add_value("", elements(row).len());
        remark.add_value(" words, at most ", most);
    }
}

fn tell_size(remark: &mut Remark, table: &Table, wrong: &Wrong<'_>, fault: InputFault) {
    let number = integer_at(table, wrong.key).unwrap_or(0);
    let processes = elements_at(table, "memory").len();
    match fault {
        InputFault::NoProcess => remark.add("0 processes, at least 1"),
        InputFault::TooMany => {
            remark.add_value("", processes);
            remark.add_value(" processes, at most ", MOST_PROCESSES);
        }
        InputFault::LengthsDiffer => {
            remark.add_value("", count_of_args(table, processes));
            remark.add_value(" lists for ", processes);
            remark.add(" processes");
        }
        InputFault::MemoryTooLong => tell_words(remark, table, wrong, MOST_MEMORY_WORDS),
        InputFault::ArgsTooLong => tell_words(remark, table, wrong, MOST_ARGUMENTS),
        InputFault::BadLimit => remark.add_limits(number, 1, MOST_SUPERSTEPS),
        InputFault::BadPrice => remark.add_limits(number, 0, HIGHEST_PRICE),
    }
}

pub fn tell_fault<C: Catalogue>(remark: &mut Remark, table: &Table, wrong: &Wrong<'_>) {
    if let Some((_, number)) = EngineError::Job(wrong.fault).line().split_once("J6 ") {
        remark.add(number);
        remark.add(", ");
    }
    tell_place(remark, wrong);
    if wrong.fault == JobFault::WrongType && C::is_key(wrong.key) {
        return C::tell_misfit(table, remark);
    }
    remark.add(": ");
    match wrong.fault {
        JobFault::Input(fault) => tell_size(remark, table, wrong, fault),
        JobFault::MissingKey => remark.add("this key is missing"),
        JobFault::WrongType => remark.add(shape_reason(wrong)),
        JobFault::UnknownKey => remark.add("there is no such key"),
        JobFault::UnknownProgram => {
            remark.add("there is no such program");
            if !C::names().is_empty() {
                remark.add_value("; this tool has ", C::names());
            }
        }
        JobFault::BadWord => remark.add("a negative number"),
        JobFault::NotToml => remark.add("not TOML"),
    }
}
