//! What is wrong with a document, with a line of a live session, or with a file: a line for whoever wrote it, beside the fault line.

mod batch;
mod reasons;
mod remark;

use crate::asked::document_of;
use crate::catalogue::Catalogue;
use crate::jobs::check;
use crate::tree::value_at;
use batch::tell_batch_fault;
use bsp_model::Input;
use reasons::tell_fault;
pub use remark::Remark;
use std::alloc::Global;
use std::fs;
use std::rt::Files;
use toml::Table;

/// The table of a document. `written` is the document, or the part of it that somebody wrote, to which words in front and an LF behind were added. Where
/// the document is no TOML there is no table, and the place in the written bytes is told.
fn read_table(
    alloc: Global,
    document: &[u8],
    written: &[u8],
    remark: &mut Remark,
) -> Option<Table> {
    let skipped = document.len().saturating_sub(written.len() + 1);
    let text = match std::str::from_utf8(document) {
        Ok(text) => text,
        Err(error) => {
            remark.add_value("byte ", error.valid_up_to().saturating_sub(skipped));
            remark.add(": not UTF-8");
            return None;
        }
    };
    match toml::table_from_str(alloc, text) {
        Ok(table) => Some(table),
        Err(error) => {
            tell_syntax_error(remark, written, skipped, &error);
            None
        }
    }
}

/// Says what is wrong with a document, by its first fault, and where. Of a document that is a job there is nothing to say.
pub fn explain<C: Catalogue, R: Alloc<A = Global> + Eprint>(rt: &R, document: &[u8]) {
    let mut remark = Remark::new(rt.alloc());
    if let Some(table) = read_table(rt.alloc(), document, document, &mut remark)
        && let Err(wrong) = check::<C>(&table)
    {
        tell_fault::<C>(&mut remark, &table, &wrong);
    }
    remark.say(rt);
}

/// Whether the answer to a line is that the line was not read as a batch, or that its batch was refused.
fn is_without_effect(answer: &[u8]) -> bool {
    let Some(end) = answer.iter().position(|byte| *byte == b'\n') else {
        return false;
    };
    let told = &answer[end + 1..];
    told.starts_with(b"unread J") || told.starts_with(b"refused ")
}

/// Says what is wrong with a line of a live session, unless the line had its effect. Given are the answer to the line, and the input after it.
pub fn explain_line<R: Alloc<A = Global> + Eprint>(
    rt: &R,
    line: &[u8],
    answer: &[u8],
    input: &Input,
) {
    if is_without_effect(answer)
        && let Ok(document) = document_of(rt.alloc(), line)
    {
        let mut remark = Remark::new(rt.alloc());
        if let Some(table) = read_table(rt.alloc(), document.as_slice(), line, &mut remark)
            && let Some(value) = value_at(&table, "batch")
        {
            tell_batch_fault(&mut remark, value, input);
        }
        remark.say(rt);
    }
}

pub fn explain_file<R: Alloc<A = Global> + Files + Eprint>(rt: &R, path: &str) {
    let mut remark = Remark::new(rt.alloc());
    remark.add_escaped(path);
    match fs::open(rt, path) {
        Ok(_) => remark.add(": it can't be read"),
        Err(error) => remark.add_value(": ", &error),
    }
    remark.say(rt);
}

/// The line and the column, both from 1, of the place after these bytes of a text. A column counts characters.
fn position_after(before: &[u8]) -> (usize, usize) {
    let mut line = 1usize;
    let mut column = 1usize;
    for byte in before {
        if *byte == b'\n' {
            line = line.saturating_add(1);
            column = 1;
        } else if *byte & 0xC0 != 0x80 {
            column = column.saturating_add(1);
        }
    }
    (line, column)
}

/// Tells where a text is no TOML document, and the first line of the reason. So many bytes stood before the text. Where memory was refused there is no
/// place, and nothing is told.
fn tell_syntax_error(remark: &mut Remark, text: &[u8], skipped: usize, error: &toml::de::Error) {
    let Some(span) = error.span() else {
        return;
    };
    let start = span.start.saturating_sub(skipped).min(text.len());
    let (row, column) = position_after(&text[..start]);
    remark.add_value("line ", row);
    remark.add_value(", column ", column);
    remark.add(": ");
    match error.message().split_once("\n") {
        Some((first, _)) => remark.add_escaped(first),
        None => remark.add_escaped(error.message()),
    }
}
