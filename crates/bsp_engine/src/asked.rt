//! What a line asks of a live session.

ghost use Rattle.std.specs.Prelude.{◌≡◌, ◌&&◌, ◌++◌, IfOk, Some, codes, not};
ghost use Rattle.std.specs.Str.{bytes_eq};
ghost use Rattle.toml.specs.View.{table_view};
ghost use Rattle.bsp_engine.specs.Asked.{asked_at, asked_of, asked_place, asking_word, asks_for_text, behind_spaces, behind_word, document_of, first_word, is_blank, is_long, is_space, is_word, no_edits, number_of};

use crate::errors::JobError;
use crate::jobs::{ArrayOf, EditForm, fits, has_negative_edit, read_each};
use crate::tree::{elements, read_tree, value_at};
use bsp_incr::{Batch, Place};
use bsp_model::OutOfMemory;
use bsp_model::limits::MOST_DOCUMENT_BYTES;
use std::alloc::{AllocError, Global};
use toml::Table;

#[derive(Drop)]
pub enum Asked {
    Batch(Batch),
    /// To take back the last accepted batch that still stands.
    Undo,
    Nothing(Unread),
}

/// Why a line is answered by nothing but this, and nothing has changed.
#[derive(Clone, Copy)]
pub enum Unread {
    /// J1: it is no TOML value.
    NotToml,
    /// J3: the value is no batch.
    WrongType,
    /// J7: a number of an edit is negative.
    BadWord,
    /// It has more bytes than a document may have.
    TooLong,
    NothingToUndo,
}

fn is_space(byte: u8) -> bool
    ensures { result ≡ is_space byte }
{
    byte == b' ' || byte == b'\t' || byte == b'\r'
}

/// Whether nothing but spaces stands on the line, or a comment alone.
fn is_blank(line: &[u8]) -> bool
    ensures { result ≡ is_blank line.now }
{
    for byte in line {
        if !is_space(*byte) {
            return *byte == b'#';
        }
    }
    true
}

/// Whether the word stands on the line: spaces may stand around it, and a comment behind it.
fn is_word(word: &[u8], line: &[u8]) -> bool
    ensures { result ≡ is_word word.now line.now }
{
    let text = behind_spaces(line);
    text.starts_with(word) && is_blank(&text[word.len()..])
}

/// Whether the line asks by this word alone for a text.
pub fn asks_by_word(word: &[u8], line: &[u8]) -> bool
    ensures { result ≡ (not (is_long line.now) && is_word word.now line.now) }
{
    line.len() <= MOST_DOCUMENT_BYTES && is_word(word, line)
}

/// Whether the line asks by this word, behind which a place stands, for a text.
pub fn asks_of_place(word: &[u8], line: &[u8]) -> bool
    ensures { result ≡ (not (is_long line.now) && bytes_eq (asking_word line.now) word.now) }
{
    line.len() <= MOST_DOCUMENT_BYTES && split_word(behind_spaces(line)).0 == word
}

pub fn asks_for_text(line: &[u8]) -> bool
    ensures { result ≡ asks_for_text line.now }
{
    asks_by_word(b"document", line)
        || asks_by_word(b"help", line)
        || asks_of_place(b"view", line)
        || asks_of_place(b"turn", line)
}

fn key_before(blank: bool) -> &'static [u8]
    ensures { result.now ≡ codes "batch = " ++ no_edits blank }
{
    if blank { b"batch = []" } else { b"batch = " }
}

/// The document that has what stands on the line as its key `batch`.
#[tactic(auto, unfolding(crate::specs::Asked::document_of))]
pub fn document_of(alloc: Global, line: &[u8]) -> Result<Vec<u8>, OutOfMemory>
    ensures { IfOk result (λ document. document.items ≡ document_of line.now) }
{
    let mut document = Vec::new(alloc);
    document.extend_from_slice(key_before(is_blank(line)))?;
    document.extend_from_slice(line)?;
    let ended = document.extend_from_slice(b"\n");
    ended.and(Ok(document))
}

fn asked_at(alloc: Global, table: &Table) -> Result<Asked, OutOfMemory>
    ensures { IfOk result (λ asked. asked ≡ asked_at (Some (table_view table.now))) }
{
    let Some(value) = value_at(table, "batch") else {
        return Ok(Asked::Nothing(Unread::WrongType));
    };
    if !fits::<ArrayOf<EditForm>>(value) {
        return Ok(Asked::Nothing(Unread::WrongType));
    }
    if has_negative_edit(value) {
        return Ok(Asked::Nothing(Unread::BadWord));
    }
    Ok(Asked::Batch(read_each::<EditForm>(alloc, elements(value))?))
}

/// What a line without its LF asks.
#[tactic(auto, unfolding(crate::specs::Asked::asked_of))]
pub fn asked_of(alloc: Global, line: &[u8]) -> Result<Asked, OutOfMemory>
    ensures { IfOk result (λ asked. asked ≡ asked_of line.now) }
{
    if line.len() > MOST_DOCUMENT_BYTES {
        return Ok(Asked::Nothing(Unread::TooLong));
    }
    if is_word(b"undo", line) {
        return Ok(Asked::Undo);
    }
    let document = document_of(alloc, line)?;
    match read_tree(alloc, document.as_slice()) {
        Ok(table) => asked_at(alloc, &table),
        Err(JobError::Fault(_)) => Ok(Asked::Nothing(Unread::NotToml)),
        Err(JobError::OutOfMemory) => Err(AllocError),
    }
}

fn behind_spaces(text: &[u8]) -> &[u8]
    ensures { result.now ≡ behind_spaces text.now }
{
    for (at, byte) in text.iter().enumerate() {
        if !is_space(*byte) {
            return &text[at..];
        }
    }
    &[]
}

fn split_word(text: &[u8]) -> (&[u8], &[u8])
    ensures word { result.0.now ≡ first_word text.now }
    ensures rest { result.1.now ≡ behind_word text.now }
{
    for (at, byte) in text.iter().enumerate() {
        if is_space(*byte) || *byte == b'#' {
            return text.split_at(at);
        }
    }
    (text, &[])
}

fn number_of(word: &[u8]) -> Option<u64>
    ensures { result ≡ number_of word.now }
{
    if word.is_empty() {
        return None;
    }
    let mut number: u64 = 0;
    for byte in word {
        if !byte.is_ascii_digit() {
            return None;
        }
        let tens = number.checked_mul(10)?;
        number = tens.checked_add(u64::from(*byte - b'0'))?;
    }
    Some(number)
}

/// The place that stands behind the first word of a line.
pub fn asked_place(line: &[u8]) -> Option<Place>
    ensures { result ≡ asked_place line.now }
{
    let (_, rest) = split_word(behind_spaces(line));
    let (first, rest) = split_word(behind_spaces(rest));
    let step = number_of(first)?;
    let (second, rest) = split_word(behind_spaces(rest));
    let pid = number_of(second)?;
    if !is_blank(rest) {
        return None;
    }
    Some(Place { step, pid })
}
