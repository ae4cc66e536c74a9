//! The lines of a report.

ghost use Rattle.std.specs.Prelude.{◌≡◌, ◌+◌, ◌++◌, ◌*◌, ◌≤◌, OnOk, codes, drop, length};
ghost use Rattle.bsp_text.specs.Lines.{field, fields, line};

use bsp_model::{MemoryRef, OutOfMemory};
use itoa::write_digits;

/// The most bytes of a number of 64 bits, with the space before it.
const FIELD: usize = 21;

/// So many numbers are appended at once.
const FEW: usize = 16;

/// The numbers of most lines are no more than these.
const FEWER: usize = 4;

/// The most bytes of a line's word and its LF, where the line is appended at once.
const FRAME: usize = 17;

/// Writes numbers into a room, each after a space, so that the last ends at `end`. Answers where they begin.
#[inline(always)]
fn write_fields(room: &mut [u8], end: usize, numbers: &[u64]) -> usize
    requires inside { end ≤ length room.old }
    requires fits { 21 * length numbers.now ≤ end }
    ensures before { result ≤ end }
    ensures short { end ≤ result + 21 * length numbers.now }
    ensures written { drop result room.new ≡ fields numbers.now ++ drop end room.old }
{
    let mut at = end;
    let mut left = numbers.len();
    while left > 0 {
        left -= 1;
        at = write_digits(numbers[left], room, at) - 1;
        room[at] = b' ';
    }
    at
}

/// Writes bytes into a room, so that the last ends at `end`. Answers where they begin.
fn write_bytes(room: &mut [u8], end: usize, bytes: &[u8]) -> usize
    requires inside { end ≤ length room.old }
    requires fits { length bytes.now ≤ end }
    ensures before { result + length bytes.now ≡ end }
    ensures written { drop result room.new ≡ bytes.now ++ drop end room.old }
{
    let start = end - bytes.len();
    room[start..end].copy_from_slice(bytes);
    start
}

fn push_written(
    text: &mut Vec<u8>,
    room: &mut [u8],
    word: &[u8],
    numbers: &[u64],
    more: &[u64],
) -> Result<(), OutOfMemory>
    requires { length word.now + 1 + 21 * (length numbers.now + length more.now) ≤ length room.old }
    ensures { OnOk result (text.new.items ≡ text.old.items ++ line word.now (numbers.now ++ more.now)) }
{
    let end = room.len();
    let end = write_bytes(room, end, b"\n");
    let end = write_fields(room, end, more);
    let end = write_fields(room, end, numbers);
    let start = write_bytes(room, end, word);
    text.extend_from_slice(&room[start..])
}

/// Appends a number after a space.
pub fn push_field(text: &mut Vec<u8>, number: u64) -> Result<(), OutOfMemory>
    ensures { OnOk result (text.new.items ≡ text.old.items ++ field number) }
{
    let mut room = [0; FIELD];
    let start = write_fields(&mut room, FIELD, &[number]);
    text.extend_from_slice(&room[start..])
}

/// Appends each number after a space.
pub fn push_fields(text: &mut Vec<u8>, numbers: &[u64]) -> Result<(), OutOfMemory>
    ensures { OnOk result (text.new.items ≡ text.old.items ++ fields numbers.now) }
{
    let mut room = [0; FIELD * FEW];
    let mut at = 0;
    while at < numbers.len() {
        let count = (numbers.len() - at).min(FEW);
        let start = write_fields(&mut room, FIELD * FEW, &numbers[at..at + count]);
        text.extend_from_slice(&room[start..])?;
        at += count;
    }
    Ok(())
}

fn push_in_pieces(
    text: &mut Vec<u8>,
    word: &[u8],
    first: &[u64],
    second: &[u64],
    third: &[u64],
) -> Result<(), OutOfMemory>
    ensures { OnOk result (text.new.items ≡ text.old.items ++ line word.now (first.now ++ second.now ++ third.now)) }
{
    text.extend_from_slice(word)?;
    push_fields(text, first)?;
    push_fields(text, second)?;
    push_fields(text, third)?;
    text.extend_from_slice(b"\n")
}

fn push_parts(
    text: &mut Vec<u8>,
    word: &[u8],
    numbers: &[u64],
    more: &[u64],
) -> Result<(), OutOfMemory>
    ensures { OnOk result (text.new.items ≡ text.old.items ++ line word.now (numbers.now ++ more.now)) }
{
    let count = numbers.len() + more.len();
    if word.len() >= FRAME || count > FEW {
        return push_in_pieces(text, word, &[], numbers, more);
    }
    if count > FEWER {
        let mut room = [0; FRAME + FIELD * FEW];
        return push_written(text, &mut room, word, numbers, more);
    }
    let mut room = [0; FRAME + FIELD * FEWER];
    push_written(text, &mut room, word, numbers, more)
}

/// Appends a line: a word, numbers, and LF.
#[inline]
pub fn push_line(text: &mut Vec<u8>, word: &str, numbers: &[u64]) -> Result<(), OutOfMemory>
    ensures { OnOk result (text.new.items ≡ text.old.items ++ line word.now numbers.now) }
{
    push_parts(text, word.as_bytes(), &[], numbers)
}

/// Appends a line: a word, the numbers of three lists, and LF.
#[inline]
pub fn push_joined_line(
    text: &mut Vec<u8>,
    word: &str,
    first: &[u64],
    second: &[u64],
    third: &[u64],
) -> Result<(), OutOfMemory>
    ensures { OnOk result (text.new.items ≡ text.old.items ++ line word.now (first.now ++ second.now ++ third.now)) }
{
    if second.is_empty() {
        return push_parts(text, word.as_bytes(), first, third);
    }
    push_in_pieces(text, word.as_bytes(), first, second, third)
}

/// Appends a line: the word `memory`, numbers, the words of a memory, and LF.
#[inline]
pub fn push_memory_line(
    text: &mut Vec<u8>,
    numbers: &[u64],
    memory: &MemoryRef<'_>,
) -> Result<(), OutOfMemory>
    ensures { OnOk result (text.new.items ≡ text.old.items ++ line (codes "memory") (numbers.now ++ memory.now)) }
{
    let words = memory.words_from(0);
    if words.len() == memory.len() {
        return push_parts(text, b"memory", numbers, words);
    }
    text.extend_from_slice(b"memory")?;
    push_fields(text, numbers)?;
    let mut address = 0;
    while address < memory.len() {
        let page = memory.words_from(address as u64);
        push_fields(text, page)?;
        address += page.len();
    }
    text.extend_from_slice(b"\n")
}
