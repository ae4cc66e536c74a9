//! Memories of several pages, and in one piece.

use super::known::is_memory;
use bsp_model::{Change, LocalMemory, Memory, OutOfMemory, Same, TryCopy, Workspace};
use std::alloc::Global;

static ZEROS: [u64; 4_096] = [0; 4_096];

/// The words from 1 on.
fn counted_words() -> [u64; 70] {
    let mut words = [0; 70];
    for i in 0..70 {
        words[i] = i as u64 + 1;
    }
    words
}

/// Whether words are written up to the end, and not past it.
fn is_written(memory: &mut Memory) -> Result<bool, OutOfMemory> {
    let is_taken = memory.store(63, 1)?
        && memory.store(4_095, 2)?
        && memory.write(60, &counted_words())?
        && memory.write(4_096, &[])?;
    let is_past = memory.write(4_095, &[1, 2])?
        || memory.store(4_096, 1)?
        || memory.write(4_097, &[])?;
    Ok(is_taken && !is_past)
}

/// Whether all these words are there, and no other word is.
fn has_written(memory: &Memory) -> bool {
    for address in 0..4_096 {
        let word = match address {
            60..130 => address - 59,
            4_095 => 2,
            _ => 0,
        };
        if memory.load(address) != Some(word) {
            return false;
        }
    }
    memory.load(4_096).is_none()
}

/// Whether a copy changes alone.
fn changes_alone(first: &Memory) -> Result<bool, OutOfMemory> {
    let mut copy = first.copy()?;
    let is_written = is_written(&mut copy);
    let is_changed = has_written(&copy);
    let is_kept = is_memory(&first.as_ref(), &ZEROS);
    drop(copy);
    Ok(is_written? && is_changed && is_kept)
}

fn is_copied(alloc: Global) -> Result<bool, OutOfMemory> {
    let first = Memory::from_words(alloc, &ZEROS)?;
    let changes_alone = changes_alone(&first);
    drop(first);
    Ok(changes_alone?)
}

#[test]
fn a_copy_changes_alone(rt: HostRuntime) {
    assert!(rt; is_copied(rt.alloc()) == Ok(true));
    let none = Memory::from_words(rt.alloc(), &[]);
    assert!(rt; none.is_ok_and(|mut memory| memory.store(0, 1) == Ok(false)));
}

/// The number of pages of a memory, and of the same memory in one piece.
fn pages_of(alloc: Global, words: &[u64]) -> Result<(usize, usize), OutOfMemory> {
    let paged = Memory::from_words(alloc, words)?;
    let whole = paged.as_ref().to_one_piece()?;
    let counts = (paged.count_of_pages(), whole.count_of_pages());
    drop(paged);
    drop(whole);
    Ok(counts)
}

#[test]
fn the_pages_that_stand_are_counted(rt: HostRuntime) {
    assert!(rt; pages_of(rt.alloc(), &ZEROS) == Ok((64, 1)));
    assert!(rt; pages_of(rt.alloc(), &ZEROS[..65]) == Ok((2, 1)));
    assert!(rt; pages_of(rt.alloc(), &[]) == Ok((0, 0)));
}

/// Whether the words of `paged` are the same in one piece, until one of them is stored there.
fn is_in_one_piece(paged: &Memory) -> Result<bool, OutOfMemory> {
    let mut whole = paged.as_ref().to_one_piece()?;
    let is_same = whole.same(paged) && paged.same(&whole);
    let is_stored = whole.store(129, 1)?;
    Ok(is_same && is_stored && !whole.same(paged) && paged.load(129) == Some(0))
}

#[test]
fn one_piece_has_the_words_of_pages(rt: HostRuntime) {
    let paged = Memory::from_words(rt.alloc(), &[0; 130]);
    assert!(rt; paged.is_ok_and(|paged| is_in_one_piece(&paged) == Ok(true)));
}

/// Makes each word 7.
struct Sevens;

impl Change for Sevens {
    ghost use Rattle.std.specs.Prelude.{length, replicate};

    ghost makes = { λ _ words. replicate (length words) 7 };

    fn change(&self, _before: &[u64], after: &mut [u64]) {
        after.fill(7);
    }
}

/// Makes eight words from `start` on 7, if they are there.
fn makes_sevens(local: &mut LocalMemory, start: u64) -> Result<bool, OutOfMemory> {
    let len = local.memory().len() as u64;
    if start > len || 8 > len - start {
        return Ok(false);
    }
    local.change(start, 8, &Sevens)?;
    Ok(true)
}

/// Whether words of one page, of two, and behind a gap are changed, and the memory that shares their pages stays.
fn is_changed(local: &mut LocalMemory, paged: &Memory) -> Result<bool, OutOfMemory> {
    local.begin(&paged.as_ref())?;
    let is_made = makes_sevens(local, 64)? && makes_sevens(local, 60)? && makes_sevens(local, 100)?;
    let is_past = makes_sevens(local, 123)?;
    let memory = local.memory();
    let is_there = memory.load(60) == Some(7)
        && memory.load(71) == Some(7)
        && memory.load(107) == Some(7);
    let is_alone = memory.load(59) == Some(0)
        && memory.load(72) == Some(0)
        && paged.load(71) == Some(0);
    Ok(is_made && !is_past && is_there && is_alone && local.stores().len() == 24)
}

fn is_changed_apart(alloc: Global) -> Result<bool, OutOfMemory> {
    let paged = Memory::from_words(alloc, &[0; 130])?;
    let mut local = LocalMemory::new(alloc);
    let is_changed = is_changed(&mut local, &paged);
    drop(local);
    drop(paged);
    is_changed
}

#[test]
fn a_change_is_made_in_pages_and_behind_gaps(rt: HostRuntime) {
    assert!(rt; is_changed_apart(rt.alloc()) == Ok(true));
}

/// Whether the first change of a turn writes eight words of a memory in one piece, and keeps the words beside them.
fn is_changed_at_first(before: &Memory, workspace: &mut Workspace) -> Result<bool, OutOfMemory> {
    let memory = before.as_ref();
    if memory.len() != 130 {
        return Ok(false);
    }
    workspace.begin(&memory)?;
    workspace.change(&memory, 64, 8, &Sevens)?;
    let after = workspace.local.memory();
    let is_there = after.load(64) == Some(7) && after.load(71) == Some(7);
    let is_alone = after.load(63) == Some(0) && after.load(72) == Some(0);
    Ok(is_there && is_alone && workspace.local.stores().len() == 8 && before.load(64) == Some(0))
}

fn is_changed_in_one_piece(alloc: Global) -> Result<bool, OutOfMemory> {
    let whole = Memory::from_words(alloc, &[0; 130])?
        .as_ref()
        .to_one_piece()?;
    let mut workspace = Workspace::of(alloc, LocalMemory::new(alloc));
    let is_changed = is_changed_at_first(&whole, &mut workspace);
    drop(workspace);
    drop(whole);
    is_changed
}

#[test]
fn a_change_is_made_in_one_piece(rt: HostRuntime) {
    assert!(rt; is_changed_in_one_piece(rt.alloc()) == Ok(true));
}
