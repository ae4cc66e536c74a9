//! Whether the recorded turn of a view serves for another view.

ghost use Rattle.std.specs.Prelude.{◌≡◌, ℕ, ◌+◌, ◌≤◌, ◌<◌, ◌↔◌, IsTrue, true, length, slice_index, slice_index_or};
ghost use Rattle.bsp_step.specs.Footprint.{AreAlikeButForWords, same_where_looked_at};
ghost use Rattle.bsp_run.specs.Condition.{no_view};
ghost use Rattle.bsp_incr.specs.Inside.Reuse.{serves};

use bsp_model::limits::MOST_MEMORY_WORDS;
use bsp_model::{MemoryRef, Same, are_same_words};
use bsp_run::Views;
use bsp_step::{Program, View};
use bsp_table::Table;

/// Fewer words are compared one by one.
const WORDS_WORTH_COMPARING: usize = 16;

/// Whether a view has this table and this tag size.
pub fn has_table(view: &View<'_>, table: &Table, tag_size: u64) -> bool
    ensures { IsTrue result ↔ ((view.now.table ≡ table.now) × (view.now.tag_size ≡ tag_size)) }
{
    view.table.same(table) && view.tag_size == tag_size
}

/// Whether two views are equal but for the words of their memories. The tables need not be compared where they are known to be the same.
#[inline(always)]
fn is_alike_but_for_words(old: &View<'_>, new: &View<'_>, same_table: bool) -> bool
    requires { same_table ≡ true → old.now.table ≡ new.now.table }
    ensures { IsTrue result ↔ AreAlikeButForWords old.now new.now }
{
    old.nprocs == new.nprocs
        && old.pid == new.pid
        && old.step == new.step
        && are_same_words(old.args, new.args)
        && (same_table || old.table.same(new.table))
        && old.tag_size == new.tag_size
        && old.queue.same(&new.queue)
        && old.memory.len() == new.memory.len()
}

/// Whether words of two views are equal at each address at which the program looks. The first of them are at the address `first`.
#[inline(always)]
fn are_alike_from<P: Program>(
    program: &P,
    view: &View<'_>,
    first: u64,
    old: &[u64],
    new: &[u64],
) -> bool
    requires as_many { length old.now ≡ length new.now }
    requires short { first + length old.now ≤ MOST_MEMORY_WORDS }
    ensures { IsTrue result ↔ ((i : ℕ) → i < length old.now → IsTrue (P.looks program.now view.now (first + i))
        → slice_index old.now i ≡ slice_index new.now i) }
{
    if old.len() >= WORDS_WORTH_COMPARING && are_same_words(old, new) {
        return true;
    }
    for i in 0..old.len() {
        if old[i] != new[i] && program.looks(view, first + i as u64) {
            return false;
        }
    }
    true
}

/// Whether the words of a view are those of another memory at each address at which the program looks.
#[inline(always)]
fn is_alike_where_looked_at<P: Program>(program: &P, old: &View<'_>, new: &MemoryRef<'_>) -> bool
    requires { length old.now.memory ≡ length new.now }
    ensures { result ≡ same_where_looked_at (P.looks program.now old.now) old.now.memory new.now }
{
    if let Some(before) = old.memory.in_one_piece()
        && let Some(after) = new.in_one_piece()
    {
        return are_alike_from(program, old, 0, before, after);
    }
    let mut address = 0;
    while address < old.memory.len() as u64 {
        let before = old.memory.words_from(address);
        let after = new.words_from(address);
        if !are_alike_from(program, old, address, before, after) {
            return false;
        }
        address += before.len() as u64;
    }
    true
}

/// Whether a memory has the words of a view wherever the program looks, as the program tells at once, or word by word.
#[inline(always)]
fn sees_same<P: Program>(program: &P, old: &View<'_>, new: &MemoryRef<'_>) -> bool
    requires { length old.now.memory ≡ length new.now }
    ensures { result ≡ same_where_looked_at (P.looks program.now old.now) old.now.memory new.now }
{
    match program.sees_same_memory(old, new) {
        Some(same) => same,
        None => is_alike_where_looked_at(program, old, new),
    }
}

/// Whether the turn of a view serves for the view of process `p`. It takes no memory. The tables are not compared where they are known to be the same. Most
/// views that do not serve differ in a word, so the words are compared first.
#[inline(always)]
pub fn serves<P: Program>(
    program: &P,
    old: &View<'_>,
    views: &Views,
    p: usize,
    same_table: bool,
) -> bool
    requires place { p < length views.now }
    requires table { same_table ≡ true → old.now.table ≡ (slice_index_or views.now p no_view).table }
    ensures { result ≡ serves (P.looks program.now) old.now (slice_index_or views.now p no_view) }
{
    let memory = views.memory(p);
    if old.memory.len() != memory.len() {
        return false;
    }
    if !sees_same(program, old, &memory) {
        return false;
    }
    is_alike_but_for_words(old, &views.get(p), same_table)
}
