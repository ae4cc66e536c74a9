//! Why a turn was taken again.

ghost use Rattle.std.specs.Prelude.{◌≡◌, ◌+◌, ◌≤◌, ◌++◌, ◌==◌, ◌&&◌, not, IfOk, OnOk, length, option_map, slice_index};
ghost use Rattle.bsp_run.specs.Supersteps.{superstep_at, supersteps_of};
ghost use Rattle.bsp_incr.specs.Exact.{HasTurn, supersteps_before};
ghost use Rattle.bsp_causes.specs.TurnCauses.{HaveSameSizes, other_words, view_causes, turn_causes};
ghost use Rattle.bsp_causes.specs.Inside.Words.{other_words_from};

use bsp_incr::Place;
use bsp_model::limits::MOST_MEMORY_WORDS;
use bsp_model::{OutOfMemory, Same, Seq, are_same_words};
use bsp_run::{History, ViewsRef};
use bsp_step::{Program, View};
use std::alloc::Global;

/// Why a turn was taken again: the parts of its view that differ from those of the previous run.
#[derive(Drop)]
pub struct TurnCauses {
    /// The previous run has no such turn. Then nothing else is named.
    pub is_new: bool,
    pub args: bool,
    pub queue: bool,
    pub table: bool,
    pub tag_size: bool,
    /// The addresses, ascending, at which the program looks, and whose words differ.
    pub words: Seq<u64>,
}

/// The word at a place; 0 past the end.
fn word_at(words: &[u64], place: usize) -> u64
    ensures { result ≡ slice_index words.now place }
{
    if place < words.len() { words[place] } else { 0 }
}

fn is_other_word<P: Program>(program: &P, view: &View<'_>, address: u64, old: u64, new: u64) -> bool
    ensures { result ≡ P.looks program.now view.now address && not (old == new) }
{
    old != new && program.looks(view, address)
}

/// Adds the addresses at which the program looks, and whose words differ, of pieces of two memories. The pieces begin at the address `first`.
fn add_other_words_from<P: Program>(
    words: &mut Seq<u64>,
    program: &P,
    view: &View<'_>,
    first: u64,
    old: &[u64],
    new: &[u64],
) -> Result<(), OutOfMemory>
    requires { first + length old.now ≤ MOST_MEMORY_WORDS }
    ensures { OnOk result (words.new ≡ words.old ++ other_words_from
        (P.looks program.now view.now) first old.now new.now) }
{
    if are_same_words(old, new) {
        return Ok(());
    }
    for i in 0..old.len() {
        let address = first + i as u64;
        if is_other_word(program, view, address, old[i], word_at(new, i)) {
            words.push(address)?;
        }
    }
    Ok(())
}

fn add_other_words<P: Program>(
    words: &mut Seq<u64>,
    program: &P,
    old: &View<'_>,
    new: &View<'_>,
) -> Result<(), OutOfMemory>
    ensures { OnOk result (words.new ≡ words.old ++ other_words
        (P.looks program.now old.now) old.now.memory new.now.memory) }
{
    let mut address = 0;
    while address < old.memory.len() as u64 {
        let before = old.memory.words_from(address);
        let after = new.memory.words_from(address);
        add_other_words_from(words, program, old, address, before, after)?;
        address += before.len() as u64;
    }
    Ok(())
}

fn view_causes<P: Program>(
    alloc: Global,
    program: &P,
    old: &View<'_>,
    new: &View<'_>,
) -> Result<TurnCauses, OutOfMemory>
    ensures { IfOk result (λ c. c ≡ view_causes (P.looks program.now) old.now new.now) }
{
    let mut causes = TurnCauses {
        is_new: false,
        args: !are_same_words(old.args, new.args),
        queue: !old.queue.same(&new.queue),
        table: !old.table.same(new.table),
        tag_size: old.tag_size != new.tag_size,
        words: Seq::new(alloc),
    };
    let added = add_other_words(&mut causes.words, program, old, new);
    added.and(Ok(causes))
}

/// What the processes saw in a superstep of a run; nothing where there is no run, or where it took no turns of such a superstep.
fn views_in<'a>(run: Option<&'a History>, step: u64) -> ViewsRef<'a>
    ensures { result ≡ (superstep_at (supersteps_before (option_map (λ h. h.now) run.entry)) step).views }
{
    match run {
        Some(history) if step < history.steps() as u64 => match history.views(step) {
            Some(views) => views.as_ref(),
            None => ViewsRef::none(),
        },
        _ => ViewsRef::none(),
    }
}

/// Why the turn at a place of the run `after` was taken, against the run `before`, or `OutOfMemory`: the parts of the view that are others, and of
/// the memory the words at which the program looks. Where both runs have a turn at the place, they are of as many processes, with memories of the same
/// length.
pub fn turn_causes<P: Program>(
    alloc: Global,
    program: &P,
    before: Option<&History>,
    after: &History,
    place: Place,
) -> Result<TurnCauses, OutOfMemory>
    requires known { HasTurn (supersteps_of after.now) place }
    requires same_sizes { HaveSameSizes (supersteps_before (option_map (λ h. h.now) before)) (supersteps_of after.now) place }
    ensures { IfOk result (λ c. c ≡ turn_causes (P.looks program.now)
        (supersteps_before (option_map (λ h. h.now) before.entry)) (supersteps_of after.now) place) }
{
    let old = views_in(before, place.step);
    let new = views_in(Some(after), place.step);
    let pid = place.pid as usize;
    if pid >= old.len() {
        return Ok(TurnCauses {
            is_new: true,
            args: false,
            queue: false,
            table: false,
            tag_size: false,
            words: Seq::new(alloc),
        });
    }
    view_causes(alloc, program, &old.get(pid), &new.get(pid))
}
