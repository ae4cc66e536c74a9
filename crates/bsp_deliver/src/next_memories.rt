//! The next memories: first the gets of a superstep are written, then the puts.

ghost use Rattle.std.specs.Prelude.{◌≡◌, ◌+◌, ◌<◌, ◌≤◌, ◌++◌, ◌∷◌, [], All, IfOk, OnOk, length, map, fold, slice_index, slice_index_or, slice_set, true, false};
ghost use Rattle.bsp_deliver.specs.Requests.{all_puts, each_below, words_read};
ghost use Rattle.bsp_deliver.specs.Delivery.{get_write, written, delivery_parts, next_memory};
ghost use Rattle.bsp_deliver.specs.Inside.Gathering.{overlay, put_at, ArePlaces, AreTargets};
ghost use Rattle.bsp_deliver.specs.Condition.{AreDeliverable, AreRequestsInside, CanDeliver, IsGetInside, sizes_of};
ghost use Rattle.bsp_model.specs.Replaced.{IsAscending};

use bsp_model::limits::{MOST_MEMORY_WORDS, MOST_PROCESSES};
use bsp_model::{Get, Memories, Memory, OutOfMemory, ProcessSet, PutsRef};
use bsp_step::{ListKind, Outcomes};
use std::alloc::Global;

/// Writes the words that a get reads to the memory at the reader's place, as far as they lie in one piece at a time.
fn write_get(
    memories: &mut Memories,
    place: usize,
    get: &Get,
    outcomes: &Outcomes,
) -> Result<(), OutOfMemory>
    requires place { place < length memories.old }
    requires inside { IsGetInside (sizes_of outcomes.now) (length (slice_index_or memories.old place [])) get.now }
    requires short { All (λ o. length o.memory ≤ MOST_MEMORY_WORDS) outcomes.now }
    ensures { OnOk result (memories.new ≡ slice_set memories.old place
        (overlay (slice_index_or memories.old place []) (get_write (get.now, words_read outcomes.now get.now) ∷ []))) }
{
    let owner = outcomes.get(get.owner as usize);
    // Its length fits in a word, and so does each address in it.
    let _room = memories.get(place).len();
    let mut done = 0;
    while done < get.len {
        let rest = owner.memory.words_from(get.start + done);
        let here = rest.len().min((get.len - done) as usize);
        memories.write(place, get.into + done, &rest[..here])?;
        done += here as u64;
    }
    Ok(())
}

/// Writes the words that the gets read, in issue order, to the memory at the reader's place.
fn write_gets(
    memories: &mut Memories,
    place: usize,
    gets: &[Get],
    outcomes: &Outcomes,
) -> Result<(), OutOfMemory>
    requires place { place < length memories.old }
    requires inside { All (IsGetInside (sizes_of outcomes.now) (length
        (slice_index_or memories.old place []))) gets.now }
    requires short { All (λ o. length o.memory ≤ MOST_MEMORY_WORDS) outcomes.now }
    ensures { OnOk result (memories.new ≡ slice_set memories.old place
        (overlay (slice_index_or memories.old place [])
        (map (λ g. get_write (g, words_read outcomes.now g)) gets.now))) }
{
    for get in gets {
        write_get(memories, place, get, outcomes)?;
    }
    Ok(())
}

/// Adds the memory of process `d` after computing, with the words over it that its gets read.
fn add_memory(memories: &mut Memories, d: usize, outcomes: &Outcomes) -> Result<(), OutOfMemory>
    requires known { d < length outcomes.now }
    requires deliverable { AreDeliverable outcomes.now }
    ensures { OnOk result (memories.new ≡ memories.old ++ overlay (delivery_parts outcomes.now d).memory
        (map get_write (delivery_parts outcomes.now d).gets) ∷ []) }
{
    let place = memories.len();
    memories.push_copy(&outcomes.memory(d))?;
    write_gets(memories, place, outcomes.gets(d), outcomes)
}

/// The memory of process `d`, counted from 0, after computing, with the words over it that its gets read: the last get that covers a word wins.
///
/// # Errors
/// `OutOfMemory` where there is none for the memory.
pub(crate) fn memory_with_gets(
    alloc: Global,
    d: usize,
    outcomes: &Outcomes,
) -> Result<Memory, OutOfMemory>
    requires known { d < length outcomes.now }
    requires deliverable { AreDeliverable outcomes.now }
    ensures { IfOk result (λ memory. memory ≡ each_below (length (delivery_parts outcomes.now d).memory) (λ a.
        written (map get_write (delivery_parts outcomes.now d).gets) a
        (slice_index (delivery_parts outcomes.now d).memory a))) }
{
    let mut memories = Memories::new(alloc);
    add_memory(&mut memories, d, outcomes)?;
    memories.get(0).to_memory()
}

/// Makes `memories` those of these processes after computing, with the words over each that its gets read.
fn load_memories(
    outcomes: &Outcomes,
    processes: &[usize],
    memories: &mut Memories,
) -> Result<(), OutOfMemory>
    requires { CanDeliver outcomes.now processes.now }
    ensures { OnOk result (memories.new ≡ map (λ d. overlay (delivery_parts outcomes.now d).memory (map get_write
        (delivery_parts outcomes.now d).gets)) processes.now) }
{
    if outcomes.is_without(ListKind::Gets) {
        return outcomes.copy_memories_of(processes, memories);
    }
    outcomes.make_room_for_memories(processes.len(), memories)?;
    for process in processes {
        add_memory(memories, *process, outcomes)?;
    }
    Ok(())
}

/// Writes one sender's puts, in issue order, each to the memory at its target's place. The last put that writes a word wins.
#[inline(always)]
pub(crate) fn write_puts(
    memories: &mut Memories,
    places: &[usize],
    puts: &PutsRef<'_>,
) -> Result<(), OutOfMemory>
    requires { All (λ p. p.target < length places.now) puts.now }
    ensures { OnOk result (memories.new ≡ fold (put_at places.now) memories.old puts.now) }
{
    for i in 0..puts.len() {
        let put = puts.at(i);
        let place = places[put.target as usize];
        if place < memories.len() {
            memories.write(place, put.start, put.words)?;
        }
    }
    Ok(())
}

/// Writes all puts, by sender, then by issue, each to the memory at its target's place. All places are those of the
/// targets: a sender that puts nothing to them is passed over.
fn write_puts_to(
    memories: &mut Memories,
    places: &[usize],
    targets: &ProcessSet,
    outcomes: &Outcomes,
) -> Result<(), OutOfMemory>
    requires inside { All (AreRequestsInside (sizes_of outcomes.now)) outcomes.now }
    requires count { length places.now ≡ length outcomes.now }
    requires targets { AreTargets (length memories.old) places.now targets.now }
    ensures { OnOk result (memories.new ≡ fold (λ ms s. put_at places.now ms s.1) memories.old
        (all_puts outcomes.now)) }
{
    let mut sender = outcomes.next_putting_to(targets, 0);
    while sender < outcomes.len() {
        let own = outcomes.puts(sender);
        write_puts(memories, places, &own)?;
        sender = outcomes.next_putting_to(targets, sender + 1);
    }
    Ok(())
}

/// Writes the puts to all processes, by sender, then by issue, each to the memory of its target.
fn write_all_puts(
    memories: &mut Memories,
    places: &[usize],
    outcomes: &Outcomes,
) -> Result<(), OutOfMemory>
    requires deliverable { AreDeliverable outcomes.now }
    requires count { length places.now ≡ length outcomes.now }
    ensures { OnOk result (memories.new ≡ fold (λ ms s. put_at places.now ms s.1) memories.old
        (all_puts outcomes.now)) }
{
    for sender in 0..outcomes.len() {
        let own = outcomes.puts(sender);
        write_puts(memories, places, &own)?;
    }
    Ok(())
}

fn set_of(count: usize, processes: &[usize]) -> ProcessSet
    requires few { count ≤ MOST_PROCESSES }
    requires known { All (λ d. d < count) processes.now }
    ensures { All (λ d. slice_index_or result d false ≡ true) processes.now }
{
    let mut set = ProcessSet::none(count);
    for process in processes {
        set.insert(*process);
    }
    set
}

/// Where each process stands in the list. A process that is not in the list stands past its end.
#[inline(always)]
fn places_of(processes: &[usize]) -> [usize; MOST_PROCESSES]
    requires known { All (λ d. d < MOST_PROCESSES) processes.now }
    requires ascending { IsAscending processes.now }
    ensures { ArePlaces MOST_PROCESSES processes.now result }
{
    let mut places = [processes.len(); MOST_PROCESSES];
    for place in 0..processes.len() {
        places[processes[place]] = place;
    }
    places
}

/// Writes the puts to some processes, each to the memory at its target's place. A sender that puts nothing to them is passed over.
fn write_some(
    memories: &mut Memories,
    processes: &[usize],
    outcomes: &Outcomes,
) -> Result<(), OutOfMemory>
    requires can { CanDeliver outcomes.now processes.now }
    requires count { length memories.old ≡ length processes.now }
    ensures { OnOk result ((places : _) × (ArePlaces (length outcomes.now) processes.now places)
        × (memories.new ≡ fold (λ ms s. put_at places ms s.1) memories.old (all_puts outcomes.now))) }
{
    let count = outcomes.len();
    let places = places_of(processes);
    let targets = set_of(count, processes);
    write_puts_to(memories, &places[..count], &targets, outcomes)
}

/// Makes `memories` the next memory of each of some processes. All gets read the owners' memories as they are after computing. Then all puts are
/// written, so a put wins over a get (Hill et al. 1998).
pub(crate) fn memories_after(
    outcomes: &Outcomes,
    processes: &[usize],
    memories: &mut Memories,
) -> Result<(), OutOfMemory>
    requires { CanDeliver outcomes.now processes.now }
    ensures { OnOk result (memories.new ≡ map (λ d. next_memory (delivery_parts outcomes.now d)) processes.now) }
{
    load_memories(outcomes, processes, memories)?;
    if processes.len() == outcomes.len() {
        return write_all_puts(memories, processes, outcomes);
    }
    write_some(memories, processes, outcomes)
}
