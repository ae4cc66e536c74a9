//! Deliveries in the memories that the turns left, where no record keeps them.

ghost use Rattle.std.specs.Prelude.{◌≡◌, ◌<◌, ◌++◌, ◌∷◌, [], All, OnOk, fold, length, map};
ghost use Rattle.std.specs.List.{range_with_len};
ghost use Rattle.bsp_deliver.specs.Delivery.{delivery_parts, next_memory, next_queue};
ghost use Rattle.bsp_deliver.specs.Condition.{AreDeliverable};
ghost use Rattle.bsp_deliver.specs.Inside.Gathering.{put_at};

use crate::Cells;
use crate::delivery::deliver_some;
use crate::next_memories::{memories_after, write_puts};
use crate::next_queues::queues_after;
use bsp_model::{Memories, OutOfMemory};
use bsp_step::{ListKind, Outcomes, PutRows};
use std::alloc::Global;
use std::mem;

/// Writes the puts of all senders, by sender, then by issue, each to the memory at its target's place.
fn write_rows(memories: &mut Memories, places: &[usize], rows: &PutRows) -> Result<(), OutOfMemory>
    requires { All (All (λ p. p.target < length places.now)) rows.now }
    ensures { OnOk result (memories.new ≡ fold (λ ms puts. fold (put_at places.now) ms puts) memories.old rows.now) }
{
    for sender in 0..rows.count() {
        let own = rows.get(sender);
        write_puts(memories, places, &own)?;
    }
    Ok(())
}

/// Makes `memories` those of all processes after delivery, where nobody gets a word, out of those that the turns left.
fn move_memories(
    outcomes: &mut Outcomes,
    processes: &[usize],
    memories: &mut Memories,
) -> Result<(), OutOfMemory>
    requires deliverable { AreDeliverable outcomes.old }
    requires unread { All (λ o. o.gets ≡ []) outcomes.old }
    requires processes { processes.now ≡ range_with_len 0 (length outcomes.old) }
    ensures { OnOk result (memories.new ≡ map (λ d. next_memory (delivery_parts outcomes.old d)) processes.now) }
{
    match outcomes.take_memories() {
        Some((handed, puts)) => {
            let room = mem::replace(memories, handed);
            let written = write_rows(memories, processes, &puts);
            let kept = puts.keep_room(room, outcomes);
            written.and(kept)
        }
        None => memories_after(outcomes, processes, memories),
    }
}

/// Makes `cells` the next memory and queue of each process, where the outcomes are needed no more: the memories that the turns left are handed on, and
/// the puts are written in them. They are copied where somebody gets a word, which a put may overwrite, and where copies share them. What is left of
/// the outcomes serves as room for others.
pub fn deliver_moving(
    alloc: Global,
    outcomes: &mut Outcomes,
    processes: &[usize],
    cells: &mut Cells,
) -> Result<(), OutOfMemory>
    requires deliverable { AreDeliverable outcomes.old }
    requires processes { processes.now ≡ range_with_len 0 (length outcomes.old) }
    ensures { OnOk result (cells.new
        ≡ map (λ d. (
          next_memory (delivery_parts outcomes.old d),
          next_queue (delivery_parts outcomes.old d),
        )) processes.now) }
{
    if !outcomes.is_without(ListKind::Gets) {
        return deliver_some(alloc, outcomes, processes, cells);
    }
    queues_after(alloc, outcomes, processes, &mut cells.queues)?;
    move_memories(outcomes, processes, &mut cells.memories)
}
