//! What a superstep's end brings to one process: its next memory and its next queue.

ghost use Rattle.std.specs.Prelude.{◌≡◌, ◌+◌, ◌<◌, ◌≤◌, length, map, IfOk, OnOk, All};
ghost use Rattle.bsp_step.specs.ViewParts.{IsQueue};
ghost use Rattle.bsp_step.specs.OutcomeParts.{outcome_of};
ghost use Rattle.bsp_deliver.specs.Delivery.{put_write, message_of, delivery_parts, next_memory, next_queue};
ghost use Rattle.bsp_deliver.specs.Inside.Gathering.{overlay};
ghost use Rattle.bsp_deliver.specs.Inbox.{inbox_of};
ghost use Rattle.bsp_deliver.specs.Condition.{AreDeliverable};

use crate::Inbox;
use crate::inboxes::{puts_to, sends_to};
use crate::next_memories::memory_with_gets;
use bsp_model::limits::MOST_PROCESSES;
use bsp_model::{Memory, OutOfMemory, Put, Send};
use bsp_step::{Outcomes, Queue};
use std::alloc::Global;

fn write_sent_puts(memory: &mut Memory, puts: &[(u64, Put)]) -> Result<(), OutOfMemory>
    requires { All (λ p. p.1.start + length p.1.words ≤ length memory.old) puts.now }
    ensures { OnOk result (memory.new ≡ overlay memory.old (map put_write puts.now)) }
{
    for (_, put) in puts {
        memory.write(put.start, put.words.as_slice())?;
    }
    Ok(())
}

fn messages_of(alloc: Global, sends: &[(u64, Send)]) -> Result<Queue, OutOfMemory>
    ensures { IfOk result (λ queue. queue ≡ map (λ m. message_of m.1) sends.now) }
{
    let mut queue = Queue::new(alloc);
    for (_, send) in sends {
        queue.push(send.tag.as_slice(), send.words.as_slice())?;
    }
    Ok(queue)
}

/// The inbox of process `d`: copies of all puts and messages to it, each with its sender, by sender, then by issue. There are at most `MOST_PROCESSES` outcomes.
pub fn inbox(alloc: Global, d: usize, outcomes: &Outcomes) -> Result<Inbox, OutOfMemory>
    requires { length outcomes.now ≤ MOST_PROCESSES }
    ensures { IfOk result (λ inbox. inbox ≡ inbox_of (delivery_parts outcomes.now d)) }
{
    let puts = puts_to(alloc, d as u64, outcomes)?;
    let sends = sends_to(alloc, d as u64, outcomes)?;
    Ok(Inbox { puts, sends })
}

/// The next memory and the next queue of process `d`. All gets read the owners' memories as they are after computing; then all puts are
/// written, so a put wins over a get, and the last put wins by sender, then by issue (Hill et al. 1998; ties: this profile).
///
/// They depend on nothing but d's memory after computing, its gets with the words that they read, and the puts and sends to d.
pub fn deliver(alloc: Global, d: usize, outcomes: &Outcomes) -> Result<(Memory, Queue), OutOfMemory>
    requires known { d < length outcomes.now }
    requires deliverable { AreDeliverable outcomes.now }
    ensures memory { IfOk result (λ next. next.0 ≡ next_memory (delivery_parts outcomes.now d)) }
    ensures queue { IfOk result (λ next. next.1 ≡ next_queue (delivery_parts outcomes.now d)) }
    ensures len { IfOk result (λ next. length next.0 ≡ length (outcome_of outcomes.now d).memory) }
    ensures limits { IfOk result (λ next. IsQueue next.1) }
{
    let inbox = inbox(alloc, d, outcomes)?;
    deliver_inbox(alloc, d, &inbox, outcomes)
}

/// What `deliver` answers, where the inbox of `d` is at hand: the puts and the messages are taken from it, and of the outcomes the own memory and
/// the words that the gets read alone.
pub fn deliver_inbox(
    alloc: Global,
    d: usize,
    inbox: &Inbox,
    outcomes: &Outcomes,
) -> Result<(Memory, Queue), OutOfMemory>
    requires known { d < length outcomes.now }
    requires deliverable { AreDeliverable outcomes.now }
    requires own { inbox.now ≡ inbox_of (delivery_parts outcomes.now d) }
    ensures memory { IfOk result (λ next. next.0 ≡ next_memory (delivery_parts outcomes.now d)) }
    ensures queue { IfOk result (λ next. next.1 ≡ next_queue (delivery_parts outcomes.now d)) }
    ensures len { IfOk result (λ next. length next.0 ≡ length (outcome_of outcomes.now d).memory) }
    ensures limits { IfOk result (λ next. IsQueue next.1) }
{
    let mut memory = memory_with_gets(alloc, d, outcomes)?;
    write_sent_puts(&mut memory, inbox.puts.as_slice())?;
    let queue = messages_of(alloc, inbox.sends.as_slice())?;
    Ok((memory, queue))
}
