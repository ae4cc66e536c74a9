//! The inbox of a process: the requests that are addressed to it, kept apart from the outcomes that they come from.

ghost use Rattle.std.specs.Prelude.{◌≡◌, ◌<◌, ◌≤◌, ◌++◌, ◌==◌, length, map, filter, slice_get, IfOk, OnOk, Some};
ghost use Rattle.bsp_step.specs.ViewParts.{IsQueue};
ghost use Rattle.bsp_deliver.specs.Requests.{all_puts, all_sends};
ghost use Rattle.bsp_deliver.specs.Delivery.{message_of};

use bsp_model::limits::MOST_PROCESSES;
use bsp_model::{OutOfMemory, Put, PutsRef, Same, Send, SendsRef, Seq, Words, are_same};
use bsp_step::Outcomes;
use std::alloc::Global;
use std::marker::Model;

/// The puts and the messages to one process, each with its sender, by sender, then by issue.
#[derive(Drop)]
pub struct Inbox {
    pub(crate) puts: Seq<(u64, Put)>,
    pub(crate) sends: Seq<(u64, Send)>,
}

impl Model for Inbox {
    ghost use Rattle.bsp_deliver.specs.Inbox.{InboxParts};

    ghost Value = { InboxParts };

    ghost use Rattle.bsp_deliver.specs.Inside.Inbox.{inbox_parts, FitsInQueue};

    ghost view = { inbox_parts };

    ghost invariant = { FitsInQueue };
}

impl Same for Inbox {
    fn same(&self, other: &Inbox) -> bool {
        are_same(self.puts.as_slice(), other.puts.as_slice())
            && are_same(self.sends.as_slice(), other.sends.as_slice())
    }
}

fn copied_put(alloc: Global, puts: &PutsRef<'_>, place: usize) -> Result<Put, OutOfMemory>
    requires { place < length puts.now }
    ensures { IfOk result (λ put. slice_get puts.now place ≡ Some put) }
{
    let put = puts.at(place);
    Ok(Put {
        target: put.target,
        start: put.start,
        words: Words::from_slice(alloc, put.words)?,
    })
}

fn copied_send(alloc: Global, sends: &SendsRef<'_>, place: usize) -> Result<Send, OutOfMemory>
    requires { place < length sends.now }
    ensures { IfOk result (λ send. slice_get sends.now place ≡ Some send) }
{
    let send = sends.at(place);
    Ok(Send {
        target: send.target,
        tag: Words::from_slice(alloc, send.tag)?,
        words: Words::from_slice(alloc, send.words)?,
    })
}

/// Adds one sender's puts to `d`, in issue order.
fn add_puts(
    list: &mut Seq<(u64, Put)>,
    sender: u64,
    d: u64,
    puts: &PutsRef<'_>,
) -> Result<(), OutOfMemory>
    ensures { OnOk result (list.new ≡ list.old ++ map (λ p. (sender, p)) (filter (λ p. p.target == d) puts.now)) }
{
    for place in 0..puts.len() {
        if puts.at(place).target == d {
            list.push((sender, copied_put(list.allocator(), puts, place)?))?;
        }
    }
    Ok(())
}

/// Adds one sender's messages to `d`, in issue order.
fn add_sends(
    list: &mut Seq<(u64, Send)>,
    sender: u64,
    d: u64,
    sends: &SendsRef<'_>,
) -> Result<(), OutOfMemory>
    ensures { OnOk result (list.new ≡ list.old ++ map (λ m. (sender, m)) (filter (λ m. m.target == d) sends.now)) }
{
    for place in 0..sends.len() {
        if sends.at(place).target == d {
            list.push((sender, copied_send(list.allocator(), sends, place)?))?;
        }
    }
    Ok(())
}

pub(crate) fn puts_to(
    alloc: Global,
    d: u64,
    outcomes: &Outcomes,
) -> Result<Seq<(u64, Put)>, OutOfMemory>
    ensures { IfOk result (λ puts. puts ≡ filter (λ p. p.1.target == d) (all_puts outcomes.now)) }
{
    let mut puts = Seq::new(alloc);
    for sender in 0..outcomes.len() {
        let outcome = outcomes.get(sender);
        add_puts(&mut puts, sender as u64, d, &outcome.puts)?;
    }
    Ok(puts)
}

pub(crate) fn sends_to(
    alloc: Global,
    d: u64,
    outcomes: &Outcomes,
) -> Result<Seq<(u64, Send)>, OutOfMemory>
    requires { length outcomes.now ≤ MOST_PROCESSES }
    ensures sends { IfOk result (λ sends. sends ≡ filter (λ m. m.1.target == d) (all_sends outcomes.now)) }
    ensures limits { IfOk result (λ sends. IsQueue (map (λ m. message_of m.1) sends)) }
{
    let mut sends = Seq::new(alloc);
    for sender in 0..outcomes.len() {
        let outcome = outcomes.get(sender);
        add_sends(&mut sends, sender as u64, d, &outcome.sends)?;
    }
    Ok(sends)
}
