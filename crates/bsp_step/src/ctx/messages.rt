//! The acts and readings of messages.

ghost use Rattle.std.specs.Prelude.{◌≡◌, ◌<◌, ◌≤◌, ◌+◌, ◌++◌, ◌∷◌, [], ◌*◌, IfOk, IfSome, IsNone, OnErr, length, min, take, drop, sum_by, option_map};
ghost use Rattle.bsp_step.specs.Act as act;
ghost use Rattle.bsp_step.specs.ViewParts.{IsQueue};
ghost use Rattle.bsp_step.specs.Queue.{first_words, first_message, heading};
ghost use Rattle.bsp_step.specs.Calls.{Performs, PerformsAlways};

use crate::{Ctx, Stop};
use bsp_model::limits::{MOST_MESSAGES, MOST_PAYLOAD_WORDS, MOST_TAG_WORDS};
use bsp_model::{Fault, MessageView, MessagesRef};

fn count_of_words(messages: &MessagesRef<'_>, from: usize) -> usize
    requires { IsQueue (drop from messages.now) }
    ensures { result ≡ sum_by (λ m. length m.words) (drop from messages.now) }
{
    let mut words = 0;
    for place in from..messages.len() {
        words += messages.at(place).words.len();
    }
    words
}

fn first_left<'a>(queue: &MessagesRef<'a>, taken: usize) -> Option<MessageView<'a>>
    ensures none { IsNone result → drop taken queue.now ≡ [] }
    ensures first { IfSome result (λ m. drop taken queue.now
        ≡ record { tag = m.tag.now; words = m.words.now } ∷ drop (taken + 1) queue.now) }
    ensures known { IfSome result (λ _. taken < length queue.now) }
{
    if taken >= queue.len() {
        return None;
    }
    Some(queue.at(taken))
}

impl<'v> Ctx<'v> {
    /// How many messages are left, at most `MOST_MESSAGES`, and how many words their payloads have together (`bsp_qsize`).
    pub fn qsize(&self) -> (usize, usize)
        ensures messages { result.0 ≡ length self.now.left }
        ensures few { result.0 ≤ MOST_MESSAGES }
        ensures words { result.1 ≡ sum_by (λ m. length m.words) self.now.left }
    {
        let view = self.view;
        let left = view.queue.len().saturating_sub(self.taken);
        (left, count_of_words(&view.queue, self.taken))
    }

    /// The length of the first message's payload, at most `MOST_PAYLOAD_WORDS` words, and its tag, of at most `MOST_TAG_WORDS`, if a message is left (`bsp_get_tag`).
    pub fn get_tag(&self) -> Option<(usize, &[u64])>
        ensures first { option_map (λ t. (t.0, t.1.now)) result ≡ heading (first_message self.now.left) }
        ensures payload { IfSome result (λ t. t.0 ≤ MOST_PAYLOAD_WORDS) }
        ensures tag { IfSome result (λ t. length t.1.now ≤ MOST_TAG_WORDS) }
    {
        let view = self.view;
        let message = first_left(&view.queue, self.taken)?;
        Some((message.words.len(), message.tag))
    }

    /// Sends a message to process `pid`, in whose queue it is in the next superstep alone (`bsp_send`).
    /// Faults, in order: F8 `TooManyRequests`; F2 `BadPid`; F6 `TagLength`; F11 `TooLong` for more than `MOST_PAYLOAD_WORDS` words.
    pub fn send(&mut self, pid: u64, tag: &[u64], words: &[u64]) -> Result<(), Stop>
        ensures { Performs self.old (act.send pid tag.now words.now) self.new result }
    {
        self.begin_request()?;
        if pid >= self.nprocs() {
            return self.refuse(Fault::BadPid(pid));
        }
        if tag.len() as u64 != self.tag_size() {
            return self.refuse(Fault::TagLength);
        }
        if words.len() > MOST_PAYLOAD_WORDS {
            return self.refuse(Fault::TooLong);
        }
        self.rows.add_send(pid, tag, words)?;
        Ok(())
    }

    /// Takes the first message that is left, and copies as much of its payload to `buffer` as fits; the rest of `buffer` is kept. Answers the number
    /// copied (`bsp_move`). It takes no memory. Faults: F7 `EmptyQueue`; `buffer` is then unchanged.
    pub fn move_into(&mut self, buffer: &mut [u64]) -> Result<usize, Stop>
        ensures acted { PerformsAlways self.old (act.move_into (length buffer.old)) self.new result }
        ensures copied { IfOk result (λ n. n ≡ min (length (first_words self.old.left)) (length buffer.old)) }
        ensures words { IfOk result (λ n. buffer.new ≡ take n (first_words self.old.left) ++ drop n buffer.old) }
        ensures err { OnErr result (buffer.new ≡ buffer.old) }
    {
        if let Some(fault) = self.fault {
            return Err(Stop::Fault(fault));
        }
        let view = self.view;
        let Some(message) = first_left(&view.queue, self.taken) else {
            return self.refuse(Fault::EmptyQueue);
        };
        let count = message.words.len().min(buffer.len());
        buffer[..count].copy_from_slice(&message.words[..count]);
        self.taken += 1;
        Ok(count)
    }

    /// Chooses the tag size of the next superstep, in words; the last call counts. Answers the size in force (`bsp_set_tagsize`). It takes no memory.
    /// Faults: F12 `BadTagSize` for more than `MOST_TAG_WORDS`.
    pub fn set_tagsize(&mut self, size: u64) -> Result<u64, Stop>
        ensures acted { PerformsAlways self.old (act.set_tagsize size) self.new result }
        ensures answer { IfOk result (λ n. n ≡ self.old.view.tag_size) }
    {
        if let Some(fault) = self.fault {
            return Err(Stop::Fault(fault));
        }
        if size > MOST_TAG_WORDS {
            return self.refuse(Fault::BadTagSize);
        }
        self.tag = Some(size);
        Ok(self.tag_size())
    }
}
