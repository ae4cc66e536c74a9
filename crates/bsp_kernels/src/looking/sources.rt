//! What is known of sources and of messages.

ghost use Rattle.std.specs.Prelude.{◌≡◌, [], drop};
ghost use Rattle.bsp_step.specs.Queue.{first_words};
ghost use Rattle.bsp_kernels.specs.Inside.Showing.{known_at, taken_words};
ghost use Rattle.bsp_kernels.specs.Known.{at_known, known_word, shown_source, takes_known};
ghost use Rattle.bsp_kernels.specs.Machine.{first_tag, setting_of};

use super::{Knowledge, Shown};
use crate::Source;
use crate::machine::word_at;
use bsp_step::View;

/// The payload of the first message that is left, where so many are taken; no words where none is left.
fn first_words<'a>(view: &View<'a>, taken: usize) -> &'a [u64]
    ensures { result.now ≡ first_words (drop taken view.now.queue) }
{
    if taken >= view.queue.len() {
        return &[];
    }
    view.queue.at(taken).words
}

/// The tag of that message.
fn first_tag<'a>(view: &View<'a>, taken: usize) -> &'a [u64]
    ensures { result.now ≡ first_tag (drop taken view.now.queue) }
{
    if taken >= view.queue.len() {
        return &[];
    }
    view.queue.at(taken).tag
}

/// The words of the message that was taken last, of so many.
fn taken_words<'a>(view: &View<'a>, taken: usize) -> &'a [u64]
    ensures { result.now ≡ taken_words view.now.queue taken }
{
    if taken == 0 {
        return &[];
    }
    first_words(view, taken - 1)
}

impl Knowledge {
    /// The word at the index that a register has, if both are known.
    fn word_of(&self, words: &[u64], r: u8) -> Option<u64>
        ensures { result ≡ at_known words.now (known_word (known_at [] self.now 0) r) }
    {
        word_at(words, self.word(r)?)
    }

    /// The word that a source gives, if it gives one that is known.
    pub(super) fn source(&self, source: Source, constants: &[u64], view: &View<'_>) -> Option<u64>
        ensures { result ≡ shown_source (setting_of constants.now view.now)
            (known_at view.now.queue self.now 0) source }
    {
        match source {
            Source::Nprocs => Some(view.nprocs),
            Source::Pid => Some(view.pid),
            Source::Step => Some(view.step),
            Source::MemoryLen => Some(view.memory.len() as u64),
            Source::TagSize => Some(view.tag_size),
            Source::MessagesLeft => Some(view.queue.len().saturating_sub(self.taken) as u64),
            Source::WordsLeft => None,
            Source::FirstLen => Some(first_words(view, self.taken).len() as u64),
            Source::FirstTagLen => Some(first_tag(view, self.taken).len() as u64),
            Source::FirstTag(a) => self.word_of(first_tag(view, self.taken), a),
            Source::Taken(a) => self.word_of(taken_words(view, self.taken), a),
            Source::Argument(a) => self.word_of(view.args, a),
            Source::Constant(a) => self.word_of(constants, a),
        }
    }

    /// The first message that is left is taken, and a register is set to the length of its payload.
    pub(super) fn take(&mut self, r: u8, view: &View<'_>, next: usize) -> Shown
        ensures shown { result ≡ Shown.Reads 0 0 next }
        ensures taken { known_at view.now.queue self.new next
            ≡ takes_known (known_at view.now.queue self.old next) r }
    {
        let messages = view.queue.len();
        let len = first_words(view, self.taken).len() as u64;
        if self.taken <= messages {
            self.taken += 1;
        }
        self.learn(r, Some(len), next)
    }
}
