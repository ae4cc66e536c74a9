//! What sources give.

ghost use Rattle.std.specs.Prelude.{◌≡◌, length, slice_get};
ghost use Rattle.bsp_step.specs.Queue.{first_words};
ghost use Rattle.bsp_kernels.specs.Inside.Making.{state_at};
ghost use Rattle.bsp_kernels.specs.Machine.{first_tag, source_word};

use super::Machine;
use crate::Source;
use bsp_step::Ctx;

/// The length of the first message's payload, or 0 where no message is left.
pub(super) fn first_len(ctx: &Ctx<'_>) -> u64
    ensures { result ≡ length (first_words ctx.now.left) }
{
    match ctx.get_tag() {
        Some((len, _)) => len as u64,
        None => 0,
    }
}

/// The tag of the first message; no words where no message is left.
fn first_tag<'a>(ctx: &'a Ctx<'_>) -> &'a [u64]
    ensures { result.now ≡ first_tag ctx.now.left }
{
    match ctx.get_tag() {
        Some((_, tag)) => tag,
        None => &[],
    }
}

/// The word at an index, if there is one.
pub(crate) fn word_at(words: &[u64], index: u64) -> Option<u64>
    ensures { result ≡ slice_get words.now index }
{
    words.get(index as usize).copied()
}

impl<'k> Machine<'k> {
    /// The word that a source gives, if it gives one.
    pub(super) fn read(&self, source: Source, ctx: &Ctx<'_>) -> Option<u64>
        ensures { result ≡ source_word (state_at self.now ctx.now 0) source }
    {
        match source {
            Source::Nprocs => Some(ctx.nprocs()),
            Source::Pid => Some(ctx.pid()),
            Source::Step => Some(ctx.step()),
            Source::MemoryLen => Some(ctx.memory_len()),
            Source::TagSize => Some(ctx.tag_size()),
            Source::MessagesLeft => Some(ctx.qsize().0 as u64),
            Source::WordsLeft => Some(ctx.qsize().1 as u64),
            Source::FirstLen => Some(first_len(ctx)),
            Source::FirstTagLen => Some(first_tag(ctx).len() as u64),
            Source::FirstTag(a) => word_at(first_tag(ctx), self.word(a)),
            Source::Taken(a) => word_at(self.taken.as_slice(), self.word(a)),
            Source::Argument(a) => ctx.arg(self.word(a)),
            Source::Constant(a) => word_at(self.constants, self.word(a)),
        }
    }
}
