//! Puts, sends and prints of words in registers, and of blocks: own words, or constants.

ghost use Rattle.std.specs.Prelude.{◌≡◌, ◌+◌, ◌<◌, ◌^◌, IfErr, IfOk, Some, option_map, slice_index};
ghost use Rattle.bsp_step.specs.Act as act;
ghost use Rattle.bsp_step.specs.Blocks.{words_at};
ghost use Rattle.bsp_kernels.specs.declared.call.Call.TheVariants.{PrintBlock, PutBlock, PutConstants, SendBlock, SendConstants};
ghost use Rattle.bsp_kernels.specs.Inside.Making.{Lacks, Makes, state_at};
ghost use Rattle.bsp_kernels.specs.Machine.{call_effect, makes, own_block, word, words};

use super::{Machine, acted, ended};
use crate::exit::Exit;
use bsp_model::{End, Words};
use bsp_step::{Ctx, Stop};

/// The registers of a block: where it starts, and how many words it has.
type Block = (u8, u8);

/// The registers of a put's target: the process, the area, and the offset.
type Target = (u8, u8, u8);

/// The registers of a message's target and tag: the process, and the first register of the tag and how many these are.
type Address = (u8, u8, u8);

/// So many words from an index on, if all of them are there.
fn words_at(words: &[u64], start: u64, len: u64) -> Option<&[u64]>
    ensures { option_map (λ found. found.now) result ≡ words_at words.now start len }
{
    let count = words.len() as u64;
    if start > count || len > count - start {
        return None;
    }
    let (_, rest) = words.split_at(start as usize);
    let (found, _) = rest.split_at(len as usize);
    Some(found)
}

impl<'k> Machine<'k> {
    /// The own words of a block. Where one is missing, the turn ends.
    fn own_words(&self, ctx: &Ctx<'_>, block: Block) -> Result<Words, Exit>
        ensures found { IfOk result (λ words. own_block (state_at self.now ctx.now 0) block.0 block.1 ≡ Some words) }
        ensures lacking { IfErr result (Lacks (own_block (state_at self.now ctx.now 0) block.0 block.1)) }
    {
        match ctx.words_at(self.word(block.0), self.word(block.1)) {
            Ok(Some(words)) => Ok(words),
            Ok(None) => ended(End::Abort(1)),
            Err(_) => Err(Exit::Stopped(Stop::OutOfMemory)),
        }
    }

    /// The constants of a block. Where one is missing, the turn ends.
    fn constants_of(&self, block: Block) -> Result<&'k [u64], Exit>
        ensures found { IfOk result (λ words. words_at self.now.constants.now (slice_index self.now.registers block.0)
            (slice_index self.now.registers block.1) ≡ Some words.now) }
        ensures lacking { IfErr result (Lacks (words_at self.now.constants.now
            (slice_index self.now.registers block.0) (slice_index self.now.registers block.1))) }
    {
        match words_at(self.constants, self.word(block.0), self.word(block.1)) {
            Some(words) => Ok(words),
            None => ended(End::Abort(1)),
        }
    }

    pub(super) fn put(
        &self,
        ctx: &mut Ctx<'_>,
        place: usize,
        target: Target,
        words: &[u64],
    ) -> Result<usize, Exit>
        requires { place + 1 < 2 ^ 64 }
        ensures { let s = state_at self.now ctx.old place in Makes ctx.old (makes s
            (act.put (word s target.0) words.now (word s target.1) (word s target.2))) ctx.new self.now result }
    {
        let (area, offset) = (self.word(target.1), self.word(target.2));
        acted(ctx.put(self.word(target.0), words, area, offset), place + 1)
    }

    pub(super) fn send(
        &self,
        ctx: &mut Ctx<'_>,
        place: usize,
        target: Address,
        payload: &[u64],
    ) -> Result<usize, Exit>
        requires { place + 1 < 2 ^ 64 }
        ensures { let s = state_at self.now ctx.old place in Makes ctx.old (makes s
            (act.send (word s target.0) (words s target.1 target.2) payload.now)) ctx.new self.now result }
    {
        let tag = self.words(target.1, target.2);
        acted(ctx.send(self.word(target.0), tag, payload), place + 1)
    }

    pub(super) fn put_block(
        &self,
        ctx: &mut Ctx<'_>,
        place: usize,
        target: Target,
        block: Block,
    ) -> Result<usize, Exit>
        requires { place + 1 < 2 ^ 64 }
        ensures { Makes ctx.old (call_effect (state_at self.now ctx.old place)
            (PutBlock target.0 block.0 block.1 target.1 target.2)) ctx.new self.now result }
    {
        match self.own_words(ctx, block) {
            Ok(words) => self.put(ctx, place, target, words.as_slice()),
            Err(exit) => Err(exit),
        }
    }

    pub(super) fn put_constants(
        &self,
        ctx: &mut Ctx<'_>,
        place: usize,
        target: Target,
        block: Block,
    ) -> Result<usize, Exit>
        requires { place + 1 < 2 ^ 64 }
        ensures { Makes ctx.old (call_effect (state_at self.now ctx.old place)
            (PutConstants target.0 block.0 block.1 target.1 target.2)) ctx.new self.now result }
    {
        match self.constants_of(block) {
            Ok(words) => self.put(ctx, place, target, words),
            Err(exit) => Err(exit),
        }
    }

    pub(super) fn send_block(
        &self,
        ctx: &mut Ctx<'_>,
        place: usize,
        target: Address,
        block: Block,
    ) -> Result<usize, Exit>
        requires { place + 1 < 2 ^ 64 }
        ensures { Makes ctx.old (call_effect (state_at self.now ctx.old place)
            (SendBlock target.0 target.1 target.2 block.0 block.1)) ctx.new self.now result }
    {
        match self.own_words(ctx, block) {
            Ok(words) => self.send(ctx, place, target, words.as_slice()),
            Err(exit) => Err(exit),
        }
    }

    pub(super) fn send_constants(
        &self,
        ctx: &mut Ctx<'_>,
        place: usize,
        target: Address,
        block: Block,
    ) -> Result<usize, Exit>
        requires { place + 1 < 2 ^ 64 }
        ensures { Makes ctx.old (call_effect (state_at self.now ctx.old place)
            (SendConstants target.0 target.1 target.2 block.0 block.1)) ctx.new self.now result }
    {
        match self.constants_of(block) {
            Ok(words) => self.send(ctx, place, target, words),
            Err(exit) => Err(exit),
        }
    }

    pub(super) fn print_block(
        &self,
        ctx: &mut Ctx<'_>,
        place: usize,
        block: Block,
    ) -> Result<usize, Exit>
        requires { place + 1 < 2 ^ 64 }
        ensures { Makes ctx.old (call_effect (state_at self.now ctx.old place)
            (PrintBlock block.0 block.1)) ctx.new self.now result }
    {
        match self.own_words(ctx, block) {
            Ok(words) => acted(ctx.print(words.as_slice()), place + 1),
            Err(exit) => Err(exit),
        }
    }
}
