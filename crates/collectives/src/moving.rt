//! Collective calls that move words.

ghost use Rattle.std.specs.Prelude.{◌≡◌};
ghost use Rattle.bsp_model.specs.declared.fault.End.TheVariants.{Sync};
ghost use Rattle.bsp_step.specs.Calls.{Runs};
ghost use Rattle.collectives.specs.Moving.{moving_plan, beginning, half, ending, is_sender};

use bsp_collectives::{
    all_gather, block_size, broadcast, exchange, forward, gather, receive, scatter, spread,
};
use bsp_model::{End, OutOfMemory};
use bsp_step::{Ctx, Program, Stop, View, settle};
use std::alloc::Global;

/// A program that makes a collective call by which words are moved. Argument 0 is the number of own words, which are the first of the memory.
/// What arrives is stored after them and printed, and then the process halts. Argument 1 is the root, or process 0 where it is missing. Blocks are as small
/// as they can be where each process has one. `BroadcastInTwo` is `spread` and then `forward`.
///
/// A missing number of words ends the turn by `Abort(2)`, a missing word by `Abort(1)`.
#[derive(Clone, Copy)]
pub enum Moving {
    Broadcast,
    BroadcastInTwo,
    Scatter,
    Gather,
    AllGather,
    Exchange,
}

impl Program for Moving {
    ghost use Rattle.collectives.specs.Moving.{moving_plan, moving_looks};
    ghost use Rattle.collectives.specs.MovingFootprint.{moving_footprint};

    ghost acts = { λ p v. (moving_plan p v v.memory v.queue).acts };

    ghost ending = { λ p v. (moving_plan p v v.memory v.queue).ending };

    ghost looks = { moving_looks };

    ghost footprint = { moving_footprint };

    fn looks(&self, view: &View<'_>, address: u64) -> bool {
        let Some(&count) = view.args.first() else {
            return false;
        };
        view.step == 0 && address < count && self.is_sender(view)
    }

    fn step(&self, alloc: Global, ctx: &mut Ctx<'_>) -> Result<End, OutOfMemory> {
        settle(self.run(alloc, ctx))
    }
}

impl Moving {
    /// Whether a process sends its words in superstep 0.
    fn is_sender(self, view: &View<'_>) -> bool
        ensures { result ≡ is_sender self view.now }
    {
        match self {
            Moving::Broadcast | Moving::BroadcastInTwo | Moving::Scatter => {
                view.pid == view.args.get(1).copied().unwrap_or(0)
            }
            Moving::Gather | Moving::AllGather | Moving::Exchange => true,
        }
    }

    /// The turn of a process.
    fn run(self, alloc: Global, ctx: &mut Ctx<'_>) -> Result<End, Stop>
        ensures { let plan = moving_plan self ctx.old.view ctx.old.memory ctx.old.left
            in Runs ctx.old plan.acts plan.ending ctx.new result }
    {
        let Some(count) = ctx.arg(0) else {
            return Ok(End::Abort(2));
        };
        match (ctx.step(), self) {
            (0, _) => self.begin(ctx, count),
            (1, Moving::BroadcastInTwo) => {
                forward(alloc, ctx)?;
                Ok(End::Sync)
            }
            _ => end(alloc, ctx, count),
        }
    }

    /// Makes the first half over the own words.
    fn begin(self, ctx: &mut Ctx<'_>, count: u64) -> Result<End, Stop>
        ensures { let plan = beginning self ctx.old.view count ctx.old.memory
            in Runs ctx.old plan.acts plan.ending ctx.new result }
    {
        let Some(words) = ctx.words_at(0, count)? else {
            return Ok(End::Abort(1));
        };
        self.send(ctx, words.as_slice())
    }

    /// The first half over these words.
    fn send(self, ctx: &mut Ctx<'_>, words: &[u64]) -> Result<End, Stop>
        ensures { Runs ctx.old (half self ctx.old.view words.now) Sync ctx.new result }
    {
        let root = ctx.arg(1).unwrap_or(0);
        let size = block_size(words.len(), ctx.nprocs());
        match self {
            Moving::Broadcast => broadcast(ctx, root, words)?,
            Moving::BroadcastInTwo => spread(ctx, root, words)?,
            Moving::Scatter => scatter(ctx, root, words, size)?,
            Moving::Gather => gather(ctx, root, words)?,
            Moving::AllGather => all_gather(ctx, words)?,
            Moving::Exchange => exchange(ctx, words, size)?,
        }
        Ok(End::Sync)
    }
}

/// Stores what arrives after the own words, and prints it.
fn end(alloc: Global, ctx: &mut Ctx<'_>, count: u64) -> Result<End, Stop>
    ensures { let plan = ending count ctx.old.left in Runs ctx.old plan.acts plan.ending ctx.new result }
{
    let words = receive(alloc, ctx)?;
    ctx.store_words(count, words.as_slice())?;
    ctx.print(words.as_slice())?;
    Ok(End::Halt)
}
