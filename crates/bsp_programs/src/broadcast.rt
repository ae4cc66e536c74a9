//! One process tells a word to all others.

ghost use Rattle.std.specs.Prelude.{◌≡◌};
ghost use Rattle.std.specs.List.{range_with_len};
ghost use Rattle.bsp_step.specs.Calls.{Runs};
ghost use Rattle.bsp_programs.specs.Broadcast.{broadcast_plan, puts_to_others};

use bsp_model::{End, OutOfMemory};
use bsp_step::{Ctx, Program, Stop, View, settle};
use std::alloc::Global;

/// One process, the root, tells its memory word 0 to all others, and all print it.
///
/// Argument 0 is the root's number. A missing argument ends the turn by `Abort(2)`, a missing word by `Abort(1)`.
#[derive(Clone, Copy)]
pub struct Broadcast;

impl Program for Broadcast {
    ghost use Rattle.bsp_programs.specs.Broadcast.{broadcast_plan, broadcast_looks};
    ghost use Rattle.bsp_programs.specs.BroadcastFootprint.{broadcast_footprint};

    ghost acts = { λ _ v. (broadcast_plan v v.memory).acts };

    ghost ending = { λ _ v. (broadcast_plan v v.memory).ending };

    ghost looks = { λ _ v a. broadcast_looks v a };

    ghost footprint = { λ _. broadcast_footprint };

    fn looks(&self, view: &View<'_>, address: u64) -> bool {
        match view.step {
            0 => false,
            1 => address == 0 && view.args.first() == Some(&view.pid),
            _ => address == 0,
        }
    }

    fn step(&self, _alloc: Global, ctx: &mut Ctx<'_>) -> Result<End, OutOfMemory> {
        settle(run(ctx))
    }
}

/// The turn of a process.
fn run(ctx: &mut Ctx<'_>) -> Result<End, Stop>
    ensures { let plan = broadcast_plan ctx.old.view ctx.old.memory
        in Runs ctx.old plan.acts plan.ending ctx.new result }
{
    let step = ctx.step();
    if step == 0 {
        ctx.push_reg(0, 1)?;
        return Ok(End::Sync);
    }
    if step == 1 {
        let Some(root) = ctx.arg(0) else {
            return Ok(End::Abort(2));
        };
        if root == ctx.pid() {
            let Some(word) = ctx.load(0) else {
                return Ok(End::Abort(1));
            };
            put_to_others(ctx, word)?;
        }
        return Ok(End::Sync);
    }
    let Some(word) = ctx.load(0) else {
        return Ok(End::Abort(1));
    };
    ctx.print(&[word])?;
    Ok(End::Halt)
}

/// Puts the word to word 0 of every other process.
fn put_to_others(ctx: &mut Ctx<'_>, word: u64) -> Result<(), Stop>
    ensures { Runs ctx.old (puts_to_others ctx.old.view.pid word
        (range_with_len 0 ctx.old.view.nprocs)) tt ctx.new result }
{
    let own = ctx.pid();
    for pid in 0..ctx.nprocs() {
        if pid != own {
            ctx.put(pid, &[word], 0, 0)?;
        }
    }
    Ok(())
}
