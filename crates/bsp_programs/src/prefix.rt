//! The sums of all prefixes.

ghost use Rattle.std.specs.Prelude.{◌≡◌, ◌&&◌, nat_le};
ghost use Rattle.bsp_step.specs.Calls.{Runs};
ghost use Rattle.bsp_programs.specs.Prefix.{prefix_plan, prefix_adding, prefix_sending, has_received};

use crate::doubling::distance;
use bsp_model::{End, OutOfMemory};
use bsp_step::{Ctx, Program, Stop, View, settle};
use std::alloc::Global;

/// Each process prints the sum, modulo 2^64, of the words of all processes up to itself.
///
/// Memory word 0 is the own word and then the sum so far; word 1 receives. It takes no arguments. A missing word ends the turn by `Abort(1)`.
#[derive(Clone, Copy)]
pub struct Prefix;

impl Program for Prefix {
    ghost use Rattle.bsp_programs.specs.Prefix.{prefix_plan, prefix_looks};
    ghost use Rattle.bsp_programs.specs.PrefixFootprint.{prefix_footprint};

    ghost acts = { λ _ v. (prefix_plan v v.memory).acts };

    ghost ending = { λ _ v. (prefix_plan v v.memory).ending };

    ghost looks = { λ _ v a. prefix_looks v a };

    ghost footprint = { λ _. prefix_footprint };

    fn looks(&self, view: &View<'_>, address: u64) -> bool {
        if view.step == 0 {
            return false;
        }
        let received = has_received(view.step, view.pid);
        let reach = distance(view.step);
        match address {
            0 => received || view.pid + reach < view.nprocs || view.nprocs <= reach,
            1 => received,
            _ => false,
        }
    }

    fn step(&self, _alloc: Global, ctx: &mut Ctx<'_>) -> Result<End, OutOfMemory> {
        settle(run(ctx))
    }
}

/// Whether a word came to process `pid` at the end of the superstep before.
fn has_received(step: u64, pid: u64) -> bool
    ensures { result ≡ has_received step pid }
{
    step >= 2 && pid >= distance(step - 1)
}

/// The turn of a process.
fn run(ctx: &mut Ctx<'_>) -> Result<End, Stop>
    ensures { let plan = prefix_plan ctx.old.view ctx.old.memory in Runs ctx.old plan.acts plan.ending ctx.new result }
{
    if ctx.step() == 0 {
        ctx.push_reg(0, 2)?;
        return Ok(End::Sync);
    }
    if !has_received(ctx.step(), ctx.pid()) {
        return send_or_print(ctx);
    }
    match (ctx.load(0), ctx.load(1)) {
        (Some(own), Some(received)) => keep_sum(ctx, own.wrapping_add(received)),
        _ => Ok(End::Abort(1)),
    }
}

/// Makes the sum the own word, and goes on.
fn keep_sum(ctx: &mut Ctx<'_>, sum: u64) -> Result<End, Stop>
    ensures { let plan = prefix_adding ctx.old.view ctx.old.memory sum
        in Runs ctx.old plan.acts plan.ending ctx.new result }
{
    ctx.store(0, sum)?;
    ctx.charge(1)?;
    send_or_print(ctx)
}

/// Puts the own word to the process that is as far on as this superstep reaches, if there is one; prints it where the reach is that of all processes.
#[inline(always)]
fn send_or_print(ctx: &mut Ctx<'_>) -> Result<End, Stop>
    ensures { let plan = prefix_sending ctx.old.view ctx.old.memory
        in Runs ctx.old plan.acts plan.ending ctx.new result }
{
    let reach = distance(ctx.step());
    if reach >= ctx.nprocs() {
        let Some(word) = ctx.load(0) else {
            return Ok(End::Abort(1));
        };
        ctx.print(&[word])?;
        return Ok(End::Halt);
    }
    let pid = ctx.pid();
    if pid >= ctx.nprocs() - reach {
        return Ok(End::Sync);
    }
    let Some(word) = ctx.load(0) else {
        return Ok(End::Abort(1));
    };
    ctx.put(pid + reach, &[word], 0, 1)?;
    Ok(End::Sync)
}
