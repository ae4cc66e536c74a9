//! The ranks of a linked list's elements.

ghost use Rattle.std.specs.Prelude.{◌≡◌};
ghost use Rattle.bsp_step.specs.Calls.{Runs};
ghost use Rattle.bsp_programs.specs.Rank.{rank_plan, rank_adding, rank_jumping, rank_asking};

use crate::doubling::distance;
use bsp_model::{End, OutOfMemory};
use bsp_step::{Ctx, Program, Stop, View, settle};
use std::alloc::Global;

/// Each process is an element of a linked list, and prints its distance to the last element, modulo 2^64.
///
/// Memory word 0 is the number of the element's successor, word 1 its rank so far, words 2 and 3 receive those of the successor. The last
/// element is its own successor and starts with rank 0, every other with rank 1. It takes no arguments. A missing word ends the turn by `Abort(1)`.
#[derive(Clone, Copy)]
pub struct Rank;

impl Program for Rank {
    ghost use Rattle.bsp_programs.specs.Rank.{rank_plan, rank_looks};
    ghost use Rattle.bsp_programs.specs.RankFootprint.{rank_footprint};

    ghost acts = { λ _ v. (rank_plan v v.memory).acts };

    ghost ending = { λ _ v. (rank_plan v v.memory).ending };

    ghost looks = { λ _ v a. rank_looks v a };

    ghost footprint = { λ _. rank_footprint };

    fn looks(&self, view: &View<'_>, address: u64) -> bool {
        match view.step {
            0 => false,
            1 => address == if distance(1) < view.nprocs { 0 } else { 1 },
            _ => address >= 1 && address <= 3,
        }
    }

    fn step(&self, _alloc: Global, ctx: &mut Ctx<'_>) -> Result<End, OutOfMemory> {
        settle(run(ctx))
    }
}

/// The turn of a process.
fn run(ctx: &mut Ctx<'_>) -> Result<End, Stop>
    ensures { let plan = rank_plan ctx.old.view ctx.old.memory in Runs ctx.old plan.acts plan.ending ctx.new result }
{
    match ctx.step() {
        0 => {
            ctx.push_reg(0, 2)?;
            Ok(End::Sync)
        }
        1 => ask_or_print(ctx),
        _ => add_received(ctx),
    }
}

/// Takes over the successor of the successor, and adds its rank.
fn add_received(ctx: &mut Ctx<'_>) -> Result<End, Stop>
    ensures { let plan = rank_adding ctx.old.view ctx.old.memory in Runs ctx.old plan.acts plan.ending ctx.new result }
{
    match (ctx.load(2), ctx.load(1), ctx.load(3)) {
        (Some(successor), Some(own), Some(received)) => {
            jump(ctx, successor, own.wrapping_add(received))
        }
        _ => Ok(End::Abort(1)),
    }
}

/// Makes these the own successor and rank, and goes on.
fn jump(ctx: &mut Ctx<'_>, successor: u64, rank: u64) -> Result<End, Stop>
    ensures { let plan = rank_jumping ctx.old.view ctx.old.memory successor rank
        in Runs ctx.old plan.acts plan.ending ctx.new result }
{
    ctx.store(0, successor)?;
    ctx.store(1, rank)?;
    ctx.charge(1)?;
    ask_or_print(ctx)
}

/// Asks for the successor's successor and rank; prints the own rank where the reach is that of all processes.
fn ask_or_print(ctx: &mut Ctx<'_>) -> Result<End, Stop>
    ensures { let plan = rank_asking ctx.old.view ctx.old.memory in Runs ctx.old plan.acts plan.ending ctx.new result }
{
    if distance(ctx.step()) < ctx.nprocs() {
        let Some(successor) = ctx.load(0) else {
            return Ok(End::Abort(1));
        };
        ctx.get(successor, 0, 0, 2, 2)?;
        return Ok(End::Sync);
    }
    let Some(rank) = ctx.load(1) else {
        return Ok(End::Abort(1));
    };
    ctx.print(&[rank])?;
    Ok(End::Halt)
}
