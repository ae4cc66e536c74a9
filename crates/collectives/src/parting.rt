//! A total exchange of parts of any lengths.

ghost use Rattle.std.specs.Prelude.{◌≡◌, map, IfOk};
ghost use Rattle.bsp_step.specs.Act as act;
ghost use Rattle.bsp_step.specs.Calls.{Runs};
ghost use Rattle.collectives.specs.Parting.{parting_plan, dealing, lengths, printing};

use bsp_collectives::{exchange_parts, receive_parts};
use bsp_model::{BlocksRef, End, OutOfMemory, Words};
use bsp_step::{Ctx, Program, Stop, View, settle};
use std::alloc::Global;

/// A program that deals its own words in parts of any lengths. Argument 0 is the number of own words, which are the first of the memory. Argument d + 1 is
/// the length of the part for process d, or 0 where it is missing. Each part that arrives is printed as a line, that of process 0 first, and then the
/// process halts.
///
/// A missing number of words ends the turn by `Abort(2)`, a missing word by `Abort(1)`.
#[derive(Clone, Copy)]
pub struct Parting;

impl Program for Parting {
    ghost use Rattle.collectives.specs.Parting.{parting_plan, parting_looks};
    ghost use Rattle.collectives.specs.PartingFootprint.{parting_footprint};

    ghost acts = { λ _ v. (parting_plan v v.memory v.queue).acts };

    ghost ending = { λ _ v. (parting_plan v v.memory v.queue).ending };

    ghost looks = { λ _ v a. parting_looks v a };

    ghost footprint = { λ _. parting_footprint };

    fn looks(&self, view: &View<'_>, address: u64) -> bool {
        let Some(&count) = view.args.first() else {
            return false;
        };
        view.step == 0 && address < count
    }

    fn step(&self, alloc: Global, ctx: &mut Ctx<'_>) -> Result<End, OutOfMemory> {
        settle(run(alloc, ctx))
    }
}

/// The turn of a process.
fn run(alloc: Global, ctx: &mut Ctx<'_>) -> Result<End, Stop>
    ensures { let plan = parting_plan ctx.old.view ctx.old.memory ctx.old.left
        in Runs ctx.old plan.acts plan.ending ctx.new result }
{
    let Some(count) = ctx.arg(0) else {
        return Ok(End::Abort(2));
    };
    if ctx.step() == 0 {
        return deal(alloc, ctx, count);
    }
    print(alloc, ctx)
}

/// Sends each process its part of the own words.
fn deal(alloc: Global, ctx: &mut Ctx<'_>, count: u64) -> Result<End, Stop>
    ensures { let plan = dealing ctx.old.view count ctx.old.memory
        in Runs ctx.old plan.acts plan.ending ctx.new result }
{
    let Some(words) = ctx.words_at(0, count)? else {
        return Ok(End::Abort(1));
    };
    let lengths = lengths(alloc, ctx)?;
    exchange_parts(ctx, words.as_slice(), lengths.as_slice())?;
    Ok(End::Sync)
}

#[tactic(auto, using(crate::proofs::Lengths::one_more_length))]
fn lengths(alloc: Global, ctx: &Ctx<'_>) -> Result<Vec<usize>, OutOfMemory>
    ensures { IfOk result (λ found. found.items ≡ lengths ctx.now.view.args ctx.now.view.nprocs) }
{
    let mut lengths = Vec::new(alloc);
    for pid in 0..ctx.nprocs() {
        lengths.push(ctx.arg(pid + 1).unwrap_or(0) as usize)?;
    }
    Ok(lengths)
}

/// Takes the parts that came, and prints each.
fn print(alloc: Global, ctx: &mut Ctx<'_>) -> Result<End, Stop>
    ensures { let plan = printing ctx.old.left in Runs ctx.old plan.acts plan.ending ctx.new result }
{
    let parts = receive_parts(alloc, ctx)?;
    print_parts(ctx, &parts.as_ref())?;
    Ok(End::Halt)
}

#[tactic(auto, using(bsp_step::proofs::Laws::running, crate::proofs::Lengths::print_first))]
fn print_parts(ctx: &mut Ctx<'_>, parts: &BlocksRef<'_, Words>) -> Result<(), Stop>
    ensures { Runs ctx.old (map act.print parts.now) tt ctx.new result }
{
    for place in 0..parts.len() {
        ctx.print(parts.row(place))?;
    }
    Ok(())
}
