//! A matrix by a vector.

ghost use Rattle.std.specs.Prelude.{◌≡◌};
ghost use Rattle.std.specs.List.{range_with_len};
ghost use Rattle.bsp_step.specs.Calls.{Runs};
ghost use Rattle.bsp_programs.specs.MatVec.{matvec_plan, matvec_checking, matvec_sending, sends_to_all};

mod layout;
mod multiplying;
mod receiving;

use bsp_model::limits::MOST_LINE_WORDS;
use bsp_model::{End, OutOfMemory};
use bsp_step::{Ctx, Program, Stop, View, settle};
use layout::{Layout, is_within};
use receiving::receive_and_multiply;
use std::alloc::Global;

/// The most rows of a process: its words of the product are printed as one line.
const MOST_ROWS: u64 = MOST_LINE_WORDS as u64;

/// The processes multiply a square matrix by a vector, modulo 2^64, and each prints its words of the product.
///
/// Argument 0 is b, the number of rows of each process, at most `MOST_LINE_WORDS`; so there are n = P times b columns, with P processes. The memory has
/// b rows of n words, the own b words of the vector, the whole vector of n words, and b words of the product. A missing argument or a larger b ends the
/// turn by `Abort(2)`, a missing word by `Abort(1)`, a message that is no process's block of b words by `Abort(3)`.
#[derive(Clone, Copy)]
pub struct MatVec;

impl Program for MatVec {
    ghost use Rattle.bsp_programs.specs.MatVec.{matvec_plan, matvec_looks};
    ghost use Rattle.bsp_programs.specs.MatVecFootprint.{matvec_footprint};

    ghost acts = { λ _ v. (matvec_plan v v.memory v.queue).acts };

    ghost ending = { λ _ v. (matvec_plan v v.memory v.queue).ending };

    ghost looks = { λ _ v a. matvec_looks v a };

    ghost footprint = { λ _. matvec_footprint };

    fn looks(&self, view: &View<'_>, address: u64) -> bool {
        let Some(&block) = view.args.first() else {
            return false;
        };
        if block > MOST_ROWS {
            return false;
        }
        let layout = Layout {
            nprocs: view.nprocs,
            block,
        };
        let own = layout.block_start();
        match view.step {
            0 => false,
            1 => is_within(own, block, address),
            _ => { address < own || is_within(layout.vector_start(), layout.columns(), address) }
        }
    }

    fn step(&self, alloc: Global, ctx: &mut Ctx<'_>) -> Result<End, OutOfMemory> {
        settle(run(alloc, ctx))
    }
}

/// The turn of a process.
fn run(alloc: Global, ctx: &mut Ctx<'_>) -> Result<End, Stop>
    ensures { let plan = matvec_plan ctx.old.view ctx.old.memory ctx.old.left
        in Runs ctx.old plan.acts plan.ending ctx.new result }
{
    let Some(block) = ctx.arg(0) else {
        return Ok(End::Abort(2));
    };
    if block > MOST_ROWS {
        return Ok(End::Abort(2));
    }
    let layout = Layout {
        nprocs: ctx.nprocs(),
        block,
    };
    match ctx.step() {
        0 => check_memory(ctx, layout),
        1 => send_block(ctx, layout),
        _ => receive_and_multiply(alloc, ctx, layout),
    }
}

/// Finds out whether the memory has all words that are needed, and chooses tags of one word.
fn check_memory(ctx: &mut Ctx<'_>, layout: Layout) -> Result<End, Stop>
    ensures { let plan = matvec_checking layout.nprocs layout.block ctx.old.memory
        in Runs ctx.old plan.acts plan.ending ctx.new result }
{
    let needed = layout.product_start() + layout.block;
    if needed > 0 && ctx.load(needed - 1).is_none() {
        return Ok(End::Abort(1));
    }
    ctx.set_tagsize(1)?;
    Ok(End::Sync)
}

/// Sends the own block of the vector to every process.
fn send_block(ctx: &mut Ctx<'_>, layout: Layout) -> Result<End, Stop>
    requires { layout.nprocs ≡ ctx.old.view.nprocs }
    ensures { let plan = matvec_sending layout.nprocs ctx.old.view.pid layout.block ctx.old.memory
        in Runs ctx.old plan.acts plan.ending ctx.new result }
{
    let Some(block) = ctx.words_at(layout.block_start(), layout.block)? else {
        return Ok(End::Abort(1));
    };
    send_to_all(ctx, block.as_slice())?;
    Ok(End::Sync)
}

/// Sends the words to every process, with the own number as their tag.
fn send_to_all(ctx: &mut Ctx<'_>, words: &[u64]) -> Result<(), Stop>
    ensures { Runs ctx.old (sends_to_all ctx.old.view.pid words.now
        (range_with_len 0 ctx.old.view.nprocs)) tt ctx.new result }
{
    let own = ctx.pid();
    for pid in 0..ctx.nprocs() {
        ctx.send(pid, &[own], words)?;
    }
    Ok(())
}
