//! Collective calls that combine words.

ghost use Rattle.std.specs.Prelude.{◌≡◌};
ghost use Rattle.bsp_step.specs.Calls.{Runs};
ghost use Rattle.bsp_model.specs.declared.fault.End.TheVariants.{Sync};
ghost use Rattle.collectives.specs.Combining.{combining_plan, answering, half, operation_of};

use bsp_collectives::{Operation, all_reduce, combine, reduce, scan};
use bsp_model::{End, OutOfMemory};
use bsp_step::{Ctx, Program, Stop, View, settle};
use std::alloc::Global;

/// A program that makes a collective call by which words are combined. Argument 0 is the operation: 0 sum, 1 least, 2 greatest, 3 or, 4 and. Word 0 is the own
/// word. What is made of the words that arrive is stored as word 1 and printed, and then the process halts. Argument 1 is the root, or process 0 where it is
/// missing.
///
/// A missing operation ends the turn by `Abort(2)`, a missing word by `Abort(1)`, another operation by `Abort(3)`.
#[derive(Clone, Copy)]
pub enum Combining {
    Reduce,
    AllReduce,
    Scan,
}

impl Program for Combining {
    ghost use Rattle.collectives.specs.Combining.{combining_plan, combining_looks};
    ghost use Rattle.collectives.specs.CombiningFootprint.{combining_footprint};

    ghost acts = { λ p v. (combining_plan p v v.memory v.queue).acts };

    ghost ending = { λ p v. (combining_plan p v v.memory v.queue).ending };

    ghost looks = { λ _ v a. combining_looks v a };

    ghost footprint = { combining_footprint };

    fn looks(&self, view: &View<'_>, address: u64) -> bool {
        view.step == 0 && address == 0
    }

    fn step(&self, alloc: Global, ctx: &mut Ctx<'_>) -> Result<End, OutOfMemory> {
        settle(self.run(alloc, ctx))
    }
}

impl Combining {
    /// The turn of a process.
    fn run(self, alloc: Global, ctx: &mut Ctx<'_>) -> Result<End, Stop>
        ensures { let plan = combining_plan self ctx.old.view ctx.old.memory ctx.old.left
            in Runs ctx.old plan.acts plan.ending ctx.new result }
    {
        let Some(code) = ctx.arg(0) else {
            return Ok(End::Abort(2));
        };
        let Some(operation) = operation_of(code) else {
            return Ok(End::Abort(3));
        };
        if ctx.step() > 0 {
            return answer(alloc, ctx, operation);
        }
        let Some(word) = ctx.load(0) else {
            return Ok(End::Abort(1));
        };
        self.send(ctx, word)
    }

    /// The first half of this word.
    fn send(self, ctx: &mut Ctx<'_>, word: u64) -> Result<End, Stop>
        ensures { Runs ctx.old (half self ctx.old.view word) Sync ctx.new result }
    {
        match self {
            Combining::Reduce => reduce(ctx, ctx.arg(1).unwrap_or(0), word)?,
            Combining::AllReduce => all_reduce(ctx, word)?,
            Combining::Scan => scan(ctx, word)?,
        }
        Ok(End::Sync)
    }
}

/// The operation with this number.
fn operation_of(code: u64) -> Option<Operation>
    ensures { result ≡ operation_of code }
{
    match code {
        0 => Some(Operation::Sum),
        1 => Some(Operation::Least),
        2 => Some(Operation::Greatest),
        3 => Some(Operation::Or),
        4 => Some(Operation::And),
        _ => None,
    }
}

/// Stores and prints what is made of the words that arrive.
fn answer(alloc: Global, ctx: &mut Ctx<'_>, operation: Operation) -> Result<End, Stop>
    ensures { let plan = answering operation ctx.old.left in Runs ctx.old plan.acts plan.ending ctx.new result }
{
    let made = combine(alloc, ctx, operation)?;
    ctx.store(1, made)?;
    ctx.print(&[made])?;
    Ok(End::Halt)
}
