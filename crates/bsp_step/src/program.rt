//! Programs, and their turns.

ghost use Rattle.std.specs.Prelude.{◌≡◌, ◌++◌, ◌∷◌, [], IfOk};
ghost use Rattle.bsp_step.specs.OutcomeParts.{IsOutcome, IsOutcomeOf};
ghost use Rattle.bsp_step.specs.Turn.{turn_of};

use crate::{Ctx, Gathering, Outcome, View};
use bsp_model::{End, MemoryRef, OutOfMemory};
use std::alloc::Global;

/// A BSP program: what each process does in each superstep.
///
/// Three laws hold of it. A step that starts on the fresh context of a view performs `acts` of that view in order, and answers its `ending`
/// where no fault is kept. `acts` and `ending` are functions of the program and the view alone. And `looks` is a footprint: views that
/// differ only in words at which the program does not look have equal acts and endings.
pub trait Program: Sync {
    ghost use Rattle.std.specs.Prelude.{List, ℕ, Bool, ◌≡◌, IfOk, IfSome, length};
    ghost use Rattle.bsp_model.specs.declared.fault.End.{End};
    ghost use Rattle.bsp_step.specs.ViewParts.{ViewParts};
    ghost use Rattle.bsp_step.specs.Context.{IsFresh};
    ghost use Rattle.bsp_step.specs.Act.{Act};
    ghost use Rattle.bsp_step.specs.Turn.{Follows};
    ghost use Rattle.bsp_step.specs.Footprint.{IsFootprint, same_where_looked_at};

    /// The acts of the turn at a view.
    ghost acts: { Self → ViewParts → List Act };

    /// The answer of the turn at a view.
    ghost ending: { Self → ViewParts → End };

    /// Whether the turn at a view may depend on the word at an address.
    ghost looks: { Self → ViewParts → ℕ → Bool };

    /// Whether the turn at a view may depend on the word at an address of its memory. A program that answers true everywhere is always right.
    fn looks(&self, view: &View<'_>, address: u64) -> bool
        ensures { result ≡ looks self.now view.now address };

    /// Whether a memory has the words of the view's at each address at which the turn at the view looks. None where `looks` is to be asked of each word
    /// that differs. A program that has to follow the turn for an answer of `looks` answers here for all addresses at once.
    #[inline(always)]
    fn sees_same_memory(&self, view: &View<'_>, memory: &MemoryRef<'_>) -> Option<bool>
        requires { length view.now.memory ≡ length memory.now }
        ensures { IfSome result (λ same. same ≡ same_where_looked_at (looks self.now view.now) view.now.memory memory.now) }
    {
        None
    }

    /// Takes the turn of a process, by the calls of its context. It may stop at its first fault, since later acts do nothing.
    fn step(&self, alloc: Global, ctx: &mut Ctx<'_>) -> Result<End, OutOfMemory>
        ensures { IsFresh ctx.old → IfOk result (λ how. Follows ctx.old
            (acts self.now ctx.old.view) (ending self.now ctx.old.view) ctx.new how) };

    /// What the program looks at is a footprint.
    ghost footprint: { (p : Self) → IsFootprint (acts p) (ending p) (looks p) };
}

/// The turn of a program at a view, or `OutOfMemory`.
pub fn turn<P: Program>(alloc: Global, program: &P, view: &View<'_>) -> Result<Outcome, OutOfMemory>
    ensures turn { IfOk result (λ o. o ≡ turn_of (P.acts program.now) (P.ending program.now) view.now) }
    ensures limits { IfOk result (λ o. IsOutcome o) }
    ensures issued { IfOk result (λ o. IsOutcomeOf view.now o) }
{
    let mut ctx = Ctx::open(alloc, view)?;
    let how = program.step(alloc, &mut ctx)?;
    Ok(ctx.close(how))
}

/// The outcomes that are gathered, and behind them that of the turn of a program at a view. Or `OutOfMemory`.
#[inline(always)]
pub fn add_turn<P: Program>(
    alloc: Global,
    program: &P,
    view: &View<'_>,
    gathering: Gathering,
) -> Result<Gathering, OutOfMemory>
    ensures { IfOk result (λ g. g
        ≡ gathering ++ turn_of (P.acts program.now) (P.ending program.now) view.now ∷ []) }
{
    let mut ctx = Ctx::open_behind(alloc, view, gathering)?;
    let how = program.step(alloc, &mut ctx)?;
    Gathering::with_turn(ctx.turned(how))
}
