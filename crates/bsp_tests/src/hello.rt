//! A program of one's own, as the README shows it.

ghost use Rattle.std.specs.Prelude.{◌∷◌, []};
ghost use Rattle.bsp_model.specs.declared.fault.End.TheVariants.{Halt};
ghost use Rattle.bsp_step.specs.Act.{print};
ghost use Rattle.bsp_step.specs.Calls.{Runs};

use bsp_model::{End, OutOfMemory};
use bsp_step::{Ctx, Program, Stop, View, settle};
use std::alloc::Global;

/// Each process prints its own number, and halts.
pub struct Hello;

impl Program for Hello {
    ghost use Rattle.std.specs.Prelude.{◌∷◌, [], true};
    ghost use Rattle.bsp_model.specs.declared.fault.End.TheVariants.{Halt};
    ghost use Rattle.bsp_step.specs.Act.{print};
    ghost use Rattle.bsp_step.specs.LooksEverywhere.{looks_everywhere};

    ghost acts = { λ _ v. print (v.pid ∷ []) ∷ [] };

    ghost ending = { λ _ v. Halt };

    ghost looks = { λ _ v a. true };

    ghost footprint = { λ _. looks_everywhere (λ v. print (v.pid ∷ []) ∷ []) (λ v. Halt) };

    fn looks(&self, _view: &View<'_>, _address: u64) -> bool {
        true
    }

    fn step(&self, _alloc: Global, ctx: &mut Ctx<'_>) -> Result<End, OutOfMemory> {
        settle(run(ctx))
    }
}

fn run(ctx: &mut Ctx<'_>) -> Result<End, Stop>
    ensures { Runs ctx.old (print (ctx.old.view.pid ∷ []) ∷ []) Halt ctx.new result }
{
    ctx.print(&[ctx.pid()])?;
    Ok(End::Halt)
}
