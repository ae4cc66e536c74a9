//! The superstep of a matrix product in which the messages come.

ghost use Rattle.std.specs.Prelude.{◌≡◌, ◌<◌, ◌+◌, ◌∷◌, ◌^◌, length, drop, OnOk, IfSome, option_and_then, nat_eq, not};
ghost use Rattle.bsp_step.specs.Act as act;
ghost use Rattle.bsp_step.specs.Calls.{Runs};
ghost use Rattle.bsp_step.specs.Queue.{first_message, first_words};
ghost use Rattle.bsp_programs.specs.MatVec.{matvec_receiving, sender_of};
ghost use Rattle.bsp_step.specs.Blocks.{stores, stored};

use super::layout::Layout;
use super::multiplying::multiply;
use bsp_model::End;
use bsp_model::limits::MOST_LINE_WORDS;
use bsp_step::{Ctx, Stop};
use std::alloc::Global;

/// Puts the blocks that came together to the whole vector, and multiplies.
pub(super) fn receive_and_multiply(
    alloc: Global,
    ctx: &mut Ctx<'_>,
    layout: Layout,
) -> Result<End, Stop>
    ensures { let plan = matvec_receiving layout.nprocs layout.block ctx.old.memory ctx.old.left
        in Runs ctx.old plan.acts plan.ending ctx.new result }
{
    let mut words = [0; MOST_LINE_WORDS];
    let words = &mut words[..layout.block as usize];
    while ctx.get_tag().is_some() {
        let Some(sender) = sender_of_first(ctx, layout) else {
            return Ok(End::Abort(3));
        };
        take_block(ctx, layout.place_of(sender), words)?;
    }
    multiply(alloc, ctx, layout)
}

/// The process whose block the first message is.
fn sender_of_first(ctx: &Ctx<'_>, layout: Layout) -> Option<u64>
    ensures sender { result ≡ option_and_then (sender_of layout.nprocs layout.block) (first_message ctx.now.left) }
    ensures below { IfSome result (λ j. j < layout.nprocs) }
    ensures whole { IfSome result (λ j. length (first_words ctx.now.left) ≡ layout.block) }
{
    let (len, tag) = ctx.get_tag()?;
    if len as u64 != layout.block {
        return None;
    }
    let sender = *tag.first()?;
    (sender < layout.nprocs).then_some(sender)
}

/// Takes the first message, which is as long as the words, and stores its words from `start` on.
fn take_block(ctx: &mut Ctx<'_>, start: u64, words: &mut [u64]) -> Result<(), Stop>
    requires { length (first_words ctx.old.left) ≡ length words.old }
    ensures ran { Runs ctx.old (act.move_into (length words.old) ∷ stores start
        (first_words ctx.old.left)) tt ctx.new result }
    ensures memory { OnOk result (ctx.new.memory ≡ stored ctx.old.memory start (first_words ctx.old.left)) }
    ensures left { OnOk result (ctx.new.left ≡ drop 1 ctx.old.left) }
    ensures view { OnOk result (ctx.new.view ≡ ctx.old.view) }
{
    ctx.move_into(words)?;
    ctx.store_words(start, words)
}
