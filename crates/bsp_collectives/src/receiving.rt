//! The second halves: what came.

ghost use Rattle.std.specs.Prelude.{◌≡◌, ◌++◌, ◌∷◌, [], length, drop, IfOk, OnOk, option_map};
ghost use Rattle.bsp_model.specs.declared.request.Message.{Message};
ghost use Rattle.bsp_step.specs.Act as act;
ghost use Rattle.bsp_step.specs.Calls.{Runs};
ghost use Rattle.bsp_step.specs.Queue.{first_message, first_words};
ghost use Rattle.bsp_collectives.specs.Messages.{apart, emptied, joined, moves};
ghost use Rattle.bsp_collectives.specs.Halves.{forward};
ghost use Rattle.bsp_collectives.specs.Operation.{combined};

use crate::{Operation, all_gather};
use bsp_model::{Blocks, Words};
use bsp_step::{Ctx, Stop};
use std::alloc::Global;

/// Takes all messages that are left, and answers their words, one message after the other: those of the process with the lowest number first.
pub fn receive(alloc: Global, ctx: &mut Ctx<'_>) -> Result<Words, Stop>
    ensures ran { Runs ctx.old (moves ctx.old.left) (joined ctx.old.left) ctx.new result }
    ensures taken { OnOk result (ctx.new ≡ emptied ctx.old) }
{
    let mut words = Vec::new(alloc);
    while let Some(len) = first_len(ctx) {
        words.extend_from_slice(take_message(alloc, ctx, len)?.as_slice())?;
    }
    Ok(Words::from_vec(words))
}

/// Takes all messages that are left, and answers the words of each, in the order of the processes that sent them. So the number of words of each process is
/// known too.
pub fn receive_parts(alloc: Global, ctx: &mut Ctx<'_>) -> Result<Blocks<Words>, Stop>
    ensures ran { Runs ctx.old (moves ctx.old.left) (apart ctx.old.left) ctx.new result }
    ensures taken { OnOk result (ctx.new ≡ emptied ctx.old) }
{
    let mut parts = Blocks::<Words>::new(alloc);
    while let Some(len) = first_len(ctx) {
        parts.push(take_message(alloc, ctx, len)?.as_slice())?;
    }
    Ok(parts)
}

/// Takes all messages that are left, and answers what the operation makes of their words.
pub fn combine(alloc: Global, ctx: &mut Ctx<'_>, operation: Operation) -> Result<u64, Stop>
    ensures ran { Runs ctx.old (moves ctx.old.left) (combined operation (joined ctx.old.left)) ctx.new result }
    ensures taken { OnOk result (ctx.new ≡ emptied ctx.old) }
{
    Ok(operation.combine(receive(alloc, ctx)?.as_slice()))
}

/// The middle of a broadcast in two supersteps: takes all messages that are left, and sends their words to all processes.
pub fn forward(alloc: Global, ctx: &mut Ctx<'_>) -> Result<(), Stop>
    ensures { Runs ctx.old (forward ctx.old.view ctx.old.left) tt ctx.new result }
{
    let words = receive(alloc, ctx)?;
    all_gather(ctx, words.as_slice())
}

/// The length of the first message that is left, if one is.
fn first_len(ctx: &Ctx<'_>) -> Option<usize>
    ensures { result ≡ option_map (λ (m : Message). length m.words) (first_message ctx.now.left) }
{
    let (len, _) = ctx.get_tag()?;
    Some(len)
}

/// Takes the first message, which has so many words.
fn take_message(alloc: Global, ctx: &mut Ctx<'_>, len: usize) -> Result<Words, Stop>
    requires { len ≡ length (first_words ctx.old.left) }
    ensures ran { Runs ctx.old (act.move_into len ∷ []) (first_words ctx.old.left) ctx.new result }
    ensures left { OnOk result (ctx.new ≡ record ctx.old { left = drop 1 ctx.old.left }) }
{
    let mut words = vec![in alloc; 0; len]?;
    ctx.move_into(&mut words)?;
    Ok(Words::from_vec(words))
}
