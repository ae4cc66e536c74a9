//! What edits replaced, and how it is put back.

ghost use Rattle.std.specs.Prelude.{◌≡◌};
ghost use Rattle.bsp_incr.specs.Inside.Formers.{with_former, restored};

use bsp_model::{Input, Memory, Words};

/// What an edit replaced.
#[derive(Drop)]
pub enum Former {
    Memory { pid: u64, memory: Memory },
    Args { pid: u64, args: Words },
    Limit(u64),
    /// The price of a word of the h-relation and that of a synchronisation.
    Prices { g: u64, l: u64 },
}

/// Puts back what an edit replaced.
fn put_back(input: &mut Input, former: Former)
    ensures { input.new ≡ with_former input.old former }
{
    match former {
        Former::Memory { pid, memory } => input.mems.set(pid as usize, memory),
        Former::Args { pid, args } => input.args.set(pid as usize, args),
        Former::Limit(n) => input.limit = n,
        Former::Prices { g, l } => {
            input.g = g;
            input.l = l;
        }
    }
}

/// Puts back what the edits of a batch replaced, the last first. It takes no memory.
pub fn restore(input: &mut Input, mut formers: Vec<Former>)
    ensures { input.new ≡ restored input.old formers.items }
{
    while let Some(former) = formers.pop() {
        put_back(input, former);
    }
}
