//! What a turn has beside its memory.

ghost use Rattle.std.specs.Prelude.{◌≡◌};
ghost use Rattle.bsp_kernels.specs.Machine.{code_without};

/// A word that a turn has beside those of its memory. An operand is the number of a register, whose word is an index.
#[derive(Clone, Copy)]
pub enum Source {
    /// The number of processes.
    Nprocs,
    /// The own number.
    Pid,
    /// The number of the superstep.
    Step,
    /// The number of words of the own memory.
    MemoryLen,
    /// The tag size in force.
    TagSize,
    /// How many messages are left.
    MessagesLeft,
    /// How many words the payloads of the messages that are left have together.
    WordsLeft,
    /// The length of the first message's payload, or 0 where no message is left.
    FirstLen,
    /// The length of the first message's tag, or 0 where no message is left.
    FirstTagLen,
    /// A word of the first message's tag.
    FirstTag(u8),
    /// A word of the message that was taken last.
    Taken(u8),
    /// An own argument.
    Argument(u8),
    /// A constant of the kernel.
    Constant(u8),
}

impl Source {
    /// The code of the abort that ends a turn where it gives no word.
    pub(crate) fn code_without(self) -> u64
        ensures { result ≡ code_without self }
    {
        match self {
            Source::Argument(_) => 2,
            _ => 1,
        }
    }
}
