//! The calls that instructions make.

/// A call of the context. Operands are numbers of registers; but a `count` is a number itself, of registers in a row.
#[derive(Clone, Copy)]
pub enum Call {
    /// `charge(amount)`.
    Charge(u8),
    /// `put(pid, words, area, offset)` of words in registers: `pid`, the first register, `count`, `area`, `offset`.
    Put(u8, u8, u8, u8, u8),
    /// The same of own words: `pid`, `from`, `len`, `area`, `offset`. Where one is missing, the turn ends by `Abort(1)`.
    PutBlock(u8, u8, u8, u8, u8),
    /// The same of constants.
    PutConstants(u8, u8, u8, u8, u8),
    /// `get(pid, area, offset, into, len)`.
    Get(u8, u8, u8, u8, u8),
    /// `send(pid, tag, words)` of words in registers: `pid`, first register and `count` of the tag, first register and `count` of the payload.
    Send(u8, u8, u8, u8, u8),
    /// The same with a payload of own words, `from` and `len`. Where one is missing, the turn ends by `Abort(1)`.
    SendBlock(u8, u8, u8, u8, u8),
    /// The same with a payload of constants.
    SendConstants(u8, u8, u8, u8, u8),
    /// `push_reg(start, len)`.
    PushReg(u8, u8),
    /// `pop_reg(start)`.
    PopReg(u8),
    /// Sets a register, its first operand, to the answer of `set_tagsize(size)`: the tag size in force.
    SetTagsize(u8, u8),
    /// `print(words)` of words in registers: the first register, `count`.
    Print(u8, u8),
    /// The same of own words: `from`, `len`. Where one is missing, the turn ends by `Abort(1)`.
    PrintBlock(u8, u8),
    /// Takes the first message by `move_into` a buffer as long as its payload, and sets a register to that length.
    Take(u8),
    /// Stores from an address on, its first operand, words of the message that was taken last: so many, or all.
    StoreTaken(u8, u8),
}
