//! The instructions of a kernel.

use crate::{Call, Operator, Source};

/// An instruction. Its operands are numbers of registers, but for those named `count`, numbers and places. The register that it sets comes first.
#[derive(Clone, Copy)]
pub enum Instruction {
    /// Sets a register to a number.
    Number(u8, u32),
    /// Sets a register to the word of another.
    Copy(u8, u8),
    /// Sets a register to the sum of the words of two, modulo 2^64.
    Add(u8, u8, u8),
    /// Sets a register to what an operator makes of the words of two. A division by 0 ends the turn by `Abort(5)`.
    Compute(Operator, u8, u8, u8),
    /// Sets a register to a word that the turn has beside its memory. Where it is missing, the turn ends: by `Abort(2)` for an argument,
    /// else by `Abort(1)`.
    Read(u8, Source),
    /// Sets a register to the own word at an address, as it is now. Where there is none, the turn ends by `Abort(1)`.
    Load(u8, u8),
    /// The same of the own word whose address is the sum of two registers' words.
    LoadAt(u8, u8, u8),
    /// Stores at an address (first) a word (second).
    Store(u8, u8),
    /// Goes on at a place of the code. Places count from 0; past the last instruction the turn syncs.
    Jump(u32),
    /// Goes on at a place where the register is 0, else behind the instruction.
    Unless(u8, u32),
    /// Goes on at a place where the first register's word is not less than the second's, else behind the instruction.
    UnlessLess(u8, u8, u32),
    /// Makes a call of the context.
    Call(Call),
    /// Ends the turn; the process goes on to the next superstep.
    Sync,
    /// Ends the turn and the process.
    Halt,
    /// Ends the turn and the whole computation, with a code.
    Abort(u8),
}
