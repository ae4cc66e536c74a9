//! The operands of instructions.

ghost use Rattle.std.specs.Prelude.{◌≡◌, map};
ghost use Rattle.toml.specs.View.{view};
ghost use Rattle.bsp_kernel.specs.Operands.{filled, filled_call, filled_source, number_in, register_in};

use bsp_engine::tree::number_at;
use bsp_kernels::{Call, Instruction, Source};
use toml::Value;

/// What an operand may be.
#[derive(Clone, Copy)]
pub enum Kind {
    /// The number of a register, or a count of registers: 0 to 255.
    Register,
    /// A number below 2^32.
    Number,
    /// A place of the code, or the place behind its last instruction.
    Place,
}

fn register_in(values: &[Value], place: usize) -> u8
    ensures { result ≡ register_in place (map view values.now) }
{
    number_at(values, place).min(255) as u8
}

fn number_in(values: &[Value], place: usize) -> u32
    ensures { result ≡ number_in place (map view values.now) }
{
    number_at(values, place).min(u32::MAX as u64) as u32
}

fn filled_source(source: Source, values: &[Value]) -> Source
    ensures { result ≡ filled_source source (map view values.now) }
{
    match source {
        Source::FirstTag(_) => Source::FirstTag(register_in(values, 2)),
        Source::Taken(_) => Source::Taken(register_in(values, 2)),
        Source::Argument(_) => Source::Argument(register_in(values, 2)),
        Source::Constant(_) => Source::Constant(register_in(values, 2)),
        Source::Nprocs => Source::Nprocs,
        Source::Pid => Source::Pid,
        Source::Step => Source::Step,
        Source::MemoryLen => Source::MemoryLen,
        Source::TagSize => Source::TagSize,
        Source::MessagesLeft => Source::MessagesLeft,
        Source::WordsLeft => Source::WordsLeft,
        Source::FirstLen => Source::FirstLen,
        Source::FirstTagLen => Source::FirstTagLen,
    }
}

fn filled_call(call: Call, values: &[Value]) -> Call
    ensures { result ≡ filled_call call (map view values.now) }
{
    let a = register_in(values, 1);
    let b = register_in(values, 2);
    let c = register_in(values, 3);
    let d = register_in(values, 4);
    let e = register_in(values, 5);
    match call {
        Call::Charge(_) => Call::Charge(a),
        Call::Put(_, _, _, _, _) => Call::Put(a, b, c, d, e),
        Call::PutBlock(_, _, _, _, _) => Call::PutBlock(a, b, c, d, e),
        Call::PutConstants(_, _, _, _, _) => Call::PutConstants(a, b, c, d, e),
        Call::Get(_, _, _, _, _) => Call::Get(a, b, c, d, e),
        Call::Send(_, _, _, _, _) => Call::Send(a, b, c, d, e),
        Call::SendBlock(_, _, _, _, _) => Call::SendBlock(a, b, c, d, e),
        Call::SendConstants(_, _, _, _, _) => Call::SendConstants(a, b, c, d, e),
        Call::PushReg(_, _) => Call::PushReg(a, b),
        Call::PopReg(_) => Call::PopReg(a),
        Call::SetTagsize(_, _) => Call::SetTagsize(a, b),
        Call::Print(_, _) => Call::Print(a, b),
        Call::PrintBlock(_, _) => Call::PrintBlock(a, b),
        Call::Take(_) => Call::Take(a),
        Call::StoreTaken(_, _) => Call::StoreTaken(a, b),
    }
}

/// The instruction with the operands that stand behind its name.
pub fn filled(template: Instruction, values: &[Value]) -> Instruction
    ensures { result ≡ filled template (map view values.now) }
{
    let a = register_in(values, 1);
    let b = register_in(values, 2);
    match template {
        Instruction::Number(_, _) => Instruction::Number(a, number_in(values, 2)),
        Instruction::Copy(_, _) => Instruction::Copy(a, b),
        Instruction::Add(_, _, _) => Instruction::Add(a, b, register_in(values, 3)),
        Instruction::Compute(operator, _, _, _) => {
            Instruction::Compute(operator, a, b, register_in(values, 3))
        }
        Instruction::Read(_, source) => Instruction::Read(a, filled_source(source, values)),
        Instruction::Load(_, _) => Instruction::Load(a, b),
        Instruction::LoadAt(_, _, _) => Instruction::LoadAt(a, b, register_in(values, 3)),
        Instruction::Store(_, _) => Instruction::Store(a, b),
        Instruction::Jump(_) => Instruction::Jump(number_in(values, 1)),
        Instruction::Unless(_, _) => Instruction::Unless(a, number_in(values, 2)),
        Instruction::UnlessLess(_, _, _) => Instruction::UnlessLess(a, b, number_in(values, 3)),
        Instruction::Call(call) => Instruction::Call(filled_call(call, values)),
        Instruction::Sync => Instruction::Sync,
        Instruction::Halt => Instruction::Halt,
        Instruction::Abort(_) => Instruction::Abort(a),
    }
}
