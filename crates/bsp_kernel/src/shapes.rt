//! Whether values are instructions (J3), and whether a number of them is negative (J7).

ghost use Rattle.std.specs.Prelude.{◌≡◌, map, option_map};
ghost use Rattle.std.specs.List.{list_all, list_any};
ghost use Rattle.toml.specs.View.{view};
ghost use Rattle.bsp_kernel.specs.Shapes.{are_of_kinds, call_kinds, has_negative_number, is_code};
ghost use Rattle.bsp_kernel.specs.Shapes.{is_instruction, is_of_kind, kinds_of, most_of, name_in, source_kinds, template_in};

use crate::names::template_named;
use crate::operands::Kind;
use crate::operands::Kind::{Number, Place, Register};
use bsp_engine::tree::{elements, natural_of};
use bsp_engine::{Each, NotNegative, all_fit};
use bsp_kernels::{Call, Instruction, Source};
use toml::Value;

/// The name of an instruction, with which the values begin.
pub fn name_in(values: &[Value]) -> Option<&str>
    ensures { option_map (λ name. name.now) result ≡ name_in (map view values.now) }
{
    values.first()?.as_str()
}

/// The instruction whose name the values begin with, if there is one, with 0 for each operand.
pub fn template_in(values: &[Value]) -> Option<Instruction>
    ensures { result ≡ template_in (map view values.now) }
{
    template_named(name_in(values)?)
}

fn source_kinds(source: Source) -> &'static [Kind]
    ensures { result.now ≡ source_kinds source }
{
    match source {
        Source::FirstTag(_) | Source::Taken(_) | Source::Argument(_) | Source::Constant(_) => {
            &[Register, Register]
        }
        Source::Nprocs
        | Source::Pid
        | Source::Step
        | Source::MemoryLen
        | Source::TagSize
        | Source::MessagesLeft
        | Source::WordsLeft
        | Source::FirstLen
        | Source::FirstTagLen => &[Register],
    }
}

fn call_kinds(call: Call) -> &'static [Kind]
    ensures { result.now ≡ call_kinds call }
{
    match call {
        Call::Charge(_) | Call::PopReg(_) | Call::Take(_) => &[Register],
        Call::PushReg(_, _)
        | Call::SetTagsize(_, _)
        | Call::Print(_, _)
        | Call::PrintBlock(_, _)
        | Call::StoreTaken(_, _) => &[Register, Register],
        Call::Put(_, _, _, _, _)
        | Call::PutBlock(_, _, _, _, _)
        | Call::PutConstants(_, _, _, _, _)
        | Call::Get(_, _, _, _, _)
        | Call::Send(_, _, _, _, _)
        | Call::SendBlock(_, _, _, _, _)
        | Call::SendConstants(_, _, _, _, _) => {
            &[Register, Register, Register, Register, Register]
        }
    }
}

/// The operands of an instruction.
pub fn kinds_of(template: Instruction) -> &'static [Kind]
    ensures { result.now ≡ kinds_of template }
{
    match template {
        Instruction::Number(_, _) => &[Register, Number],
        Instruction::Copy(_, _) | Instruction::Load(_, _) | Instruction::Store(_, _) => {
            &[Register, Register]
        }
        Instruction::Add(_, _, _)
        | Instruction::Compute(_, _, _, _)
        | Instruction::LoadAt(_, _, _) => &[Register, Register, Register],
        Instruction::Read(_, source) => source_kinds(source),
        Instruction::Jump(_) => &[Place],
        Instruction::Unless(_, _) => &[Register, Place],
        Instruction::UnlessLess(_, _, _) => &[Register, Register, Place],
        Instruction::Call(call) => call_kinds(call),
        Instruction::Sync | Instruction::Halt => &[],
        Instruction::Abort(_) => &[Register],
    }
}

/// The greatest number that such an operand may be, in a code of so many instructions.
pub fn most_of(kind: Kind, places: usize) -> u64
    ensures { result ≡ most_of kind places }
{
    match kind {
        Kind::Register => 255,
        Kind::Number => u32::MAX as u64,
        Kind::Place => (places as u64).min(u32::MAX as u64),
    }
}

/// Whether a value may be such an operand in a code of so many instructions. A negative integer may: it is refused later.
pub fn is_of_kind(kind: Kind, places: usize, value: &Value) -> bool
    ensures { result ≡ is_of_kind kind places (view value.now) }
{
    value.is_integer() && natural_of(value.as_integer()) <= most_of(kind, places)
}

/// Whether there are as many values as kinds, each of its kind.
fn are_of_kinds(kinds: &[Kind], places: usize, values: &[Value]) -> bool
    ensures { result ≡ are_of_kinds kinds.now places (map view values.now) }
{
    if kinds.len() != values.len() {
        return false;
    }
    for i in 0..kinds.len() {
        if !is_of_kind(kinds[i], places, &values[i]) {
            return false;
        }
    }
    true
}

pub fn is_instruction(places: usize, value: &Value) -> bool
    ensures { result ≡ is_instruction places (view value.now) }
{
    let values = elements(value);
    let Some((_name, operands)) = values.split_first() else {
        return false;
    };
    match template_in(values) {
        Some(template) => are_of_kinds(kinds_of(template), places, operands),
        None => false,
    }
}

fn are_instructions(places: usize, values: &[Value]) -> bool
    ensures { result ≡ list_all (is_instruction places) (map view values.now) }
{
    for value in values {
        if !is_instruction(places, value) {
            return false;
        }
    }
    true
}

/// Whether a value is an array of instructions.
pub fn is_code(value: &Value) -> bool
    ensures { result ≡ is_code (view value.now) }
{
    let values = elements(value);
    value.is_array() && are_instructions(values.len(), values)
}

/// Whether an element of one of the instructions is negative.
pub fn has_negative_number(instructions: &[Value]) -> bool
    ensures { result ≡ list_any has_negative_number (map view instructions.now) }
{
    !all_fit::<Each<NotNegative>>(instructions)
}
