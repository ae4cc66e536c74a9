//! The names of instructions.

ghost use Rattle.std.specs.Prelude.{◌≡◌};
ghost use Rattle.bsp_kernel.specs.Names.{call_named, operator_named, plain_named, source_named, template_named};

use bsp_kernels::{Call, Instruction, Operator, Source};

fn operator_named(text: &str) -> Option<Operator>
    ensures { result ≡ operator_named text.now }
{
    match text {
        "sub" => Some(Operator::Sub),
        "mul" => Some(Operator::Mul),
        "div" => Some(Operator::Div),
        "rem" => Some(Operator::Rem),
        "and" => Some(Operator::And),
        "or" => Some(Operator::Or),
        "xor" => Some(Operator::Xor),
        "shl" => Some(Operator::Shl),
        "shr" => Some(Operator::Shr),
        "eq" => Some(Operator::Eq),
        "ne" => Some(Operator::Ne),
        "lt" => Some(Operator::Lt),
        "le" => Some(Operator::Le),
        _ => None,
    }
}

fn source_named(text: &str) -> Option<Source>
    ensures { result ≡ source_named text.now }
{
    match text {
        "nprocs" => Some(Source::Nprocs),
        "pid" => Some(Source::Pid),
        "step" => Some(Source::Step),
        "memory_len" => Some(Source::MemoryLen),
        "tag_size" => Some(Source::TagSize),
        "messages_left" => Some(Source::MessagesLeft),
        "words_left" => Some(Source::WordsLeft),
        "first_len" => Some(Source::FirstLen),
        "first_tag_len" => Some(Source::FirstTagLen),
        "first_tag" => Some(Source::FirstTag(0)),
        "taken" => Some(Source::Taken(0)),
        "argument" => Some(Source::Argument(0)),
        "constant" => Some(Source::Constant(0)),
        _ => None,
    }
}

fn call_named(text: &str) -> Option<Call>
    ensures { result ≡ call_named text.now }
{
    match text {
        "charge" => Some(Call::Charge(0)),
        "put" => Some(Call::Put(0, 0, 0, 0, 0)),
        "put_block" => Some(Call::PutBlock(0, 0, 0, 0, 0)),
        "put_constants" => Some(Call::PutConstants(0, 0, 0, 0, 0)),
        "get" => Some(Call::Get(0, 0, 0, 0, 0)),
        "send" => Some(Call::Send(0, 0, 0, 0, 0)),
        "send_block" => Some(Call::SendBlock(0, 0, 0, 0, 0)),
        "send_constants" => Some(Call::SendConstants(0, 0, 0, 0, 0)),
        "push_reg" => Some(Call::PushReg(0, 0)),
        "pop_reg" => Some(Call::PopReg(0)),
        "set_tagsize" => Some(Call::SetTagsize(0, 0)),
        "print" => Some(Call::Print(0, 0)),
        "print_block" => Some(Call::PrintBlock(0, 0)),
        "take" => Some(Call::Take(0)),
        "store_taken" => Some(Call::StoreTaken(0, 0)),
        _ => None,
    }
}

fn plain_named(text: &str) -> Option<Instruction>
    ensures { result ≡ plain_named text.now }
{
    match text {
        "number" => Some(Instruction::Number(0, 0)),
        "copy" => Some(Instruction::Copy(0, 0)),
        "add" => Some(Instruction::Add(0, 0, 0)),
        "load" => Some(Instruction::Load(0, 0)),
        "load_at" => Some(Instruction::LoadAt(0, 0, 0)),
        "store" => Some(Instruction::Store(0, 0)),
        "jump" => Some(Instruction::Jump(0)),
        "unless" => Some(Instruction::Unless(0, 0)),
        "unless_lt" => Some(Instruction::UnlessLess(0, 0, 0)),
        "sync" => Some(Instruction::Sync),
        "halt" => Some(Instruction::Halt),
        "abort" => Some(Instruction::Abort(0)),
        _ => None,
    }
}

/// The instruction with this name, if there is one, with 0 for each operand.
pub fn template_named(text: &str) -> Option<Instruction>
    ensures { result ≡ template_named text.now }
{
    if let Some(operator) = operator_named(text) {
        return Some(Instruction::Compute(operator, 0, 0, 0));
    }
    if let Some(source) = source_named(text) {
        return Some(Instruction::Read(0, source));
    }
    if let Some(call) = call_named(text) {
        return Some(Instruction::Call(call));
    }
    plain_named(text)
}
