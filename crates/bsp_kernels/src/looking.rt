//! At which own words a turn looks: its instructions are followed without the words of the memory.

ghost use Rattle.std.specs.Prelude.{◌≡◌, ℕ, List, [], ◌+◌, ◌<◌, ◌^◌, Some, is_some, length, slice_set, unwrap_or};
ghost use Rattle.bsp_model.specs.declared.request.Message.{Message};
ghost use Rattle.bsp_step.specs.Footprint.{same_where_looked_at};
ghost use Rattle.bsp_kernels.specs.Inside.Showing.{Shows, block_shown, known_at};
ghost use Rattle.bsp_kernels.specs.Known.{added, both, call_sight, first_known, known_word, sight, within};
ghost use Rattle.bsp_kernels.specs.Machine.{setting_of};
ghost use Rattle.bsp_kernels.specs.Operators.{applied};

mod sources;

use crate::machine::Registers;
use crate::{Call, Instruction, Operator};
use bsp_model::MemoryRef;
use bsp_step::View;

/// What is known of a turn without the words of the memory.
#[derive(Clone, Copy)]
pub(crate) struct Knowledge {
    pub(crate) registers: Registers,
    /// Which registers have a word that is known.
    pub(crate) known: [bool; 256],
    /// How many messages are taken.
    pub(crate) taken: usize,
}

/// At which own words an instruction looks.
#[derive(Clone, Copy)]
pub(crate) enum Shown {
    /// It depends on own words where the turn goes on, or at which words it looks.
    Everywhere,
    /// The turn ends.
    Over,
    /// At so many words from an address on; and the place of the next instruction.
    Reads(u64, u64, usize),
}

/// Whether an address is one of so many from one on.
#[inline(always)]
pub(crate) fn is_within(from: u64, len: u64, address: u64) -> bool
    ensures { result ≡ within from len address }
{
    from <= address && address - from < len
}

/// Whether two memories have the same words at so many addresses from one on, as far as the memories go.
pub(crate) fn are_same_within(old: &MemoryRef<'_>, new: &MemoryRef<'_>, from: u64, len: u64) -> bool
    requires long { length old.now ≡ length new.now }
    requires fits { length old.now < 2 ^ 64 }
    ensures { result ≡ same_where_looked_at (within from len) old.now new.now }
{
    let start = from.min(old.len() as u64);
    let count = (len as usize).min(old.len() - start as usize);
    count == 0 || old.has_same_words(start, new, start, count)
}

fn block(from: Option<u64>, len: Option<u64>, next: usize) -> Shown
    ensures { result ≡ block_shown from len next }
{
    match (from, len) {
        (Some(from), Some(len)) => Shown::Reads(from, len, next),
        _ => Shown::Everywhere,
    }
}

impl Knowledge {
    /// What is known as a turn begins: each register has 0.
    pub(crate) fn new() -> Knowledge
        ensures { (queue : List Message) → known_at queue result 0 ≡ first_known queue }
    {
        Knowledge {
            registers: [0; 256],
            known: [true; 256],
            taken: 0,
        }
    }

    /// The word of a register, if it is known.
    fn word(&self, r: u8) -> Option<u64>
        ensures { result ≡ known_word (known_at [] self.now 0) r }
    {
        if self.known[r as usize] {
            Some(self.registers[r as usize])
        } else {
            None
        }
    }

    /// A register is set to a word, or to one that is not known, and the turn goes on.
    fn learn(&mut self, r: u8, word: Option<u64>, next: usize) -> Shown
        ensures shown { result ≡ Shown.Reads 0 0 next }
        ensures learnt { self.new ≡ record self.old {
          registers = slice_set self.old.registers r (unwrap_or word 0);
          known = slice_set self.old.known r (is_some word);
        } }
    {
        self.registers[r as usize] = word.unwrap_or(0);
        self.known[r as usize] = word.is_some();
        Shown::Reads(0, 0, next)
    }

    /// What an operator makes of the words of two registers, if that is known.
    fn computed(&self, operator: Operator, a: u8, b: u8) -> Option<u64>
        ensures { let k = known_at [] self.now 0 in
            result ≡ both (applied operator) (known_word k a) (known_word k b) }
    {
        match (self.word(a), self.word(b)) {
            (Some(x), Some(y)) => operator.apply(x, y),
            _ => None,
        }
    }

    /// The sum of the words of two registers, if both are known.
    fn sum(&self, a: u8, b: u8) -> Option<u64>
        ensures { let k = known_at [] self.now 0 in
            result ≡ both added (known_word k a) (known_word k b) }
    {
        match (self.word(a), self.word(b)) {
            (Some(x), Some(y)) => Some(x.wrapping_add(y)),
            _ => None,
        }
    }

    /// What an instruction at a place shows.
    pub(crate) fn show(
        &mut self,
        instruction: Instruction,
        constants: &[u64],
        view: &View<'_>,
        place: usize,
    ) -> Shown
        requires { place + 1 < 2 ^ 64 }
        ensures { Shows (sight (setting_of constants.now view.now) (known_at view.now.queue self.old place)
            (Some instruction)) result view.now.queue self.new }
    {
        let next = place + 1;
        match instruction {
            Instruction::Number(r, n) => self.learn(r, Some(n as u64), next),
            Instruction::Copy(r, a) => {
                let word = self.word(a);
                self.learn(r, word, next)
            }
            Instruction::Add(r, a, b) => {
                let word = self.sum(a, b);
                self.learn(r, word, next)
            }
            Instruction::Compute(operator, r, a, b) => {
                let word = self.computed(operator, a, b);
                self.learn(r, word, next)
            }
            Instruction::Read(r, source) => {
                let word = self.source(source, constants, view);
                self.learn(r, word, next)
            }
            Instruction::Load(r, a) => match self.word(a) {
                Some(address) => {
                    self.learn(r, None, next);
                    Shown::Reads(address, 1, next)
                }
                None => Shown::Everywhere,
            },
            Instruction::LoadAt(r, a, b) => match self.sum(a, b) {
                Some(address) => {
                    self.learn(r, None, next);
                    Shown::Reads(address, 1, next)
                }
                None => Shown::Everywhere,
            },
            Instruction::Store(_, _) => Shown::Reads(0, 0, next),
            Instruction::Jump(to) => Shown::Reads(0, 0, to as usize),
            Instruction::Unless(a, to) => match self.word(a) {
                Some(0) => Shown::Reads(0, 0, to as usize),
                Some(_) => Shown::Reads(0, 0, next),
                None => Shown::Everywhere,
            },
            Instruction::UnlessLess(a, b, to) => match (self.word(a), self.word(b)) {
                (Some(x), Some(y)) => Shown::Reads(0, 0, if x < y { next } else { to as usize }),
                _ => Shown::Everywhere,
            },
            Instruction::Call(call) => self.show_call(call, view, place),
            Instruction::Sync | Instruction::Halt | Instruction::Abort(_) => Shown::Over,
        }
    }

    fn show_call(&mut self, call: Call, view: &View<'_>, place: usize) -> Shown
        requires { place + 1 < 2 ^ 64 }
        ensures { (constants : List ℕ) → Shows (call_sight (setting_of constants view.now)
            (known_at view.now.queue self.old place) call) result view.now.queue self.new }
    {
        let next = place + 1;
        match call {
            Call::PutBlock(_, from, len, _, _) => block(self.word(from), self.word(len), next),
            Call::SendBlock(_, _, _, from, len) => block(self.word(from), self.word(len), next),
            Call::PrintBlock(from, len) => block(self.word(from), self.word(len), next),
            Call::SetTagsize(r, _) => self.learn(r, Some(view.tag_size), next),
            Call::Take(r) => self.take(r, view, next),
            Call::Charge(_)
            | Call::Put(_, _, _, _, _)
            | Call::PutConstants(_, _, _, _, _)
            | Call::Get(_, _, _, _, _)
            | Call::Send(_, _, _, _, _)
            | Call::SendConstants(_, _, _, _, _)
            | Call::PushReg(_, _)
            | Call::PopReg(_)
            | Call::Print(_, _)
            | Call::StoreTaken(_, _) => Shown::Reads(0, 0, next),
        }
    }
}
