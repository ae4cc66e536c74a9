//! The machine that follows instructions.

ghost use Rattle.std.specs.Prelude.{◌≡◌, ◌+◌, ◌<◌, ◌^◌, IfErr, OnOk, Ok, Err, Some, drop, slice_get, slice_index, take};
ghost use Rattle.bsp_step.specs.Context.{Context};
ghost use Rattle.bsp_kernels.specs.Inside.Making.{Makes, state_at};
ghost use Rattle.bsp_kernels.specs.Machine.{effect, first_state, sets, setting_of};

mod blocks;
mod calls;
mod reading;
mod taking;

use crate::Instruction;
use crate::exit::Exit;
use bsp_model::{End, Words};
use bsp_step::{Ctx, Stop};
pub(crate) use reading::word_at;
use std::alloc::Global;

/// The words of the registers, one for each number of 8 bits.
pub(crate) type Registers = [u64; 256];

/// The machine in a turn, but for the place of the next instruction and for what the context has.
#[derive(Drop)]
pub(crate) struct Machine<'k> {
    pub(crate) constants: &'k [u64],
    pub(crate) registers: Registers,
    /// The words of the message that was taken last.
    pub(crate) taken: Words,
}

/// Goes on behind a call, or stops where it did.
#[inline(always)]
fn acted<T: Drop>(answer: Result<T, Stop>, next: usize) -> Result<usize, Exit>
    ensures ok { OnOk answer (result ≡ Ok next) }
    ensures err { IfErr answer (λ stop. result ≡ Err (Exit.Stopped stop)) }
{
    match answer {
        Ok(_) => Ok(next),
        Err(stop) => Err(Exit::Stopped(stop)),
    }
}

fn ended<T>(how: End) -> Result<T, Exit>
    ensures { result ≡ Err (Exit.Ended how) }
{
    Err(Exit::Ended(how))
}

impl<'k> Machine<'k> {
    /// The machine as a turn begins.
    pub(crate) fn new(alloc: Global, constants: &'k [u64]) -> Machine<'k>
        ensures { (c : Context) → state_at result c 0
            ≡ first_state (setting_of constants.now c.view) c.memory c.left }
    {
        Machine {
            constants,
            registers: [0; 256],
            taken: Words::new(alloc),
        }
    }

    #[inline(always)]
    fn word(&self, r: u8) -> u64
        ensures { result ≡ slice_index self.now.registers r }
    {
        self.registers[r as usize]
    }

    /// The words of so many registers in a row, or of those that there are.
    fn words(&self, first: u8, count: u8) -> &[u64]
        ensures { result.now ≡ take count (drop first self.now.registers) }
    {
        let (_, from) = self.registers.split_at(first as usize);
        let (words, _) = from.split_at((count as usize).min(from.len()));
        words
    }

    /// Sets a register to the own word at an address. Where there is none, the turn ends.
    #[inline(always)]
    fn load(&mut self, ctx: &Ctx<'_>, place: usize, r: u8, address: u64) -> Result<usize, Exit>
        requires { place + 1 < 2 ^ 64 }
        ensures { Makes ctx.now (sets (state_at self.old ctx.now place) r 1 (slice_get ctx.now.memory address))
            ctx.now self.new result }
    {
        let Some(word) = ctx.load(address) else {
            return ended(End::Abort(1));
        };
        self.registers[r as usize] = word;
        Ok(place + 1)
    }

    /// Follows an instruction at a place, and answers the place of the next.
    #[inline(always)]
    pub(crate) fn follow(
        &mut self,
        instruction: &Instruction,
        ctx: &mut Ctx<'_>,
        place: usize,
    ) -> Result<usize, Exit>
        requires { place + 1 < 2 ^ 64 }
        ensures { Makes ctx.old (effect (state_at self.old ctx.old place) (Some instruction.now)) ctx.new self.new result }
    {
        let next = place + 1;
        match *instruction {
            Instruction::Number(r, n) => {
                self.registers[r as usize] = n as u64;
                Ok(next)
            }
            Instruction::Copy(r, a) => {
                self.registers[r as usize] = self.word(a);
                Ok(next)
            }
            Instruction::Add(r, a, b) => {
                self.registers[r as usize] = self.word(a).wrapping_add(self.word(b));
                Ok(next)
            }
            Instruction::Compute(operator, r, a, b) => {
                let Some(word) = operator.apply(self.word(a), self.word(b)) else {
                    return ended(End::Abort(5));
                };
                self.registers[r as usize] = word;
                Ok(next)
            }
            Instruction::Read(r, source) => {
                let Some(word) = self.read(source, ctx) else {
                    return ended(End::Abort(source.code_without()));
                };
                self.registers[r as usize] = word;
                Ok(next)
            }
            Instruction::Load(r, a) => {
                let address = self.word(a);
                self.load(ctx, place, r, address)
            }
            Instruction::LoadAt(r, a, b) => {
                let address = self.word(a).wrapping_add(self.word(b));
                self.load(ctx, place, r, address)
            }
            Instruction::Store(a, w) => acted(ctx.store(self.word(a), self.word(w)), next),
            Instruction::Jump(to) => Ok(to as usize),
            Instruction::Unless(a, to) => Ok(if self.word(a) == 0 { to as usize } else { next }),
            Instruction::UnlessLess(a, b, to) => {
                Ok(if self.word(a) < self.word(b) {
                    next
                } else {
                    to as usize
                })
            }
            Instruction::Call(call) => self.make(call, ctx, place),
            Instruction::Sync => ended(End::Sync),
            Instruction::Halt => ended(End::Halt),
            Instruction::Abort(code) => ended(End::Abort(self.word(code))),
        }
    }
}
