//! Kernels.

ghost use Rattle.std.specs.Prelude.{◌≡◌, length};
ghost use Rattle.bsp_step.specs.Calls.{Runs};
ghost use Rattle.bsp_step.specs.Footprint.{same_where_looked_at};
ghost use Rattle.bsp_kernels.specs.Inside.Making.{Leaves};
ghost use Rattle.bsp_kernels.specs.Kernels.{kernel_looks};
ghost use Rattle.bsp_kernels.specs.Machine.{first_state, plan_from, setting_of};

use crate::Instruction;
use crate::exit::Exit;
use crate::looking::{Knowledge, Shown, are_same_within, is_within};
use crate::machine::Machine;
use bsp_model::{End, MemoryRef, OutOfMemory, Same, Seq, Words};
use bsp_step::{Ctx, Program, Stop, View, settle};
use std::alloc::Global;

/// A program that is given by instructions. Each process follows them in each superstep from the first one on, with 0 in each of its 256 registers.
#[derive(Drop)]
pub struct Kernel {
    pub code: Seq<Instruction>,
    /// Words that instructions may read, put and send, as many as one likes.
    pub constants: Words,
    /// How many instructions a turn may follow. A turn that would follow more ends by `Abort(6)`.
    pub budget: u64,
    /// How many instructions are followed to find at which words a turn looks. A turn that follows more looks at all.
    pub looking_budget: u64,
}

impl Kernel {
    fn follow_all(&self, alloc: Global, ctx: &mut Ctx<'_>) -> Exit
        ensures { Leaves ctx.old (plan_from self.now.code self.now.budget (first_state
            (setting_of self.now.constants ctx.old.view) ctx.old.memory ctx.old.left)) ctx.new result }
    {
        let code = self.code.as_slice();
        let constants = self.constants.as_slice();
        let mut machine = Machine::new(alloc, constants);
        let mut place = 0;
        for spent in 0..self.budget {
            let Some(instruction) = code.get(place) else {
                return Exit::Ended(End::Sync);
            };
            match machine.follow(instruction, ctx, place) {
                Ok(next) => place = next,
                Err(exit) => return exit,
            }
        }
        Exit::Ended(End::Abort(6))
    }

    fn run(&self, alloc: Global, ctx: &mut Ctx<'_>) -> Result<End, Stop>
        ensures { let plan = plan_from self.now.code self.now.budget (first_state
            (setting_of self.now.constants ctx.old.view) ctx.old.memory ctx.old.left)
            in Runs ctx.old plan.acts plan.ending ctx.new result }
    {
        match self.follow_all(alloc, ctx) {
            Exit::Ended(how) => Ok(how),
            Exit::Stopped(stop) => Err(stop),
        }
    }

    fn looks_at(&self, view: &View<'_>, address: u64) -> bool
        ensures { result ≡ kernel_looks self.now view.now address }
    {
        let code = self.code.as_slice();
        let constants = self.constants.as_slice();
        let mut knowledge = Knowledge::new();
        let mut place = 0;
        for shown in 0..self.looking_budget {
            let Some(instruction) = code.get(place) else {
                return false;
            };
            match knowledge.show(*instruction, constants, view, place) {
                Shown::Everywhere => return true,
                Shown::Over => return false,
                Shown::Reads(from, len, next) => {
                    if is_within(from, len, address) {
                        return true;
                    }
                    place = next;
                }
            }
        }
        true
    }

    /// Whether a memory has the words of the view's at each address at which the turn looks. The turn is followed once.
    fn sees_same(&self, view: &View<'_>, memory: &MemoryRef<'_>) -> bool
        requires { length view.now.memory ≡ length memory.now }
        ensures { result ≡ same_where_looked_at (kernel_looks self.now view.now) view.now.memory memory.now }
    {
        if view.memory.same(&*memory) {
            return true;
        }
        let code = self.code.as_slice();
        let constants = self.constants.as_slice();
        let mut knowledge = Knowledge::new();
        let mut place = 0;
        for shown in 0..self.looking_budget {
            let Some(instruction) = code.get(place) else {
                return true;
            };
            match knowledge.show(*instruction, constants, view, place) {
                Shown::Everywhere => return false,
                Shown::Over => return true,
                Shown::Reads(from, len, next) => {
                    if !are_same_within(&view.memory, memory, from, len) {
                        return false;
                    }
                    place = next;
                }
            }
        }
        false
    }
}

impl Program for Kernel {
    ghost use Rattle.bsp_kernels.specs.Kernels.{kernel_acts, kernel_ending, kernel_looks};
    ghost use Rattle.bsp_kernels.specs.Footprint.{kernel_footprint};

    ghost acts = { kernel_acts };

    ghost ending = { kernel_ending };

    ghost looks = { kernel_looks };

    ghost footprint = { kernel_footprint };

    fn looks(&self, view: &View<'_>, address: u64) -> bool {
        self.looks_at(view, address)
    }

    fn sees_same_memory(&self, view: &View<'_>, memory: &MemoryRef<'_>) -> Option<bool> {
        Some(self.sees_same(view, memory))
    }

    fn step(&self, alloc: Global, ctx: &mut Ctx<'_>) -> Result<End, OutOfMemory> {
        settle(self.run(alloc, ctx))
    }
}
