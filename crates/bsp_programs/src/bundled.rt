//! The bundled programs by name.

ghost use Rattle.std.specs.Prelude.{◌≡◌};

use crate::{Broadcast, MatVec, Prefix, Rank};
use bsp_model::{End, OutOfMemory};
use bsp_step::{Ctx, Program, View};
use std::alloc::Global;

/// One of the bundled programs. Its answers are that program's.
#[derive(Clone, Copy)]
pub enum Bundled {
    Broadcast(Broadcast),
    Prefix(Prefix),
    MatVec(MatVec),
    Rank(Rank),
}

/// The names of the bundled programs, in words.
pub const NAMES: &str = "broadcast, prefix, matvec and rank";

impl Bundled {
    ghost use Rattle.bsp_programs.specs.Bundled.{program_named};

    /// The bundled program with this name: `broadcast`, `prefix`, `matvec` or `rank`. No program has another name. It takes no memory.
    pub fn by_name(name: &str) -> Option<Bundled>
        ensures { result ≡ program_named name.now }
    {
        match name {
            "broadcast" => Some(Bundled::Broadcast(Broadcast)),
            "prefix" => Some(Bundled::Prefix(Prefix)),
            "matvec" => Some(Bundled::MatVec(MatVec)),
            "rank" => Some(Bundled::Rank(Rank)),
            _ => None,
        }
    }
}

impl Program for Bundled {
    ghost use Rattle.bsp_programs.specs.Bundled.{bundled_plan, bundled_looks};
    ghost use Rattle.bsp_programs.specs.BundledFootprint.{bundled_footprint};

    ghost acts = { λ p v. (bundled_plan p v).acts };

    ghost ending = { λ p v. (bundled_plan p v).ending };

    ghost looks = { bundled_looks };

    ghost footprint = { bundled_footprint };

    // An update asks for each word that differs. Inlined, no view is written for the call.
    #[inline(always)]
    fn looks(&self, view: &View<'_>, address: u64) -> bool {
        match self {
            Bundled::Broadcast(program) => program.looks(view, address),
            Bundled::Prefix(program) => program.looks(view, address),
            Bundled::MatVec(program) => program.looks(view, address),
            Bundled::Rank(program) => program.looks(view, address),
        }
    }

    fn step(&self, alloc: Global, ctx: &mut Ctx<'_>) -> Result<End, OutOfMemory> {
        match self {
            Bundled::Broadcast(program) => program.step(alloc, ctx),
            Bundled::Prefix(program) => program.step(alloc, ctx),
            Bundled::MatVec(program) => program.step(alloc, ctx),
            Bundled::Rank(program) => program.step(alloc, ctx),
        }
    }
}
