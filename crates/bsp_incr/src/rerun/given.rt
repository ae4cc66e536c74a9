//! What stays the same in all supersteps of a run that is made again.

ghost use Rattle.std.specs.Prelude.{◌≡◌};

use bsp_crew::Means;
use bsp_model::{Input, ProcessSet};
use bsp_run::History;
use bsp_step::Program;
use std::alloc::Global;
use std::marker::Model;

/// The program and the input of a run that is made again, the previous run, where memory comes from, and the gate that each job passes.
#[derive(Drop)]
pub struct Given<'a, P: Program, G> {
    pub alloc: Global,
    pub gate: &'a G,
    pub program: &'a P,
    pub input: &'a Input,
    pub old: Option<&'a History>,
    /// The processes with other arguments than in the previous run. They are marked in each superstep.
    pub other_args: &'a ProcessSet,
}

impl<'a, P: Program, G> Model for Given<'a, P, G> {
    ghost use Rattle.std.specs.Prelude.{option_map};
    ghost use Rattle.bsp_incr.specs.Inside.Given.{Making, IsMaking};

    ghost Value = { Making P };

    ghost view = { λ g. record {
      program = g.program.now;
      input = g.input.now;
      before = option_map (λ k. k.now) g.old;
      others = g.other_args.now;
    } };

    ghost invariant = { λ g. IsMaking P.Program record {
      program = g.program.now;
      input = g.input.now;
      before = option_map (λ k. k.now) g.old;
      others = g.other_args.now;
    } };
}

impl<'a, P: Program, G> Given<'a, P, G> {
    /// The means of a thread for its work.
    pub fn means(&self) -> Means<'a, P, G>
        ensures { result.program.now ≡ self.now.program }
    {
        Means {
            alloc: self.alloc,
            program: self.program,
            gate: self.gate,
        }
    }
}
