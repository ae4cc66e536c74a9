//! Runs the job of a document on standard input, whose program is one collective call, and writes the report to standard output.
#![tactic(auto, using(bsp_step::proofs::Laws::running))]

mod catalogue;
mod combining;
mod moving;
mod parting;

use bsp_engine::{Named, Tool, after_help, run_tool};
use catalogue::Collective;
use std::process::ExitCode;

const TOOL: Tool = Tool {
    name: "collectives",
    about: "Makes one collective call, and does so again after each batch of edits",
    after_help: after_help!(
        "  program      broadcast, broadcast_in_two, scatter, gather, all_gather, exchange, reduce, all_reduce, scan or exchange_parts",
        "
Of the first six argument 0 is the number of own words, which are the first of the memory; what arrives is
stored after them. Of the others argument 0 is the operation: 0 sum, 1 least, 2 greatest, 3 or, 4 and; word 0
is the own word, and what is made of the words that arrive is stored as word 1. Argument 1 is the root, or
process 0 where it is missing. Of exchange_parts argument 0 is the number of own words, and argument d + 1 the
length of the part for process d; each part that arrives is printed as a line.
",
        "  program = \"scan\"
  limit = 16
  g = 4
  l = 10
  memory = [[1, 0], [2, 0], [3, 0], [4, 0]]
  args = [[0], [0], [0], [0]]
  batches = [[[\"word\", 3, 0, 5]]]"
    ),
};

fn main(rt: HostRuntime) -> ExitCode {
    run_tool::<Named<Collective>, _>(&rt, &TOOL)
}
