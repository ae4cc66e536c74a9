//! Runs a document's own kernel: instructions that each process follows in each superstep.
#![tactic(auto)]

mod catalogue;
mod misfits;
mod names;
mod operands;
mod shapes;

use bsp_engine::{Tool, after_help, run_tool};
use catalogue::Kernels;
use std::process::ExitCode;

const ABOUT: &str =
    "Runs the kernel of a document on its input, and again after each batch of edits";

const AFTER_HELP: &str = after_help!(
    "  kernel       an array of instructions, each an array of its name and its operands
  constants    an array of words, which instructions read, put and send (may be left out)
  budget       the most instructions of a turn, 10000000 where it is left out",
    "
Instructions, over 256 registers that have 0 as a turn begins. r, a, b .. are numbers of registers:
  [\"number\", r, N]  [\"copy\", r, a]
  [OPERATOR, r, a, b]  add, sub, mul, div, rem, and, or, xor, shl, shr, eq, ne, lt, le
  [SOURCE, r]  nprocs, pid, step, memory_len, tag_size, messages_left, words_left, first_len, first_tag_len
  [SOURCE, r, index]  argument, constant, first_tag, taken
  [\"load\", r, address]  [\"load_at\", r, a, b]  [\"store\", address, a]
  [\"jump\", PLACE]  [\"unless\", a, PLACE]  [\"unless_lt\", a, b, PLACE]
  [\"put\", pid, a, COUNT, area, offset]  of the words in COUNT registers from a on
  [\"put_block\", pid, from, len, area, offset]  [\"put_constants\", pid, from, len, area, offset]
  [\"get\", pid, area, offset, into, len]  [\"push_reg\", start, len]  [\"pop_reg\", start]
  [\"send\", pid, tag, COUNT, a, COUNT]  [\"send_block\", pid, tag, COUNT, from, len]
  [\"send_constants\", pid, tag, COUNT, from, len]  [\"set_tagsize\", r, size]
  [\"take\", r]  [\"store_taken\", into, len]  [\"print\", a, COUNT]  [\"print_block\", from, len]  [\"charge\", n]
  [\"sync\"]  [\"halt\"]  [\"abort\", code]
",
    "  kernel = [[\"load\", 1, 0], [\"print\", 1, 1], [\"halt\"]]
  limit = 16
  g = 4
  l = 10
  memory = [[7]]"
);

const TOOL: Tool = Tool {
    name: "bsp_kernel",
    about: ABOUT,
    after_help: AFTER_HELP,
};

fn main(rt: HostRuntime) -> ExitCode {
    run_tool::<Kernels, _>(&rt, &TOOL)
}
