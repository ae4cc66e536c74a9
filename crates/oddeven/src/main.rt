//! Runs the job of a document on standard input, whose program is an odd-even transposition sort, and writes the report to standard output.
#![tactic(auto)]

mod kernel;
mod ordering;

use bsp_engine::{ByName, Named, Tool, after_help, run_tool};
use kernel::OddEven;
use std::process::ExitCode;

impl ByName for OddEven {
    ghost use Rattle.oddeven.specs.Programs.{program_named};

    type Program = OddEven;

    ghost named = { program_named };

    fn names() -> &'static str {
        "oddeven"
    }

    fn by_name(name: &str) -> Option<OddEven> {
        (name == "oddeven").then_some(OddEven)
    }
}

const TOOL: Tool = Tool {
    name: "oddeven",
    about: "Sorts words that are dealt to processes in a row, and does so again after each batch of edits",
    after_help: after_help!(
        "  program      oddeven",
        "
The first half of a memory holds the words of a process, and the other half is room for those of a neighbour. All
memories have one length. Its one argument is the number of rounds: as many as there are processes sort all words.
",
        "  program = \"oddeven\"
  limit = 16
  g = 4
  l = 10
  memory = [[9, 4, 7, 0, 0, 0], [8, 1, 6, 0, 0, 0]]
  args = [[2], [2]]"
    ),
};

fn main(rt: HostRuntime) -> ExitCode {
    run_tool::<Named<OddEven>, _>(&rt, &TOOL)
}
