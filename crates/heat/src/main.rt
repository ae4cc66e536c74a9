//! Runs the job of a document on standard input, whose program is heat in a rod, and writes the report to standard output.
#![tactic(auto)]

mod kernel;
mod rod;

use bsp_engine::{ByName, Named, Tool, after_help, run_tool};
use kernel::Heat;
use std::process::ExitCode;

impl ByName for Heat {
    ghost use Rattle.heat.specs.Programs.{program_named};

    type Program = Heat;

    ghost named = { program_named };

    fn names() -> &'static str {
        "heat"
    }

    fn by_name(name: &str) -> Option<Heat> {
        (name == "heat").then_some(Heat)
    }
}

const TOOL: Tool = Tool {
    name: "heat",
    about: "Spreads heat in a rod of cells, and does so again after each batch of edits",
    after_help: after_help!(
        "  program      heat",
        "
The memory of a process is the word before its cells, its cells, and the word after them. Its one argument
is the number of time steps.
",
        "  program = \"heat\"
  limit = 16
  g = 4
  l = 10
  memory = [[100, 0, 0, 0, 0], [0, 0, 0, 0, 400]]
  args = [[6], [6]]"
    ),
};

fn main(rt: HostRuntime) -> ExitCode {
    run_tool::<Named<Heat>, _>(&rt, &TOOL)
}

#[cfg(test)]
mod tests;
