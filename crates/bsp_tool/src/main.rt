//! Runs the job of a document on standard input, whose program is one of the bundled programs, and writes the report to standard output.
#![tactic(auto)]

use bsp_engine::{ByName, Named, Tool, after_help, run_tool};
use bsp_programs::{Bundled, NAMES};
use std::process::ExitCode;

/// The bundled programs by their names.
struct BundledPrograms;

impl ByName for BundledPrograms {
    ghost use Rattle.bsp_programs.specs.Bundled.{program_named};

    type Program = Bundled;

    ghost named = { program_named };

    fn names() -> &'static str {
        NAMES
    }

    fn by_name(name: &str) -> Option<Bundled> {
        Bundled::by_name(name)
    }
}

const ABOUT: &str =
    "Runs a BSP program on the input of a document, and again after each batch of edits";

const AFTER_HELP: &str = after_help!(
    "  program      broadcast, prefix, matvec or rank",
    "",
    "  program = \"prefix\"
  limit = 16
  g = 4
  l = 10
  memory = [[1, 0], [2, 0], [3, 0], [4, 0]]
  batches = [[[\"word\", 3, 0, 5]]]"
);

const TOOL: Tool = Tool {
    name: "bsp_tool",
    about: ABOUT,
    after_help: AFTER_HELP,
};

fn main(rt: HostRuntime) -> ExitCode {
    run_tool::<Named<BundledPrograms>, _>(&rt, &TOOL)
}
