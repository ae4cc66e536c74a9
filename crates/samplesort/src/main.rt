//! Runs the job of a document on standard input, whose program is a sort by regular sampling, and writes the report to standard output.
#![tactic(auto)]

mod kernel;
mod sorting;

use bsp_engine::{ByName, Named, Tool, after_help, run_tool};
use kernel::SampleSort;
use std::process::ExitCode;

impl ByName for SampleSort {
    ghost use Rattle.samplesort.specs.Programs.{program_named};

    type Program = SampleSort;

    ghost named = { program_named };

    fn names() -> &'static str {
        "samplesort"
    }

    fn by_name(name: &str) -> Option<SampleSort> {
        (name == "samplesort").then_some(SampleSort)
    }
}

const TOOL: Tool = Tool {
    name: "samplesort",
    about: "Sorts words by regular sampling, and does so again after each batch of edits",
    after_help: after_help!(
        "  program      samplesort",
        "
Argument 0, where there is one, is the number of own words, which are the first of the memory; without it all words
are own words. Each process prints its part of the words of all in order, in full lines, and keeps it in its memory
where it fits.
",
        "  program = \"samplesort\"
  limit = 16
  g = 4
  l = 10
  memory = [[9, 4, 7, 0, 0], [8, 1, 0], [3, 5, 2, 6]]
  args = [[3], [2], []]"
    ),
};

fn main(rt: HostRuntime) -> ExitCode {
    run_tool::<Named<SampleSort>, _>(&rt, &TOOL)
}
