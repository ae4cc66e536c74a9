//! Whole runs, in one call each.
#![tactic(auto)]

mod runs;

pub use runs::{run_plain, run_result, run_result_wide, run_wide};
