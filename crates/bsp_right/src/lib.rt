//! What the bundled programs compute: laws of their whole runs, in runs and in sessions.
#![tactic(auto)]

mod computes;
mod programs;

pub use computes::{Computes, run_computing, session_computes};
