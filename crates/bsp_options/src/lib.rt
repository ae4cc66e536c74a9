//! The options of every tool: what the words of its command line ask for.
#![tactic(auto)]

mod options;

pub use options::{Detail, Options, Tool, VERSION, read_options, words_status};
