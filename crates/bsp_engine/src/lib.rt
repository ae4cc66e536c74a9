//! From the bytes of a document to the bytes of its report, for any catalogue of programs, and the whole of a tool that does so.
#![tactic(auto)]

mod asked;
mod asked_text;
mod block_lines;
mod blocks;
mod catalogue;
mod change_lines;
mod changed_run;
mod conversation;
mod documents;
mod errors;
mod explain;
mod flow;
mod help_text;
mod jobs;
mod laws;
mod live;
mod live_blocks;
mod progress;
mod terminal;
mod tool;
pub mod tree;
mod update_lines;

pub use blocks::report;
pub use bsp_options::{Detail, Options, Tool, VERSION, read_options, words_status};
pub use catalogue::{ByName, Catalogue, Named};
pub use documents::{engine, follow};
pub use errors::{EngineError, JobError, JobFault};
pub use explain::Remark;
pub use flow::{Failed, Sink, Source};
pub use jobs::{
    ArrayOf, Described, Each, Job, NotNegative, Path, Shape, all_fit, fits, read_each, read_job,
};
pub use laws::{
    changes_tell_the_rest, documents_read_back, lines_are_batches, undo_takes_back,
    untouched_processes_stay,
};
pub use progress::Watched;
pub use terminal::{Console, Counted, Terminal};
pub use tool::run_tool;
