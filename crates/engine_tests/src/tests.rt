//! What no clause says and no document shows: failing readers and writers, live sessions at a terminal with a log, and workers that meet.

mod bundled;
mod errors;
mod failing;
mod failures;
mod following;
mod logged;
mod reporting;
mod workers;
