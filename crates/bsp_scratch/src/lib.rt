//! Runs of which no record is kept, on one thread or by several workers.
#![tactic(auto)]

mod by_workers;
mod plain;
mod printed;
mod tally;
mod unrecorded;

pub use by_workers::wide_result;
pub use plain::lawful_result;
