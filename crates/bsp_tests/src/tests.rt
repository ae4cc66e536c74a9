//! Runs and sessions by each call, what they record, and what they ask of a program, of its workers and of memory.

mod batches;
mod clash;
mod counted;
mod crews;
mod endings;
mod known;
mod late;
mod meeting;
mod memories;
mod pairs;
mod records;
mod refusals;
mod running;
mod sessions;
mod sittings;
mod tables;
mod timed;
