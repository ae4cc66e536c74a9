//! The workers of a run, which stay until it is over and draw the units of its supersteps, on the pool of `bsp_pool`.
#![tactic(auto)]

mod crew;
mod deliveries;
mod pace;
mod part;
mod piece;
mod shared_run;
mod task;
mod turns;
mod workers;
mod worksheet;

pub use crew::Crew;
pub use deliveries::wide_deliveries;
pub use pace::{Pace, calls_workers};
pub use shared_run::SharedRun;
pub use task::Means;
pub use turns::{DEPTH_OF_RUNS, DEPTH_OF_SUPERSTEPS, wide_turns};
pub use workers::Workers;
