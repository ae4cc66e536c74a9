//! The gate that a worker passes before each job. It also brings the clock.
#![tactic(auto)]

mod gate;

pub use gate::{Gate, Open, Timed, let_go};
