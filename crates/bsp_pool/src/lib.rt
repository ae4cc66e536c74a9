//! A worker pool over one claim word, and the pool as a machine. Sessions and runs have workers of their own, those of `bsp_crew`.
//!
//! `phase` works a list of inputs by 1 to 16 threads and gives the outputs in the order of the inputs. Its workers draw
//! the numbers of the inputs from a `Deck`, each with a `Pass`. `Core` is the pool as a machine on one thread, event by
//! event.
#![tactic(auto)]

mod claim;
mod deck;
mod hand;
mod lanes;
mod machine;
mod patience;
mod phases;
mod pool;
mod round;
mod row;
mod seat;
mod share;
mod turning;
mod work;

pub use bsp_gate::{Gate, Open};
pub use deck::{Deck, Pass};
pub use hand::Hand;
pub use lanes::{Deal, Hands, MOST_WORKERS};
pub use machine::{Core, CoreRefusal, Event};
pub use patience::Patience;
pub use phases::phase;
pub use pool::Pool;
pub use row::Row;
pub use seat::{Desk, Seat, Sheet};
pub use std::alloc::AllocError as OutOfMemory;
pub use work::Work;
