//! The bundled programs, each with its acts, its ending and its footprint.
#![tactic(auto, using(bsp_step::proofs::Laws::running))]

mod broadcast;
mod bundled;
mod doubling;
mod matvec;
mod prefix;
mod rank;

pub use broadcast::Broadcast;
pub use bundled::{Bundled, NAMES};
pub use matvec::MatVec;
pub use prefix::Prefix;
pub use rank::Rank;
