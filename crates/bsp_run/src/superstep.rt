//! A superstep of a run, as it is recorded.

use crate::Views;
use bsp_model::{Shared, SharedSeq};
use bsp_step::Outcomes;

/// The arguments of each process, by process.
pub type Arguments = SharedSeq<SharedSeq<u64>>;

/// The views of a superstep and the outcomes of their turns. Records of several runs may share them.
#[derive(Drop)]
pub struct Superstep {
    pub views: Shared<Views>,
    pub outcomes: Outcomes,
}
