//! Collective calls for authors of kernels, each as the halves that stand in one superstep: what is sent, and in the next what came.
#![tactic(auto, using(bsp_step::proofs::Laws::running))]

mod laws;
mod local;
mod operation;
mod receiving;
mod sending;

pub use laws::{
    all_gather_arrives, all_reduce_arrives, broadcast_arrives, exchange_arrives,
    exchange_parts_arrive, gather_arrives, reduce_arrives, scan_arrives, scatter_arrives,
    spread_arrives, turns_send_their_acts,
};
pub use local::{block, in_order, lead, print_lines};
pub use operation::Operation;
pub use receiving::{combine, forward, receive, receive_parts};
pub use sending::{
    all_gather, all_reduce, block_size, broadcast, exchange, exchange_parts, gather, reduce, scan,
    scatter, send, spread,
};
