//! The end of a superstep: delivery, sync faults, tag sizes and the h-relation.
#![tactic(auto)]

mod addressed;
mod cells;
mod chains;
mod cost;
mod delivery;
mod faults;
mod inboxes;
mod marking;
mod moving;
mod next_memories;
mod next_queues;
mod one_process;
mod parcels;
mod same;
mod touched;

pub use cells::Cells;
pub use cost::{h_of, h_to};
pub use delivery::deliver_some;
pub use faults::{all_sync, next_tag_size, sync_fault};
pub use inboxes::Inbox;
pub use moving::deliver_moving;
pub use one_process::{deliver, deliver_inbox, inbox};
pub use parcels::{answers_same, parcel_same};
pub use same::{are_same_puts, are_same_sends, get_reads_same_words};
pub use touched::touched_by_changes;
