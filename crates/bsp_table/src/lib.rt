//! The registration table: which areas of the processes' memories go by which local addresses.
#![tactic(auto)]

mod area;
mod next;
mod table;

pub use area::Area;
pub use next::{Registers, TableFault};
pub use table::{Slot, Table};
