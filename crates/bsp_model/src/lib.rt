//! The words, memories, input and requests of a BSP computation.
#![tactic(auto)]

mod block;
mod blocks;
mod by_process;
mod change;
mod columns;
mod copying;
mod cost;
mod fault;
mod input;
mod lasts;
mod layered;
pub mod limits;
mod local_memory;
mod memories;
mod memory;
mod memory_ref;
mod open_row;
mod page;
mod paging;
mod places;
mod process_numbers;
mod process_set;
mod range;
mod request;
mod rows;
mod seq;
mod share;
mod shared;
mod stores_ref;
mod workspace;

pub use block::{Block, PutHead, SendHead};
pub use blocks::{Blocks, BlocksRef, MessageView, PutView, SendView};
pub use by_process::{ByProcess, add_replaced};
pub use change::Change;
pub(crate) use columns::SharedColumn;
pub use columns::{BlockColumn, OpenBlocks, StoreColumn};
pub use copying::{Same, TryCopy};
pub use cost::CostRow;
pub use fault::{End, Fault, InputFault, SyncFault};
pub use input::Input;
pub use layered::{Apart, Layered};
pub use local_memory::LocalMemory;
pub use memories::Memories;
pub use memory::Memory;
pub use memory_ref::MemoryRef;
pub use open_row::OpenRow;
pub use process_numbers::numbers;
pub use process_set::{Members, ProcessSet};
pub use range::Range;
pub use request::{Get, Message, Put, Send, Store};
pub use rows::Column;
pub(crate) use rows::Rows;
pub use seq::{Seq, are_same, are_same_words};
pub use share::{Share, is_worth_room};
pub use shared::{Shared, SharedSeq};
pub use std::alloc::AllocError as OutOfMemory;
pub use stores_ref::StoresRef;
pub use workspace::{WORDS_WORTH_A_LOOK, Workspace};

/// A list of 64-bit words.
pub type Words = Seq<u64>;

/// Puts in the order in which they were issued, read where they lie.
pub type PutsRef<'a> = BlocksRef<'a, Put>;

/// Messages in the order in which they were sent, read where they lie.
pub type SendsRef<'a> = BlocksRef<'a, Send>;

/// The messages of a queue, read where they lie.
pub type MessagesRef<'a> = BlocksRef<'a, Message>;

/// For each process the messages of its queue.
pub type MessageColumn = BlockColumn<Message>;

/// Printed lines, read where they lie.
pub type PrintedLinesRef<'a> = BlocksRef<'a, Words>;

/// For each process the lines that it printed, in order.
pub type LineColumn = BlockColumn<Words>;
