//! For each process a row, in few lists. The rows behind the last that is not empty need not stand.

mod blocks;
mod open_blocks;
mod pairs;
mod shared_column;

pub use blocks::BlockColumn;
pub use open_blocks::OpenBlocks;
pub use pairs::StoreColumn;
pub(crate) use shared_column::SharedColumn;
