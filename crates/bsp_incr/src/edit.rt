//! Edits of an input (this profile).

mod editing;
mod error;
mod former;
mod undo;

use bsp_model::Seq;
use bsp_model::limits::{HIGHEST_PRICE, MOST_SUPERSTEPS};
pub use editing::{are_there, make_edits, refusal_of};
pub use error::EditError;
pub use former::restore;
use thiserror::Error;

/// A change of one part of an input. No edit changes a length.
#[derive(Clone, Copy, Debug, PartialEq, Eq)]
pub enum Edit {
    /// Word `addr` of the memory of process `pid` becomes `value`.
    Word { pid: u64, addr: u64, value: u64 },
    /// Argument `index` of process `pid` becomes `value`.
    Arg { pid: u64, index: u64, value: u64 },
    /// The superstep limit becomes this number.
    Limit(u64),
    /// The price of a word of the h-relation and that of a synchronisation.
    Prices { g: u64, l: u64 },
}

/// Edits that are accepted or refused together. Of two edits of one part the last wins.
pub type Batch = Seq<Edit>;

/// Why an edit is refused.
#[derive(Clone, Copy, Debug, PartialEq, Eq, Error)]
pub enum EditFault {
    /// E1: no process has this number.
    #[error("no process has this number")]
    NoSuchProcess,
    /// E2: the process has no word at this address.
    #[error("the process has no word at this address")]
    NoSuchWord,
    /// E3: the process has no argument with this index.
    #[error("the process has no argument with this index")]
    NoSuchArg,
    /// E4: the limit is not 1 to `MOST_SUPERSTEPS`.
    #[error("the superstep limit is 1 to {most}", most = MOST_SUPERSTEPS)]
    BadLimit,
    /// E5: a price is over `HIGHEST_PRICE`.
    #[error("a price is at most {most}", most = HIGHEST_PRICE)]
    BadPrice,
}

/// The first refused edit of a batch.
#[derive(Clone, Copy, Debug, PartialEq, Eq, Error)]
#[error("edit {place}: {fault}")]
pub struct EditRefusal {
    /// Its place in the batch, counted from 0.
    pub place: usize,
    /// Why it is refused.
    pub fault: EditFault,
}
