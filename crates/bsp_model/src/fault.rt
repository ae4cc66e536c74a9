//! How turns end, and the faults of turns, supersteps and inputs.

use crate::limits::{
    HIGHEST_PRICE, MOST_ARGUMENTS, MOST_LINE_WORDS, MOST_LINES, MOST_MEMORY_WORDS,
    MOST_PAYLOAD_WORDS, MOST_PROCESSES, MOST_REQUESTS, MOST_SLOTS, MOST_SUPERSTEPS, MOST_TAG_WORDS,
    MOST_WORK,
};
use thiserror::Error;

/// How a program's step answers (Hill et al. 1998: `bsp_sync`, the end of the program, `bsp_abort`).
#[derive(Clone, Copy, PartialEq, Eq)]
pub enum End {
    /// The process goes on to the next superstep.
    Sync,
    /// The process has ended.
    Halt,
    /// The process ends the whole computation, with a code word.
    Abort(u64),
}

/// Why a process was stopped in its turn: the first check that failed (this profile).
#[derive(Clone, Copy, Debug, PartialEq, Eq, Error)]
pub enum Fault {
    /// F1: the step answered `End::Abort` with this code.
    #[error("the step aborted with the code {0}")]
    Abort(u64),
    /// F2: no process has this number.
    #[error("no process has the number {0}")]
    BadPid(u64),
    /// F3: no slot has an own area that starts at this address.
    #[error("no own area that starts at the address {0} is registered")]
    NotRegistered(u64),
    /// F4: the words lie outside the target's area.
    #[error("the words lie outside the target's area")]
    OutOfArea,
    /// F5: the words lie outside the own memory.
    #[error("the words lie outside the own memory")]
    BadLocal,
    /// F6: a tag is not as long as the tag size in force.
    #[error("the tag is not as long as the tag size in force")]
    TagLength,
    /// F7: no message is left.
    #[error("no message is left in the queue")]
    EmptyQueue,
    /// F8: `MOST_REQUESTS` requests stand already.
    #[error("a process makes at most {most} requests in a superstep", most = MOST_REQUESTS)]
    TooManyRequests,
    /// F9: the work would exceed `MOST_WORK`.
    #[error("a process charges at most {most} operations in a superstep", most = MOST_WORK)]
    WorkLimit,
    /// F10: `MOST_LINES` lines stand already.
    #[error("a process prints at most {most} lines in a superstep", most = MOST_LINES)]
    LineLimit,
    /// F11: a payload of over `MOST_PAYLOAD_WORDS` words, or a line of over `MOST_LINE_WORDS`.
    #[error("a payload has at most {payload} words, and a line {line}", payload = MOST_PAYLOAD_WORDS, line = MOST_LINE_WORDS)]
    TooLong,
    /// F12: a tag size of over `MOST_TAG_WORDS` words.
    #[error("a tag has at most {most} words", most = MOST_TAG_WORDS)]
    BadTagSize,
}

/// Why the end of a superstep ended a run: the first that holds, in this order (this profile).
#[derive(Clone, Copy, Debug, PartialEq, Eq, Error)]
pub enum SyncFault {
    /// S1: some processes ended by sync and some by halt.
    #[error("some processes ended by sync, and some by halt")]
    MixedEnd,
    /// S2: the processes' choices of the next tag size are not all equal.
    #[error("the processes chose different tag sizes")]
    TagMismatch,
    /// S3: the processes' lists of popped slots are not all equal.
    #[error("the processes popped different registrations")]
    PopMismatch,
    /// S4: the processes' numbers of pushes are not all equal.
    #[error("the processes pushed different numbers of registrations")]
    PushMismatch,
    /// S5: more than `MOST_SLOTS` slots would stand.
    #[error("a registration table has at most {most} slots", most = MOST_SLOTS)]
    TooManySlots,
}

/// Why an input is refused: the first that holds, in this order (this profile).
#[derive(Clone, Copy, Debug, PartialEq, Eq, Error)]
pub enum InputFault {
    /// I1: there is no memory.
    #[error("a run has at least one process")]
    NoProcess,
    /// I2: there are over `MOST_PROCESSES` memories.
    #[error("a run has at most {most} processes", most = MOST_PROCESSES)]
    TooMany,
    /// I3: there are not as many argument lists as memories.
    #[error("there are not as many argument lists as memories")]
    LengthsDiffer,
    /// I4: a memory has over `MOST_MEMORY_WORDS` words.
    #[error("a memory has at most {most} words", most = MOST_MEMORY_WORDS)]
    MemoryTooLong,
    /// I5: an argument list has over `MOST_ARGUMENTS` words.
    #[error("a process has at most {most} arguments", most = MOST_ARGUMENTS)]
    ArgsTooLong,
    /// I6: the superstep limit is not 1 to `MOST_SUPERSTEPS`.
    #[error("the superstep limit is 1 to {most}", most = MOST_SUPERSTEPS)]
    BadLimit,
    /// I7: a price is over `HIGHEST_PRICE`.
    #[error("a price is at most {most}", most = HIGHEST_PRICE)]
    BadPrice,
}
