//! The limits of a run and of its document (this profile), each of which stands here alone.
//!
//! Code, definitions and proofs name the constants. So a build with other limits, as `./build --limits` makes it, differs in this file alone. The facts
//! at the end are what the proofs of the runtime ask of the numbers. A word has 64 bits.

/// The name of these limits, which `--version` tells with the numbers. It is empty for the numbers of this profile.
pub const NAME: &str = "";

/// The largest number of processes of a run.
pub const MOST_PROCESSES: usize = 64;

/// The largest number of words in the memory of a process.
pub const MOST_MEMORY_WORDS: usize = 4_096;

/// The largest number of arguments of a process, which are words.
pub const MOST_ARGUMENTS: usize = 64;

/// The largest number of supersteps of a run.
pub const MOST_SUPERSTEPS: u64 = 1_024;

/// The highest price of a word of the h-relation, and of a synchronisation.
pub const HIGHEST_PRICE: u64 = 1_000_000;

/// The largest work that a process may charge in a superstep, in operations on local words.
pub const MOST_WORK: u64 = 4_294_967_295;

/// The largest number of requests of a process in a superstep: puts, gets, sends, pushes and pops together.
pub const MOST_REQUESTS: usize = 1_024;

/// The largest number of words in the payload of a message.
pub const MOST_PAYLOAD_WORDS: usize = 4_096;

/// The largest number of words in the tag of a message.
pub const MOST_TAG_WORDS: u64 = 16;

/// The largest number of slots in a registration table.
pub const MOST_SLOTS: usize = 256;

/// The largest number of lines that a process may print in a superstep.
pub const MOST_LINES: usize = 64;

/// The largest number of words in a printed line.
pub const MOST_LINE_WORDS: usize = 64;

/// The largest number of bytes of a document, and of a line of a live session.
pub const MOST_DOCUMENT_BYTES: usize = 16_777_216;

/// The largest number of workers that share the turns and the deliveries of a run.
pub const MOST_WORKERS: usize = 16;

/// The largest number of messages in a queue: all requests of all processes.
pub const MOST_MESSAGES: usize = MOST_REQUESTS * MOST_PROCESSES;

const MOST_MESSAGE_WORDS: u64 = MOST_TAG_WORDS + MOST_PAYLOAD_WORDS as u64;

/// The largest number of words that a request moves: those of a memory, by a put or a get, or those of a tag and a payload.
pub const MOST_REQUEST_WORDS: u64 = if MOST_MESSAGE_WORDS > MOST_MEMORY_WORDS as u64 {
    MOST_MESSAGE_WORDS
} else {
    MOST_MEMORY_WORDS as u64
};

/// The largest h of a superstep: all requests of all processes move the most words, to or from one process.
pub const MOST_H: u128 = MOST_REQUEST_WORDS as u128 * MOST_MESSAGES as u128;

/// The highest cost of a superstep: `work + h*g + l`, each at its largest.
pub const MOST_COST: u128 = MOST_WORK as u128
    + MOST_H * HIGHEST_PRICE as u128
    + HIGHEST_PRICE as u128;

// A set of processes has to fit into the bits of a word.
const _: () = prove!(MOST_PROCESSES <= 64);

// A process has to be able to make a request to each process.
const _: () = prove!(MOST_PROCESSES <= MOST_REQUESTS);

// The work of a turn has to fit into 32 bits of a record.
const _: () = prove!(MOST_WORK <= u32::MAX as u64);

// The total cost of a run has to be below 2^64.
const _: () = prove!(MOST_COST * MOST_SUPERSTEPS as u128 <= u64::MAX as u128);
