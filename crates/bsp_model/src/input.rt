//! The input of a run.

ghost use Rattle.std.specs.Prelude.{◌≡◌, OnOk, IfErr, None, Some, length, nat_le};
ghost use Rattle.std.specs.List.{list_all};
ghost use Rattle.bsp_model.specs.Input.{input_fault};

use crate::limits::{
    HIGHEST_PRICE, MOST_ARGUMENTS, MOST_MEMORY_WORDS, MOST_PROCESSES, MOST_SUPERSTEPS,
};
use crate::{InputFault, Memory, OutOfMemory, Seq, TryCopy, Words};

/// The input of a run: what each process starts with, and the limit and prices of the whole (Hill et al. 1998; limits are this profile's).
#[derive(Drop)]
pub struct Input {
    /// A memory for each process: 1 to `MOST_PROCESSES` memories of at most `MOST_MEMORY_WORDS` words.
    pub mems: Seq<Memory>,
    /// An argument list for each process, of at most `MOST_ARGUMENTS` words.
    pub args: Seq<Words>,
    /// The largest number of supersteps: 1 to `MOST_SUPERSTEPS`.
    pub limit: u64,
    /// The price of a word of the h-relation: 0 to `HIGHEST_PRICE`.
    pub g: u64,
    /// The price of a synchronisation: 0 to `HIGHEST_PRICE`.
    pub l: u64,
}

impl TryCopy for Input {
    fn copy(&self) -> Result<Input, OutOfMemory> {
        Ok(Input {
            mems: self.mems.copy()?,
            args: self.args.copy()?,
            limit: self.limit,
            g: self.g,
            l: self.l,
        })
    }
}

fn are_short_memories(mems: &[Memory]) -> bool
    ensures { result ≡ list_all (λ m. nat_le (length m) MOST_MEMORY_WORDS) mems.now }
{
    for memory in mems {
        if memory.len() > MOST_MEMORY_WORDS {
            return false;
        }
    }
    true
}

fn are_short_arguments(args: &[Words]) -> bool
    ensures { result ≡ list_all (λ a. nat_le (length a) MOST_ARGUMENTS) args.now }
{
    for words in args {
        if words.len() > MOST_ARGUMENTS {
            return false;
        }
    }
    true
}

impl Input {
    /// Whether a run may start with it: the first of I1 to I7 that holds. It takes no memory.
    pub fn check(&self) -> Result<(), InputFault>
        ensures ok { OnOk result (input_fault self.now ≡ None) }
        ensures err { IfErr result (λ fault. input_fault self.now ≡ Some fault) }
    {
        if self.mems.is_empty() {
            return Err(InputFault::NoProcess);
        }
        if self.mems.len() > MOST_PROCESSES {
            return Err(InputFault::TooMany);
        }
        if self.args.len() != self.mems.len() {
            return Err(InputFault::LengthsDiffer);
        }
        if !are_short_memories(self.mems.as_slice()) {
            return Err(InputFault::MemoryTooLong);
        }
        if !are_short_arguments(self.args.as_slice()) {
            return Err(InputFault::ArgsTooLong);
        }
        if self.limit < 1 || self.limit > MOST_SUPERSTEPS {
            return Err(InputFault::BadLimit);
        }
        if self.g > HIGHEST_PRICE || self.l > HIGHEST_PRICE {
            return Err(InputFault::BadPrice);
        }
        Ok(())
    }
}
