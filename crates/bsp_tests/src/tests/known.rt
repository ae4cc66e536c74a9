//! Inputs whose runs are known.

ghost use Rattle.std.specs.Prelude.{◌<◌};

use bsp_model::{Input, Memory, MemoryRef, OutOfMemory, Seq, Words};
use bsp_programs::{Broadcast, Bundled, MatVec, Prefix, Rank};
use bsp_run::History;
use std::alloc::Global;

/// What a run leaves.
#[derive(Clone, Copy)]
pub struct End {
    /// The memories of the first processes.
    pub memories: &'static [&'static [u64]],
    /// The first word that each of the first processes printed.
    pub prints: &'static [u64],
    pub total: u64,
}

/// Whether a memory has these words.
pub fn is_memory(memory: &MemoryRef<'_>, want: &[u64]) -> bool {
    for address in 0..want.len() {
        if memory.load(address as u64) != Some(want[address]) {
            return false;
        }
    }
    memory.len() == want.len()
}

/// The first word that a process printed.
fn first_print(history: &History, pid: u64) -> Option<u64> {
    history.lines(pid)?.get(0)?.first().copied()
}

impl End {
    fn has_memories(&self, history: &History) -> bool {
        for pid in 0..self.memories.len() {
            match history.memory(pid as u64) {
                Some(memory) if is_memory(&memory, self.memories[pid]) => {}
                _ => return false,
            }
        }
        true
    }

    fn has_prints(&self, history: &History) -> bool {
        for pid in 0..self.prints.len() {
            if first_print(history, pid as u64) != Some(self.prints[pid]) {
                return false;
            }
        }
        true
    }

    /// Whether the run leaves this.
    pub fn is_of(&self, history: &History) -> bool {
        history.total() == self.total && self.has_memories(history) && self.has_prints(history)
    }
}

/// A program and an input with the prices 4 and 10, and what its run leaves.
#[derive(Clone, Copy)]
pub struct Known {
    pub name: &'static str,
    pub program: Bundled,
    pub memories: &'static [&'static [u64]],
    pub arguments: &'static [&'static [u64]],
    pub limit: u64,
    /// How many turns the run takes, and how many deliveries.
    pub turns: u64,
    pub deliveries: u64,
    pub end: End,
}

impl Known {
    fn fill(&self, alloc: Global, input: &mut Input) -> Result<(), OutOfMemory> {
        for words in self.memories {
            input.mems.push(Memory::from_words(alloc, words)?)?;
        }
        for words in self.arguments {
            input.args.push(Words::from_slice(alloc, words)?)?;
        }
        Ok(())
    }

    /// The input.
    pub fn input(&self, alloc: Global) -> Result<Input, OutOfMemory> {
        let mut input = Input {
            mems: Seq::new(alloc),
            args: Seq::new(alloc),
            limit: self.limit,
            g: 4,
            l: 10,
        };
        self.fill(alloc, &mut input)?;
        Ok(input)
    }
}

const NO_WORDS: &[u64] = &[];

pub const TOLD_END: End = End {
    memories: &[&[7], &[7], &[7], &[7]],
    prints: &[7, 7, 7, 7],
    total: 32,
};

/// Process 0 tells 3 others the word 7.
pub const TOLD: Known = Known {
    name: "told",
    program: Bundled::Broadcast(Broadcast),
    memories: &[&[7], &[0], &[0], &[0]],
    arguments: &[&[0], &[0], &[0], &[0]],
    limit: 16,
    turns: 12,
    deliveries: 8,
    end: TOLD_END,
};

pub const PRODUCT_END: End = End {
    memories: &[&[1, 2, 5, 5, 6, 17], &[3, 4, 6, 5, 6, 39]],
    prints: &[17, 39],
    total: 30,
};

/// The matrix of the rows 1, 2 and 3, 4 by the vector 5, 6: a row and a word of the vector for each of 2 processes.
pub const PRODUCT: Known = Known {
    name: "product",
    program: Bundled::MatVec(MatVec),
    memories: &[&[1, 2, 5, 0, 0, 0], &[3, 4, 6, 0, 0, 0]],
    arguments: &[&[1], &[1]],
    limit: 16,
    turns: 6,
    deliveries: 4,
    end: PRODUCT_END,
};

/// Process 1 takes its blocks for empty, so both abort.
pub const NO_PRODUCT: Known = Known {
    name: "no product",
    arguments: &[&[1], &[0]],
    end: End {
        memories: &[&[1, 2, 5, 5, 0, 0], &[3, 4, 6, 0, 0, 0]],
        prints: &[],
        total: 28,
    },
    ..PRODUCT
};

pub const RANKS_END: End = End {
    memories: &[&[1, 2, 1, 0], &[1, 0, 1, 0], &[1, 3, 1, 1], &[1, 1, 1, 0]],
    prints: &[2, 0, 3, 1],
    total: 56,
};

/// The ranks of the list 2, 0, 3, 1.
pub const RANKS: Known = Known {
    name: "ranks",
    program: Bundled::Rank(Rank),
    memories: &[&[3, 1, 0, 0], &[1, 0, 0, 0], &[0, 1, 0, 0], &[1, 1, 0, 0]],
    arguments: &[NO_WORDS; 4],
    limit: 16,
    turns: 16,
    deliveries: 12,
    end: RANKS_END,
};

pub const BROKEN_RANKS_END: End = End {
    memories: &[&[9, 1, 0, 0], &[1, 0, 0, 0], &[0, 1, 0, 0], &[1, 1, 0, 0]],
    prints: &[],
    total: 10,
};

/// Element 0 of the list has a successor that there is not.
pub const BROKEN_RANKS: Known = Known {
    name: "broken ranks",
    memories: &[&[9, 1, 0, 0], &[1, 0, 0, 0], &[0, 1, 0, 0], &[1, 1, 0, 0]],
    turns: 8,
    deliveries: 4,
    end: BROKEN_RANKS_END,
    ..RANKS
};

pub const SUMS_END: End = End {
    memories: &[&[1, 0], &[3, 1], &[6, 1], &[10, 3]],
    prints: &[1, 3, 6, 10],
    total: 40,
};

/// The sums of 1, 2, 3, 4.
pub const SUMS: Known = Known {
    name: "sums",
    program: Bundled::Prefix(Prefix),
    memories: &[&[1, 0], &[2, 0], &[3, 0], &[4, 0]],
    arguments: &[NO_WORDS; 4],
    limit: 16,
    turns: 16,
    deliveries: 12,
    end: SUMS_END,
};

pub const CUT_SUMS_END: End = End {
    memories: &[&[1, 0], &[2, 1], &[3, 2], &[4, 3]],
    prints: &[],
    total: 24,
};

/// The sums of 1, 2, 3, 4, cut after 2 supersteps.
pub const CUT_SUMS: Known = Known {
    name: "cut sums",
    limit: 2,
    turns: 8,
    deliveries: 8,
    end: CUT_SUMS_END,
    ..SUMS
};

const ONE: &[u64] = &[1, 0];

pub const SUMS_OF_ONES_END: End = End {
    memories: &[
        &[1, 0],
        &[2, 1],
        &[3, 1],
        &[4, 2],
        &[5, 1],
        &[6, 2],
        &[7, 3],
        &[8, 4],
    ],
    prints: &[1, 2, 3, 4, 5, 6, 7, 8, 9, 10, 11, 12, 13, 14, 15, 16],
    total: 100,
};

/// The sums of a 1 for each of 64 processes. Process p receives for the last time from p - d, for the largest power of two d up to p, which has added
/// up all of its own by then.
pub const SUMS_OF_ONES: Known = Known {
    name: "sums of ones",
    memories: &[ONE; 64],
    arguments: &[NO_WORDS; 64],
    turns: 512,
    deliveries: 448,
    end: SUMS_OF_ONES_END,
    ..SUMS
};

/// Runs that halt, fault, and are cut.
static KNOWN: [Known; 7] = [
    TOLD,
    PRODUCT,
    NO_PRODUCT,
    RANKS,
    BROKEN_RANKS,
    CUT_SUMS,
    SUMS,
];

pub const COUNT_OF_KNOWN: usize = 7;

/// The numbers of some of them.
pub const TOLD_AT: usize = 0;

pub const PRODUCT_AT: usize = 1;

pub const RANKS_AT: usize = 3;

/// The known run of this number.
pub fn known_run(number: usize) -> &'static Known
    requires { number < COUNT_OF_KNOWN }
{
    &KNOWN[number]
}
