//! What the bundled programs compute.

ghost use Rattle.std.specs.Prelude.{◌≡◌, ◌<◌, ◌^◌, All, slice_index};

use crate::Computes;
use bsp_model::{Input, Memory};
use bsp_programs::{Broadcast, Bundled, MatVec, Prefix, Rank};

/// Where all processes name one root, the run of a broadcast halts, and every process ends with the root's word as its word 0 and has printed it
/// once. The total cost is `(P - 1) * g + 2 * l`.
impl Computes for Broadcast {
    ghost use Rattle.bsp_right.specs.Told.{Tells};

    ghost computes = { λ _. Tells };

    fn law(_input: &Input) {}
}

/// The run of prefix sums halts. Every process ends with the sum of the words 0 of the processes up to itself, modulo 2^64, as its word 0. It has
/// printed it once. With k the least number such that 2^k is not below P, the total cost is `k * (g + l + 1) + l`.
impl Computes for Prefix {
    ghost use Rattle.bsp_right.specs.Summed.{Sums};

    ghost computes = { λ _. Sums };

    fn law(input: &Input) {
        read_first_words(input.mems.as_slice());
    }
}

/// Reads the first word of each memory, so that it is known to have 64 bits.
fn read_first_words(memories: &[Memory])
    ensures { All (λ memory. slice_index memory 0 < 2 ^ 64) memories.now }
{
    for memory in memories {
        let _word = first_word(memory);
    }
}

fn first_word(memory: &Memory) -> u64
    ensures value { result ≡ slice_index memory.now 0 }
    ensures bits { slice_index memory.now 0 < 2 ^ 64 }
{
    memory.load(0).unwrap_or(0)
}

/// Where all processes name one number b of rows and their memories have room, the run of a product halts. Every process ends with its b words of the
/// product of the whole matrix and the whole vector, modulo 2^64. It has printed them as one line. The total cost is
/// `P * b * b + (P - 1) * (b + 1) * g + 2 * l`.
impl Computes for MatVec {
    ghost use Rattle.bsp_right.specs.Multiplied.{Multiplies};

    ghost computes = { λ _. Multiplies };

    fn law(_input: &Input) {}
}

/// Where the processes are the elements of one linked list, in any order, the run of list ranking halts. Every process ends with the number of its
/// successors as its word 1. It has printed it once. With k the least number such that 2^k is not below P, the total cost is `(2^(k + 1) - 2) * g + (k + 1) * l + k`.
impl Computes for Rank {
    ghost use Rattle.bsp_right.specs.Ranked.{Ranks};

    ghost computes = { λ _. Ranks };

    fn law(_input: &Input) {}
}

/// The claims of the four programs.
impl Computes for Bundled {
    ghost use Rattle.bsp_right.specs.Claims.{bundled_claim};

    ghost computes = { bundled_claim };

    fn law(input: &Input) {
        Prefix::law(input);
    }
}
