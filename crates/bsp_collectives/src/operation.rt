//! The operations by which words are combined.

ghost use Rattle.std.specs.Prelude.{◌≡◌};
ghost use Rattle.bsp_collectives.specs.Operation.{neutral, applied, combined};

/// An operation on words, by which those of several processes become one.
#[derive(Clone, Copy)]
pub enum Operation {
    /// The sum, modulo 2^64.
    Sum,
    /// The least word.
    Least,
    /// The greatest word.
    Greatest,
    /// Bit by bit, whether one of the words has the bit.
    Or,
    /// Bit by bit, whether all words have the bit.
    And,
}

impl Operation {
    /// What is made of no words: the word that changes no other.
    pub fn neutral(self) -> u64
        ensures { result ≡ neutral self }
    {
        match self {
            Operation::Sum | Operation::Greatest | Operation::Or => 0,
            Operation::Least | Operation::And => u64::MAX,
        }
    }

    /// What is made of two words.
    pub fn apply(self, first: u64, second: u64) -> u64
        ensures { result ≡ applied self first second }
    {
        match self {
            Operation::Sum => first.wrapping_add(second),
            Operation::Least => first.min(second),
            Operation::Greatest => first.max(second),
            Operation::Or => first | second,
            Operation::And => first & second,
        }
    }

    /// What is made of all these words, in order.
    pub fn combine(self, words: &[u64]) -> u64
        ensures { result ≡ combined self words.now }
    {
        words
            .iter()
            .fold(self.neutral(), |made, word| self.apply(made, *word))
    }
}
