//! What puts, messages and printed lines are kept as: a head and words.

ghost use Rattle.std.specs.Prelude.{◌≡◌, ℕ, List};

use crate::{Message, Put, Same, Send, Words};

/// A put, a message or a printed line, which is kept as a head, of few words each, and the words behind it.
pub trait Block: Sized {
    /// What a block has beside its words.
    type Head: Copy + Same;

    ghost of: { (Self.Head × (List ℕ)) → Self };

    /// Which heads and words stand for a block: a tag is no longer than the words.
    ghost IsKept: { (Self.Head × (List ℕ)) → Type 0 };

    ghost row_of: { Self → Self.Head × (List ℕ) };

    /// A block tells its head and its words, so that equal blocks are kept alike.
    ghost kept: { (row : Self.Head × (List ℕ)) → IsKept row → row_of (of row) ≡ row };
}

/// The head of a put: its target, and the address of its first word there.
#[derive(Clone, Copy)]
pub struct PutHead {
    pub target: u64,
    pub start: u64,
}

/// What a message on its way has beside its words, of which the first are its tag.
#[derive(Clone, Copy)]
pub struct SendHead {
    pub target: u64,
    pub tag_len: usize,
}

impl Same for PutHead {
    fn same(&self, other: &PutHead) -> bool {
        self.target == other.target && self.start == other.start
    }
}

impl Same for SendHead {
    fn same(&self, other: &SendHead) -> bool {
        self.target == other.target && self.tag_len == other.tag_len
    }
}

impl Same for () {
    fn same(&self, _other: &()) -> bool {
        true
    }
}

impl Block for Put {
    type Head = PutHead;

    ghost of = { λ row. record { target = row.0.target; start = row.0.start; words = row.1 } };

    ghost IsKept = { λ _. Unit {0} };

    ghost row_of = { λ put. (record { target = put.target; start = put.start }, put.words) };

    ghost use Rattle.std.specs.Prelude.{refl};

    ghost kept = { λ row _. refl };
}

impl Block for Send {
    type Head = SendHead;

    ghost use Rattle.std.specs.Prelude.{take, drop, length, ◌≤◌, ◌++◌};

    ghost of = { λ row. record {
      target = row.0.target;
      tag = take row.0.tag_len row.1;
      words = drop row.0.tag_len row.1;
    } };

    ghost IsKept = { λ row. row.0.tag_len ≤ length row.1 };

    ghost row_of = { λ send. (record { target = send.target; tag_len = length send.tag }, send.tag ++ send.words) };

    ghost use Rattle.bsp_model.specs.Inside.Tagged.{tagged_again};

    ghost kept = { λ row inside. tagged_again
        (λ len ws. (record { target = row.0.target; tag_len = len }, ws)) row.0.tag_len row.1 inside };
}

impl Block for Message {
    /// The number of words of the tag.
    type Head = usize;

    ghost use Rattle.std.specs.Prelude.{take, drop, length, ◌≤◌, ◌++◌};

    ghost of = { λ row. record { tag = take row.0 row.1; words = drop row.0 row.1 } };

    ghost IsKept = { λ row. row.0 ≤ length row.1 };

    ghost row_of = { λ message. (length message.tag, message.tag ++ message.words) };

    ghost use Rattle.bsp_model.specs.Inside.Tagged.{tagged_again};

    ghost kept = { λ row inside. tagged_again (λ len ws. (len, ws)) row.0 row.1 inside };
}

impl Block for Words {
    type Head = ();

    ghost of = { λ row. row.1 };

    ghost IsKept = { λ _. Unit {0} };

    ghost row_of = { λ words. (tt, words) };

    ghost use Rattle.std.specs.Prelude.{refl};

    ghost kept = { λ row _. refl };
}
