//! What a process issues in its turn, and what it finds in its queue (Hill et al. 1998; sizes in words are this profile's).

use crate::{OutOfMemory, Same, TryCopy, Words};

/// A put, resolved: words to be written at a target.
#[derive(Drop)]
pub struct Put {
    pub target: u64,
    /// The address of the first word there.
    pub start: u64,
    /// The words, copied when the put was issued.
    pub words: Words,
}

/// A get, resolved: words to be read from an owner.
#[derive(Clone, Copy)]
pub struct Get {
    pub owner: u64,
    /// The address of the first word there.
    pub start: u64,
    pub len: u64,
    /// The own address that the first word is written to.
    pub into: u64,
}

/// A message on its way.
#[derive(Drop)]
pub struct Send {
    pub target: u64,
    /// The tag, of at most `MOST_TAG_WORDS` words.
    pub tag: Words,
    /// The payload, of at most `MOST_PAYLOAD_WORDS` words.
    pub words: Words,
}

/// A message in a queue, with a tag and a payload as in `Send`.
#[derive(Drop)]
pub struct Message {
    pub tag: Words,
    pub words: Words,
}

/// A store that was made in the own memory.
#[derive(Clone, Copy)]
pub struct Store {
    pub addr: u64,
    pub value: u64,
}

impl TryCopy for Put {
    fn copy(&self) -> Result<Put, OutOfMemory> {
        Ok(Put {
            target: self.target,
            start: self.start,
            words: self.words.copy()?,
        })
    }
}

impl Same for Put {
    fn same(&self, other: &Put) -> bool {
        self.target == other.target && self.start == other.start && self.words.same(&other.words)
    }
}

impl TryCopy for Get {
    fn copy(&self) -> Result<Get, OutOfMemory> {
        Ok(*self)
    }
}

impl Same for Get {
    fn same(&self, other: &Get) -> bool {
        self.owner == other.owner
            && self.start == other.start
            && self.len == other.len
            && self.into == other.into
    }
}

impl TryCopy for Send {
    fn copy(&self) -> Result<Send, OutOfMemory> {
        Ok(Send {
            target: self.target,
            tag: self.tag.copy()?,
            words: self.words.copy()?,
        })
    }
}

impl Same for Send {
    fn same(&self, other: &Send) -> bool {
        self.target == other.target && self.tag.same(&other.tag) && self.words.same(&other.words)
    }
}
