//! Puts, messages and printed lines in two lists.

ghost use Rattle.std.specs.Prelude.{◌≡◌, ◌<◌, ◌++◌, ◌∷◌, [], length, Some, OnErr, OnOk, slice_get, slice_index_or};

use crate::{Blocks, BlocksRef, Message, OutOfMemory, Put, Send, Words};

/// A put that stands in a list of puts.
#[derive(Clone, Copy)]
pub struct PutView<'a> {
    pub target: u64,
    pub start: u64,
    pub words: &'a [u64],
}

impl<'a> BlocksRef<'a, Put> {
    /// The put at a place.
    #[inline]
    pub fn at(&self, place: usize) -> PutView<'a>
        requires { place < length self.now }
        ensures { slice_get self.now place ≡ Some
            (record { target = result.target; start = result.start; words = result.words.now }) }
    {
        let (head, words) = self.parts(place);
        PutView {
            target: head.target,
            start: head.start,
            words,
        }
    }
}

/// A message that stands in a list of messages on their way.
#[derive(Clone, Copy)]
pub struct SendView<'a> {
    pub target: u64,
    pub tag: &'a [u64],
    pub words: &'a [u64],
}

impl<'a> BlocksRef<'a, Send> {
    /// The message at a place.
    #[inline]
    pub fn at(&self, place: usize) -> SendView<'a>
        requires { place < length self.now }
        ensures { slice_get self.now place ≡ Some
            (record { target = result.target; tag = result.tag.now; words = result.words.now }) }
    {
        let (head, words) = self.parts(place);
        let (tag, words) = words.split_at(head.tag_len);
        SendView {
            target: head.target,
            tag,
            words,
        }
    }
}

/// A message that stands in a queue.
#[derive(Clone, Copy)]
pub struct MessageView<'a> {
    pub tag: &'a [u64],
    pub words: &'a [u64],
}

impl Blocks<Message> {
    /// Adds a message. After `OutOfMemory` nothing has changed.
    #[inline]
    pub fn push(&mut self, tag: &[u64], words: &[u64]) -> Result<(), OutOfMemory>
        ensures ok { OnOk result (self.new ≡ self.old ++ record { tag = tag.now; words = words.now } ∷ []) }
        ensures err { OnErr result (self.new ≡ self.old) }
    {
        self.row.add(tag, words)
    }
}

impl<'a> BlocksRef<'a, Message> {
    /// The message at a place.
    #[inline]
    pub fn at(&self, place: usize) -> MessageView<'a>
        requires { place < length self.now }
        ensures { slice_get self.now place ≡ Some (record { tag = result.tag.now; words = result.words.now }) }
    {
        let (tag_len, words) = self.parts(place);
        let (tag, words) = words.split_at(*tag_len);
        MessageView { tag, words }
    }
}

impl Blocks<Words> {
    /// Adds a line. After `OutOfMemory` nothing has changed.
    #[inline]
    pub fn push(&mut self, words: &[u64]) -> Result<(), OutOfMemory>
        ensures ok { OnOk result (self.new ≡ self.old ++ words.now ∷ []) }
        ensures err { OnErr result (self.new ≡ self.old) }
    {
        self.row.add(words)
    }
}

impl<'a> BlocksRef<'a, Words> {
    /// The words of the line at a place.
    #[inline]
    pub fn row(&self, place: usize) -> &'a [u64]
        requires { place < length self.now }
        ensures { result.now ≡ slice_index_or self.now place [] }
    {
        self.parts(place).1
    }
}
