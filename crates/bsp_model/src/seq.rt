//! A list of values, kept in a `Vec`.

ghost use Rattle.std.specs.Prelude.{◌≡◌, ◌≤◌, ◌+◌, ◌++◌, ◌∷◌, [], drop, length, take, IfOk, OnErr, OnOk, nat_eq, slice_set, IsTrue, ◌↔◌};

use crate::{OutOfMemory, Same, SharedSeq, TryCopy};
use std::alloc::Global;
use std::marker::Model;

/// A list of values. It keeps its own allocator.
#[derive(Drop)]
pub struct Seq<T> {
    pub(crate) items: Vec<T>,
}

impl<T> Model for Seq<T> {
    ghost use Rattle.std.specs.Prelude.{List};

    ghost Value = { List T };

    ghost view = { λ s. s.items.items };
}

impl<T> Seq<T> {
    /// The empty list, which takes no memory.
    pub fn new(alloc: Global) -> Seq<T>
        ensures { result ≡ [] }
    {
        Seq {
            items: Vec::new(alloc),
        }
    }

    /// The empty list, with room for so many items, or `OutOfMemory`.
    pub fn with_capacity(alloc: Global, capacity: usize) -> Result<Seq<T>, OutOfMemory>
        ensures { IfOk result (λ s. s ≡ []) }
    {
        Ok(Seq {
            items: Vec::with_capacity(alloc, capacity)?,
        })
    }

    /// The list of these items.
    pub fn from_vec(items: Vec<T>) -> Seq<T>
        ensures { result ≡ items.items }
    {
        Seq { items }
    }

    /// The items, by value.
    pub fn into_vec(self) -> Vec<T>
        ensures { result.items ≡ self }
    {
        self.items
    }

    /// The items.
    #[inline]
    pub fn as_slice(&self) -> &[T]
        ensures { result.now ≡ self.now }
    {
        self.items.as_slice()
    }

    /// The number of items.
    #[inline]
    pub fn len(&self) -> usize
        ensures { result ≡ length self.now }
    {
        self.items.len()
    }

    /// The allocator that the list keeps.
    pub fn allocator(&self) -> Global {
        *self.items.allocator()
    }

    /// Whether there is no item.
    #[inline]
    pub fn is_empty(&self) -> bool
        ensures { result ≡ nat_eq (length self.now) 0 }
    {
        self.items.is_empty()
    }
}

impl<T: Drop> Seq<T> {
    /// The same list, which its copies share from now on. It takes no memory where the list is empty.
    pub fn share(self) -> Result<SharedSeq<T>, OutOfMemory>
        ensures { IfOk result (λ s. s ≡ self) }
    {
        SharedSeq::try_from_vec(self.items)
    }

    /// Puts an item at the end. After `OutOfMemory` nothing has changed, and the item is dropped.
    pub fn push(&mut self, item: T) -> Result<(), OutOfMemory>
        ensures ok { OnOk result (self.new ≡ self.old ++ item ∷ []) }
        ensures err { OnErr result (self.new ≡ self.old) }
    {
        self.items.push(item)?;
        Ok(())
    }

    /// Makes `item` the one at a place. Nothing changes where there is no such place.
    pub fn set(&mut self, at: usize, item: T)
        ensures { self.new ≡ slice_set self.old at item }
    {
        if at < self.items.len() {
            self.items[at] = item;
        }
    }

    /// Takes all items away. Their room stays.
    #[inline(always)]
    pub fn clear(&mut self)
        ensures { self.new ≡ [] }
    {
        if !self.items.is_empty() {
            self.items.clear();
        }
    }
}

impl<T: TryCopy> Seq<T> {
    /// Adds copies of items. After `OutOfMemory` some of them are added.
    pub fn append(&mut self, more: &[T]) -> Result<(), OutOfMemory>
        ensures { OnOk result (self.new ≡ self.old ++ more.now) }
    {
        append_copies(&mut self.items, more)
    }
}

impl<T: TryCopy> TryCopy for Seq<T> {
    fn copy(&self) -> Result<Seq<T>, OutOfMemory> {
        let mut copy = Seq::new(self.allocator());
        copy.append(self.as_slice())?;
        Ok(copy)
    }
}

impl<T: Same> Same for Seq<T> {
    fn same(&self, other: &Seq<T>) -> bool {
        are_same(self.as_slice(), other.as_slice())
    }
}

pub(crate) fn append_copies<T: TryCopy>(items: &mut Vec<T>, more: &[T]) -> Result<(), OutOfMemory>
    ensures ok { OnOk result (items.new.items ≡ items.old.items ++ more.now) }
    ensures kept { take (length items.old.items) items.new.items ≡ items.old.items }
{
    items.reserve(more.len())?;
    for item in more {
        items.push_reserved(item.copy()?);
    }
    Ok(())
}

/// Whether two lists have the same items, in the same order.
pub fn are_same<T: Same>(items: &[T], others: &[T]) -> bool
    ensures { IsTrue result ↔ (items.now ≡ others.now) }
{
    if items.len() != others.len() {
        return false;
    }
    for i in 0..items.len() {
        if !items[i].same(&others[i]) {
            return false;
        }
    }
    true
}

#[inline(always)]
pub(crate) fn replace_items<T: Copy>(items: &mut [T], start: usize, new: &[T])
    requires { start + length new.now ≤ length items.old }
    ensures { items.new ≡ take start items.old ++ new.now ++ drop (start + length new.now) items.old }
{
    if let [item] = new {
        items[start] = *item;
        return;
    }
    items[start..start + new.len()].copy_from_slice(new);
}

/// Puts items at the end of a list; one or two without a call. After `OutOfMemory` it has not changed.
#[inline(always)]
pub(crate) fn append_items<T: Copy>(items: &mut Vec<T>, more: &[T]) -> Result<(), OutOfMemory>
    ensures ok { OnOk result (items.new.items ≡ items.old.items ++ more.now) }
    ensures err { OnErr result (items.new.items ≡ items.old.items) }
{
    match more {
        [] => {}
        [item] => {
            items.reserve(1)?;
            items.push_reserved(*item);
        }
        [first, second] => {
            items.reserve(2)?;
            items.push_reserved(*first);
            items.push_reserved(*second);
        }
        _ => items.extend_from_slice(more)?,
    }
    Ok(())
}

impl Seq<u64> {
    /// The words of a slice, or `OutOfMemory`.
    pub fn from_slice(alloc: Global, words: &[u64]) -> Result<Seq<u64>, OutOfMemory>
        ensures { IfOk result (λ s. s ≡ words.now) }
    {
        Ok(Seq {
            items: words.to_vec(alloc)?,
        })
    }
}

/// After so many words it is looked at whether they are the same.
const WORDS_OF_A_BLOCK: usize = 64;

fn difference(left: &[u64], right: &[u64]) -> u64
    requires { length left.now ≡ length right.now }
    ensures { (result ≡ 0) ↔ (left.now ≡ right.now) }
{
    let mut difference = 0;
    for i in 0..left.len() {
        difference |= left[i] ^ right[i];
    }
    difference
}

/// Whether two lists have the same words. It takes no memory.
pub fn are_same_words(left: &[u64], right: &[u64]) -> bool
    ensures { IsTrue result ↔ (left.now ≡ right.now) }
{
    if left.len() != right.len() {
        return false;
    }
    if left.len() <= WORDS_OF_A_BLOCK {
        return difference(left, right) == 0;
    }
    let mut at = 0;
    while at < left.len() {
        let end = at + (left.len() - at).min(WORDS_OF_A_BLOCK);
        if difference(&left[at..end], &right[at..end]) != 0 {
            return false;
        }
        at = end;
    }
    true
}
