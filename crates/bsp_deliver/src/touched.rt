//! To which processes a delivery depends on something else, where some outcomes have changed.

ghost use Rattle.std.specs.Prelude.{◌≡◌, ◌<◌, ◌↔◌, IsTrue, All, length, map, true};
ghost use Rattle.bsp_step.specs.ListKind.{IsWithout};
ghost use Rattle.bsp_step.specs.declared.list_kind.ListKind.TheVariants.{Sends};
ghost use Rattle.bsp_deliver.specs.Requests.{words_read};
ghost use Rattle.bsp_deliver.specs.Delivery.{delivery_parts};
ghost use Rattle.bsp_deliver.specs.Condition.{AreDeliverable};
ghost use Rattle.bsp_deliver.specs.Readable.{IsReadable};
ghost use Rattle.bsp_deliver.specs.Inside.Comparison.{AllBringSame, BringsSame, KeepsOwn, HaveGetsUnlessMarked, ReadsSame};
ghost use Rattle.bsp_deliver.specs.Inside.Marks.{AreMarkedUnless};
ghost use Rattle.bsp_deliver.specs.Touched.{AreSameUnlessMarked, AreTouched};

use crate::marking::mark_parcels;
use crate::same::get_reads_same_words;
use bsp_model::{Get, ProcessSet, Same, are_same};
use bsp_step::{ListKind, Outcomes};

/// Whether gets read the words that they read before. Those of an owner whose outcome has not changed are the same.
fn read_same_words(old: &Outcomes, new: &Outcomes, changed: &ProcessSet, gets: &[Get]) -> bool
    requires marks { length changed.now ≡ length new.now }
    requires before { All (IsReadable old.now) gets.now }
    requires after { All (IsReadable new.now) gets.now }
    requires unchanged { AreSameUnlessMarked old.now new.now changed.now }
    ensures { IsTrue result ↔ (map (words_read old.now) gets.now ≡ map (words_read new.now) gets.now) }
{
    for get in gets {
        if changed.contains(get.owner as usize) && !get_reads_same_words(old, new, get) {
            return false;
        }
    }
    true
}

/// True only where no turn of either superstep sent a message.
fn neither_sends(old: &Outcomes, new: &Outcomes) -> bool
    ensures { result ≡ true → All (IsWithout Sends) old.now × All (IsWithout Sends) new.now }
{
    old.is_without(ListKind::Sends) && new.is_without(ListKind::Sends)
}

#[inline(always)]
fn have_same_memory_and_gets(old: &Outcomes, new: &Outcomes, p: usize) -> bool
    requires in_old { p < length old.now }
    requires in_new { p < length new.now }
    ensures { IsTrue result ↔ KeepsOwn old.now new.now p }
{
    old.memory(p).same(&new.memory(p)) && are_same(old.gets(p), new.gets(p))
}

/// Marks the processes to which a process brings other puts or messages than before, and the process itself where its memory or its gets are others.
#[inline(always)]
fn mark_changes_of(
    marks: &mut ProcessSet,
    old: &Outcomes,
    new: &Outcomes,
    sends_none: bool,
    p: usize,
)
    requires as_many { length marks.old ≡ length new.now }
    requires count { length old.now ≡ length new.now }
    requires known { p < length new.now }
    requires before { AreDeliverable old.now }
    requires none { sends_none ≡ true → All (IsWithout Sends) old.now × All (IsWithout Sends) new.now }
    ensures { AreMarkedUnless (BringsSame old.now new.now p) marks.old marks.new }
{
    mark_parcels(marks, &old.get(p), &new.get(p), sends_none);
    if !have_same_memory_and_gets(old, new, p) {
        marks.insert(p);
    }
}

/// The same for each process. Those that have not changed are not looked at.
fn mark_changes<'a>(
    marks: &mut ProcessSet,
    old: &'a Outcomes,
    new: &'a Outcomes,
    changed: &ProcessSet,
)
    requires as_many { length marks.old ≡ length new.now }
    requires count { length old.now ≡ length new.now }
    requires marks { length changed.now ≡ length new.now }
    requires before { AreDeliverable old.now }
    requires unchanged { AreSameUnlessMarked old.now new.now changed.now }
    ensures { AreMarkedUnless (AllBringSame old.now new.now) marks.old marks.new }
{
    let sends_none = neither_sends(old, new);
    for p in changed.iter() {
        mark_changes_of(marks, old, new, sends_none, p);
    }
}

/// Marks the processes whose gets read other words than before. Those that are not marked yet have the gets that they had.
fn mark_readers(marks: &mut ProcessSet, old: &Outcomes, new: &Outcomes, changed: &ProcessSet)
    requires as_many { length marks.old ≡ length new.now }
    requires count { length old.now ≡ length new.now }
    requires marks { length changed.now ≡ length new.now }
    requires before { AreDeliverable old.now }
    requires after { AreDeliverable new.now }
    requires unchanged { AreSameUnlessMarked old.now new.now changed.now }
    requires kept { HaveGetsUnlessMarked old.now new.now marks.old }
    ensures { AreMarkedUnless (ReadsSame old.now new.now) marks.old marks.new }
{
    for p in 0..new.len() {
        if !marks.contains(p) && !read_same_words(old, new, changed, new.gets(p)) {
            marks.insert(p);
        }
    }
}

/// The processes to which a delivery depends on something else than before: on another memory after computing, on other gets or words that they read,
/// or on other puts or messages to them.
///
/// In `changed` is each process whose outcome may be another one than before. Only these are looked at, and where somebody gets words, the gets
/// of the other processes too. It takes no memory.
pub fn touched_by_changes<'a>(
    old: &'a Outcomes,
    new: &'a Outcomes,
    changed: &ProcessSet,
) -> ProcessSet
    requires count { length old.now ≡ length new.now }
    requires marks { length changed.now ≡ length new.now }
    requires before { AreDeliverable old.now }
    requires after { AreDeliverable new.now }
    requires unchanged { AreSameUnlessMarked old.now new.now changed.now }
    ensures { AreTouched old.now new.now result }
{
    let mut touched = ProcessSet::none(new.len());
    mark_changes(&mut touched, old, new, changed);
    if new.is_without(ListKind::Gets) {
        return touched;
    }
    mark_readers(&mut touched, old, new, changed);
    touched
}
