//! Whether two deliveries to a process bring the same requests, and read the same words.

ghost use Rattle.std.specs.Prelude.{◌≡◌, ◌<◌, ◌↔◌, IsTrue, map, length, All};
ghost use Rattle.bsp_deliver.specs.Requests.{words_read};
ghost use Rattle.bsp_deliver.specs.Delivery.{delivery_parts};
ghost use Rattle.bsp_deliver.specs.Condition.{AreDeliverable};
ghost use Rattle.bsp_deliver.specs.Readable.{IsReadable};
ghost use Rattle.bsp_deliver.specs.Inside.Comparison.{HasSameParcel};

use crate::same::{are_same_puts, are_same_sends, get_reads_same_words};
use bsp_model::{Get, are_same};
use bsp_step::{OutcomeRef, Outcomes};

/// Whether one sender puts and sends the same to `d`.
fn is_same_parcel(old: &OutcomeRef<'_>, new: &OutcomeRef<'_>, d: u64) -> bool
    ensures { IsTrue result ↔ HasSameParcel d old.now new.now }
{
    are_same_puts(old, new, d) && are_same_sends(old, new, d)
}

/// Whether the puts and the sends to `d` are equal lists, senders kept. It takes no memory.
pub fn parcel_same(old: &Outcomes, new: &Outcomes, d: usize) -> bool
    requires as_many { length old.now ≡ length new.now }
    ensures { IsTrue result ↔ ((delivery_parts old.now d).puts ≡ (delivery_parts new.now d).puts)
        × ((delivery_parts old.now d).sends ≡ (delivery_parts new.now d).sends) }
{
    for sender in 0..old.len() {
        if !is_same_parcel(&old.get(sender), &new.get(sender), d as u64) {
            return false;
        }
    }
    true
}

/// Whether gets read the words that they read before.
fn read_the_same(old: &Outcomes, new: &Outcomes, gets: &[Get]) -> bool
    requires before { All (IsReadable old.now) gets.now }
    requires after { All (IsReadable new.now) gets.now }
    ensures { IsTrue result ↔ (map (words_read old.now) gets.now ≡ map (words_read new.now) gets.now) }
{
    for get in gets {
        if !get_reads_same_words(old, new, get) {
            return false;
        }
    }
    true
}

/// Whether the gets of `d` are equal lists, and the words that they read are equal. It takes no memory.
pub fn answers_same(old: &Outcomes, new: &Outcomes, d: usize) -> bool
    requires known { d < length old.now }
    requires as_many { length old.now ≡ length new.now }
    requires old { AreDeliverable old.now }
    requires new { AreDeliverable new.now }
    ensures { IsTrue result ↔ ((delivery_parts old.now d).gets ≡ (delivery_parts new.now d).gets) }
{
    let before = old.get(d);
    let after = new.get(d);
    are_same(before.gets, after.gets) && read_the_same(old, new, before.gets)
}
